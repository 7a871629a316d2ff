// Whether a word is a codeword.
ghost use Rattle.std.specs.Prelude.{IsTrue, MatchBool, ◌↔◌};
ghost use Rattle.code.specs.Code.{Codeword};
ghost use Rattle.code.specs.Laws.{FarApart, EachEncodes};

use super::symbols::{SIZE, Symbols, Word};

// Any word may be asked about. The contract also says that codewords lie far apart, and that every message has its codeword.
pub fn is_codeword(word: &[u16]) -> bool
    ensures value { IsTrue result ↔ Codeword word.now }
    ensures law { FarApart }
    ensures each { EachEncodes }
{
    Word::check(word).is_ok_and(|word| word.has_roots())
}

impl Symbols<'_, SIZE> {
    // The same for a word of symbols.
    pub fn has_roots(self) -> bool
        ensures { MatchBool result (Codeword self.entry.symbols.now) (Codeword self.entry.symbols.now → ⊥) }
    {
        self.remainder().is_zero()
    }
}
