// The sizes of the code, and symbols that are checked.
ghost use Rattle.std.specs.Prelude.{◌≡◌, ℕ, ◌<◌, ◌≤◌, length, slice_index, MatchOption, MatchResult};
ghost use Rattle.code.specs.Laws.{IsLowestLarge, Malformed};

use super::refusal::Refusal;

// The number of symbols in a word, and in a message.
pub const SIZE: usize = 544;

pub const MESSAGE: usize = 514;

// The number of roots of a codeword, and so of its symbols after the message.
pub const ROOTS: usize = 30;

// N symbols of ten bits.
#[derive(Clone, Copy)]
pub struct Symbols<'a, const N: usize> {
    pub symbols: &'a [u16; N],
    ghost whole: { length symbols.now ≡ N },
    ghost small: { (i : ℕ) → i < N → slice_index symbols.now i < 1024 },
}

pub type Message<'a> = Symbols<'a, MESSAGE>;

pub type Word<'a> = Symbols<'a, SIZE>;

// The lowest index of a symbol above 1,023.
fn lowest_large(symbols: &[u16]) -> Option<usize>
    ensures { MatchOption result ((k : ℕ) → k < length symbols.now → slice_index symbols.now k < 1024) (IsLowestLarge symbols.now) }
{
    symbols.iter().position(|s| *s > 1023)
}

impl<'a, const N: usize> Symbols<'a, N> {
    // Refuses a slice of another length, or with a symbol above 1,023.
    // `check`, not `TryFrom`: of an array of N symbols a call asks that it fits in memory, and a conversion can ask nothing.
    pub(crate) fn check(symbols: &'a [u16]) -> Result<Symbols<'a, N>, Refusal>
        requires { N ≤ 544 }
        ensures { MatchResult result (λ s. s.symbols.now ≡ symbols.now) (Malformed N symbols.now) }
    {
        let whole = symbols.as_array::<N>().ok_or(Refusal::Length)?;
        match lowest_large(symbols) {
            Some(i) => Err(Refusal::Symbol(i)),
            None => Ok(Symbols { symbols: whole }),
        }
    }
}
