// The remainder of a message or a word by the generator.
ghost use Rattle.std.specs.Prelude.{◌≡◌, ℕ, ◌<◌, ◌≤◌, MatchBool, bit_xor, slice_index};
ghost use Rattle.code.specs.Division.{Register, Shifted, Remainder, WordRemainder, NoRemainder};

use super::products::product;
use super::symbols::{MESSAGE, ROOTS, SIZE, Symbols};

// The shift register of the division: thirty symbols of ten bits, and three zeros behind them.
// 33, since a shift goes over the 32 places of a row of products, and each of them reads the next one.
#[derive(Drop)]
pub struct ShiftRegister {
    pub symbols: [u16; 33],
    ghost held: { Register symbols },
}

impl ShiftRegister {
    // Takes the next symbol into the register: it shifts by one place, and the sum of that symbol and its first one goes to the taps.
    fn shift(&mut self, next: u16)
        requires { next < 1024 }
        ensures { Shifted self.old.symbols (bit_xor next (slice_index self.old.symbols 0)) 32 self.new.symbols }
    {
        let feedback = next ^ self.symbols[0];
        let symbols = &mut self.symbols;
        // By index: an array made anew by `from_fn` needs a case for the last place and a bound in its closure, and encoding took 6 % longer.
        for p in 0..32 {
            symbols[p] = symbols[p + 1] ^ product(feedback, p);
        }
    }

    // Whether the remainder is zero.
    pub fn is_zero(&self) -> bool
        ensures { MatchBool result (NoRemainder self.now.symbols) (NoRemainder self.now.symbols → ⊥) }
    {
        self.symbols[..ROOTS].iter().all(|s| *s == 0)
    }
}

impl<const N: usize> Symbols<'_, N> {
    // The remainder of the first 514 symbols times x^30.
    pub(crate) fn divide(self) -> ShiftRegister
        requires { (514 ≤ N) × (N ≤ 544) }
        ensures { Remainder self.entry.symbols.now 514 result.symbols }
    {
        let symbols = self.symbols;
        let mut register = ShiftRegister { symbols: [0; 33] };
        for s in &symbols[..MESSAGE] {
            register.shift(*s);
        }
        register
    }
}

impl Symbols<'_, SIZE> {
    // The remainder of a word: that of its message, and the symbols behind the message.
    pub fn remainder(self) -> ShiftRegister
        ensures { WordRemainder self.entry.symbols.now result.symbols }
    {
        let word = self.symbols;
        let mut symbols = self.divide().symbols;
        // By index: of an array behind `iter_mut().zip(..)` a proof knows no element, and `from_fn` would need a case for the three zeros.
        for (j, s) in word[MESSAGE..].iter().enumerate() {
            symbols[j] ^= *s;
        }
        ShiftRegister { symbols }
    }
}
