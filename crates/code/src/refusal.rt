// Why a word or a message is refused.
ghost use Rattle.std.specs.Prelude.{◌≡◌};
ghost use Rattle.code.specs.Answers.{number_of, place_of};
ghost use Rattle.code.specs.declared.refusal.Refusal.TheVariants.{Reach};

use decoder::OutOfReach;
use std::error::Error;
use std::fmt;

#[derive(Clone, Copy, PartialEq, Eq, Debug)]
pub enum Refusal {
    // The message is not 514 symbols long, or the word not 544.
    Length,
    // The symbol with this index is above 1,023; no lower one is.
    Symbol(usize),
    // No codeword lies within reach.
    Reach,
}

// The decoder found no codeword within reach.
impl From<OutOfReach> for Refusal {
    ghost from_gives = { λ _ r. r ≡ Reach };

    fn from(_e: OutOfReach) -> Refusal {
        Refusal::Reach
    }
}

// By name, not as conversions: a number and an index alone would not say which of them is meant.
impl Refusal {
    pub fn number(self) -> u8
        ensures { result ≡ number_of self }
    {
        match self {
            Refusal::Length => 6,
            Refusal::Symbol(_) => 7,
            Refusal::Reach => 8,
        }
    }

    // The index of the symbol that is refused, else 0.
    pub fn place(self) -> usize
        ensures { result ≡ place_of self }
    {
        match self {
            Refusal::Symbol(i) => i,
            _ => 0,
        }
    }
}

// The number, a space and the place. Each layer has refusals and numbers of its own; a trait of number and place with an
// impl for each type would be no shorter.
impl fmt::Display for Refusal {
    ghost use Rattle.std.specs.Prelude.{Some};
    ghost use Rattle.code.specs.Answers.{text_of};

    ghost output = { λ e. Some (text_of e) };

    fn fmt<W: fmt::Write>(&self, f: &mut fmt::Formatter<W>) -> fmt::Result {
        let number = self.number();
        let place = self.place();
        write!(f, "{number} {place}")
    }
}

impl Error for Refusal {}
