// Why a call is refused.
ghost use Rattle.std.specs.Prelude.{◌≡◌, Some};
ghost use Rattle.blocks.specs.Refusals.{number_of, place_of, text_of};

use std::error::Error;
use std::fmt;

#[derive(Clone, Copy, PartialEq, Eq, Debug)]
pub enum Refusal {
    // A wrong count of bytes, or a record that is cut short.
    Length,
    // A record of a kind that is not taken there, by the record's index.
    Kind(usize),
    // A start value out of its range.
    Start,
}

// By name, not as conversions: a number and an index alone would not say which of them is meant.
impl Refusal {
    pub fn number(self) -> u32
        ensures { result ≡ number_of self }
    {
        match self {
            Refusal::Length => 3,
            Refusal::Kind(_) => 4,
            Refusal::Start => 5,
        }
    }

    pub fn place(self) -> usize
        ensures { result ≡ place_of self }
    {
        match self {
            Refusal::Kind(index) => index,
            Refusal::Length | Refusal::Start => 0,
        }
    }
}

// As programs print it: the number, a space and the place. Each layer has refusals and numbers of its own; a trait of number
// and place with an impl for each type would be no shorter.
impl fmt::Display for Refusal {
    ghost output = { λ r. Some (text_of r) };

    fn fmt<W: fmt::Write>(&self, f: &mut fmt::Formatter<W>) -> fmt::Result {
        let number = self.number();
        let place = self.place();
        write!(f, "{number} {place}")
    }
}

impl Error for Refusal {}
