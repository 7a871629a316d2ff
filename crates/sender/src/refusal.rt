// Why making a sender, or a send, is refused.
ghost use Rattle.std.specs.Prelude.{◌≡◌};
ghost use Rattle.sender.specs.Refusals.{number_of, place_of};
ghost use Rattle.sender.specs.declared.refusal.Refusal.TheVariants.{Blocks};

use std::error::Error;
use std::fmt;

#[derive(Clone, Copy, PartialEq, Eq, Debug)]
pub enum Refusal {
    // The strip buffer has fewer than 1,360 bytes.
    Buffer,
    // What the layer of blocks refuses: a count of bytes, a kind, a start value.
    Blocks(blocks::Refusal),
}

impl From<blocks::Refusal> for Refusal {
    ghost from_gives = { λ e r. r ≡ Blocks e };

    fn from(e: blocks::Refusal) -> Refusal {
        Refusal::Blocks(e)
    }
}

// By name, not as conversions: a number and an index alone would not say which of them is meant.
impl Refusal {
    pub fn number(self) -> u32
        ensures { result ≡ number_of self }
    {
        match self {
            Refusal::Buffer => 1,
            Refusal::Blocks(refusal) => refusal.number(),
        }
    }

    pub fn place(self) -> usize
        ensures { result ≡ place_of self }
    {
        match self {
            Refusal::Buffer => 0,
            Refusal::Blocks(refusal) => refusal.place(),
        }
    }
}

// The number, a space and the place. Each layer has refusals and numbers of its own; a trait of number and place with an
// impl for each type would be no shorter.
impl fmt::Display for Refusal {
    ghost use Rattle.std.specs.Prelude.{Some};
    ghost use Rattle.sender.specs.Refusals.{text_of};

    ghost output = { λ e. Some (text_of e) };

    fn fmt<W: fmt::Write>(&self, f: &mut fmt::Formatter<W>) -> fmt::Result {
        let number = self.number();
        let place = self.place();
        write!(f, "{number} {place}")
    }
}

impl Error for Refusal {}
