// Why a tick is refused.
ghost use Rattle.std.specs.Prelude.{◌≡◌};
ghost use Rattle.receiver.specs.Refusals.{number_of, place_of, accepted_word};

use lanes::{Rate, lane_count};
use std::error::Error;
use std::fmt;

#[derive(Clone, Copy, PartialEq, Eq, Debug)]
pub enum Refusal {
    // The bit of the tick word with this index is set and stands for no position; no lower one does.
    Bit(usize),
    // The receiver is ready, and was ticked without aligning it.
    Ready,
}

// By name, not as conversions: a number and an index alone would not say which of them is meant.
impl Refusal {
    pub fn number(self) -> u8
        ensures { result ≡ number_of self }
    {
        match self {
            Refusal::Bit(_) => 2,
            Refusal::Ready => 20,
        }
    }

    // The index of the bit that is refused, else 0.
    pub fn place(self) -> usize
        ensures { result ≡ place_of self }
    {
        match self {
            Refusal::Bit(index) => index,
            Refusal::Ready => 0,
        }
    }
}

// The number, a space and the place.
impl fmt::Display for Refusal {
    ghost use Rattle.std.specs.Prelude.{Some};
    ghost use Rattle.receiver.specs.Refusals.{text_of};

    ghost output = { λ e. Some (text_of e) };

    fn fmt<W: fmt::Write>(&self, f: &mut fmt::Formatter<W>) -> fmt::Result {
        let number = self.number();
        let place = self.place();
        write!(f, "{number} {place}")
    }
}

impl Error for Refusal {}

// The bits of a tick word, one for each position, where the tick is not refused.
pub(crate) fn accept<R: Rate>(ready: bool, word: u32) -> Result<u16, Refusal>
    ensures { result ≡ accepted_word R.layout.lanes ready word }
{
    if ready {
        return Err(Refusal::Ready);
    }
    let lanes = lane_count::<R>();
    let above = word >> lanes;
    if above > 0 {
        return Err(Refusal::Bit(lanes + above.trailing_zeros() as usize));
    }
    Ok(word as u16)
}
