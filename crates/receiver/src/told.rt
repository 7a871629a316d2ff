// What an accepted tick of a hunt tells.
ghost use Rattle.std.specs.Prelude.{◌≡◌};
ghost use Rattle.receiver.specs.Hunts.{is_ready, is_quiet};

use crate::fault::Fault;
use crate::refusal::Refusal;

#[derive(Clone, Copy, PartialEq, Eq, Debug)]
pub enum Told {
    Quiet,
    // All positions are locked, to different lanes, with little enough skew.
    Ready,
    // All positions search again.
    Setback(Fault),
}

impl Told {
    pub(crate) fn is_ready(self) -> bool
        ensures { result ≡ is_ready self }
    {
        match self {
            Told::Ready => true,
            _ => false,
        }
    }
}

// The tick was accepted and tells nothing.
pub(crate) fn is_quiet(answer: &Result<Told, Refusal>) -> bool
    ensures { result ≡ is_quiet answer.now }
{
    match answer {
        Ok(Told::Quiet) => true,
        _ => false,
    }
}
