// A receiver of lane bits: it hunts for the markers of all positions, and tells when it is ready.
#![tactic(auto)]

mod fault;
mod hunting;
mod positions;
mod refusal;
mod ring;
mod skew;
mod told;

pub use fault::{Cause, Fault, Misaligned};
pub use hunting::Hunting;
pub use refusal::Refusal;
pub use told::Told;
