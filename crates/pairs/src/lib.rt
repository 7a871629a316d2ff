// Pairs of codewords on the lanes, as both directions share them: message, marker block, words, rows, and the way back.
#![tactic(auto)]

mod message;
mod opening;
mod place;
mod strip;

pub use message::{MESSAGE_BITS, Message};
pub use place::{LanePlace, WordPlace};
pub use strip::STRIP_BYTES;
