// Sending: the blocks of a pair of codewords become the bits of its lanes.
#![tactic(auto)]

mod refusal;
mod send;

pub use refusal::Refusal;
pub use send::Sender;
