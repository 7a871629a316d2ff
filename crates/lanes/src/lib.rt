// Rates and their alignment markers, the marker test, the lock machine of one position, and pad bits.
#![tactic(auto)]

mod fault;
mod letters;
mod lock;
mod marker;
mod pad;
mod rate;

pub use fault::{Cause, Fault};
pub use letters::marker_of;
pub use lock::{Event, Lock};
pub use marker::{found_lane, marker_symbol, passes};
pub use pad::Pad;
pub use rate::{PAIR_BITS, Rate, lane_count, pair_count, period};
