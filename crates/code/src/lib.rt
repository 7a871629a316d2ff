// The code of 544 symbols over the field of 1,024 elements: encoding, and engines that correct words.
#![tactic(auto)]

mod encoder;
mod engine;
mod fault;
mod full;
mod places;
mod products;
mod refusal;
mod remainder;
mod run;
mod symbols;
mod watch;
mod word;

pub use encoder::{encode, generator_polynomial};
pub use engine::Engine;
pub use fault::{Cause, Fault};
pub use full::FullEngine;
pub use refusal::Refusal;
pub use run::{Run, Runs};
pub use watch::WatchEngine;
pub use word::is_codeword;
