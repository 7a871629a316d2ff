// The engine of reach 0: it changes no word, and tells whether one is a codeword.
ghost use Rattle.code.specs.Laws.{WatchingKeeps};
ghost use Rattle.std.proofs.Common.{lit≤};

use super::engine::Engine;
use super::refusal::Refusal;
use super::symbols::Word;

#[derive(Drop)]
pub struct WatchEngine {}

impl WatchEngine {
    // The contract says of any engine of reach 0 that no word is changed.
    pub fn new() -> WatchEngine
        ensures { WatchingKeeps }
    {
        WatchEngine {}
    }
}

impl Engine for WatchEngine {
    ghost reach = { 0 };

    ghost bounded = { lit≤ tt };

    fn correct(&mut self, word: &mut [u16]) -> Result<usize, Refusal> {
        let received = Word::check(word)?;
        if received.has_roots() {
            Ok(0)
        } else {
            Err(Refusal::Reach)
        }
    }
}
