// The refusals in a row of one word of the pairs, A or B.
ghost use Rattle.std.specs.Prelude.{◌≤◌};

use crate::fault::{Cause, Fault};
use crate::refusal::Refusal;

// As many refusals in a row are a fault.
const FAULT: u8 = 3;

// A run of refusals. Each of the two words has its own. It is not `Copy`, since a copy would go on beside it unseen.
#[derive(Drop)]
pub struct Run {
    refusals: u8,
    ghost within: { refusals ≤ 3 },
}

impl Run {
    ghost use Rattle.std.specs.Prelude.{◌≡◌};
    ghost use Rattle.code.specs.Faults.{run_after, run_checked, RunFaults};
    ghost use Rattle.code.specs.Runs.{refusals_in};

    // No refusal yet.
    pub fn new() -> Run
        ensures { refusals_in result ≡ 0 }
    {
        Run { refusals: 0 }
    }

    // Goes on by what an engine answered to the word: a refusal is one more, an accepted word clears them.
    pub fn push(&mut self, answer: &Result<usize, Refusal>)
        ensures { refusals_in self.new ≡ run_after (refusals_in self.old) answer.now }
    {
        self.refusals = match answer {
            Ok(_) => 0,
            Err(_) => (self.refusals + 1).min(FAULT),
        };
    }

    // The fault of three refusals in a row at the position of the word, so that `?` hands it up.
    // The contract says of any answers behind which of them that is.
    pub fn check(&self, position: usize, ticks: u64) -> Result<(), Fault>
        ensures answer { result ≡ run_checked (refusals_in self.now) position ticks }
        ensures law { RunFaults }
    {
        if self.refusals == FAULT {
            return Err(Fault {
                cause: Cause::ThreeRefusals,
                position,
                ticks,
            });
        }
        Ok(())
    }
}

// The runs of both words of the pairs. A refusal of one is none of the other.
#[derive(Drop)]
pub struct Runs {
    a: Run,
    b: Run,
}

impl Runs {
    ghost use Rattle.std.specs.Prelude.{◌≡◌};
    ghost use Rattle.code.specs.Faults.{run_after, runs_checked};
    ghost use Rattle.code.specs.Runs.{refusals_of_a, refusals_of_b};

    // No refusal yet.
    pub fn new() -> Runs
        ensures a { refusals_of_a result ≡ 0 }
        ensures b { refusals_of_b result ≡ 0 }
    {
        Runs {
            a: Run::new(),
            b: Run::new(),
        }
    }

    // Goes on by what an engine answered to word A and to word B of a pair.
    pub fn push(&mut self, a: &Result<usize, Refusal>, b: &Result<usize, Refusal>)
        ensures a { refusals_of_a self.new ≡ run_after (refusals_of_a self.old) a.now }
        ensures b { refusals_of_b self.new ≡ run_after (refusals_of_b self.old) b.now }
    {
        self.a.push(a);
        self.b.push(b);
    }

    // The fault of three refusals in a row, so that `?` hands it up: of word A if both have them.
    pub fn check(&self, ticks: u64) -> Result<(), Fault>
        ensures { result ≡ runs_checked (refusals_of_a self.now) (refusals_of_b self.now) ticks }
    {
        self.a.check(0, ticks)?;
        self.b.check(1, ticks)
    }
}
