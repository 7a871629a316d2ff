// The lock machine of one position.
ghost use Rattle.std.specs.Prelude.{◌≡◌};
ghost use Rattle.bits.specs.Lowest.{lowest};
ghost use Rattle.lanes.specs.Locks.{tested, outcome, turned, next_lock, lock_event};
ghost use Rattle.lanes.specs.LockRules.{LockRules};

use crate::fault::{Cause, Fault};
use crate::marker::{found_lane, passes};
use crate::rate::{Rate, period};

// `left` counts the ticks to the next test.
#[derive(Clone, Copy, PartialEq, Eq, Debug)]
pub enum Lock {
    Searching,
    Waiting {
        lane: usize,
        left: usize,
    },
    // With the failures in a row.
    Locked {
        lane: usize,
        left: usize,
        failures: u8,
    },
}

// What a tick did to a position.
#[derive(Clone, Copy, PartialEq, Eq, Debug)]
pub enum Event {
    Quiet,
    Waits,
    Locks,
    Fails,
    FifthFailure,
}

impl Event {
    ghost use Rattle.lanes.specs.Faults.{or_fault};

    // The event, or the fault of five failed markers in a row.
    pub fn or_fault(self, position: usize, ticks: u64) -> Result<Event, Fault>
        ensures { result ≡ or_fault self position ticks }
    {
        match self {
            Event::FifthFailure => Err(Fault {
                cause: Cause::FiveFailedMarkers,
                position,
                ticks,
            }),
            other => Ok(other),
        }
    }
}

// A locked position that fails once more after so many failures in a row is lost.
const MOST_FAILURES: u8 = 4;

// The lane for which the window passes, if there is a window.
fn lane_in<R: Rate>(window: Option<u128>) -> Option<usize>
    ensures { result ≡ lowest (tested R.layout window) R.layout.lanes }
{
    window.and_then(|bits| found_lane::<R>(bits))
}

// There is a window, and it passes for the lane.
fn passes_in<R: Rate>(window: Option<u128>, lane: usize) -> bool
    ensures { result ≡ tested R.layout window lane }
{
    window.is_some_and(|bits| passes::<R>(bits, lane))
}

// A tick's test of a position.
#[derive(Clone, Copy)]
enum Outcome {
    // Its test is not due.
    Untested,
    Failed,
    // It passed for this lane.
    Passed(usize),
}

impl Lock {
    // A searching position tests for every lane on each tick; the others for their own, when it is due.
    fn test<R: Rate>(&self, window: Option<u128>) -> Outcome
        ensures { result ≡ outcome R.layout (tested R.layout window) self.now }
    {
        match *self {
            Lock::Searching => lane_in::<R>(window).map_or(Outcome::Failed, Outcome::Passed),
            Lock::Waiting { lane, left } | Lock::Locked { lane, left, .. } => {
                if left > 1 {
                    Outcome::Untested
                } else if passes_in::<R>(window, lane) {
                    Outcome::Passed(lane)
                } else {
                    Outcome::Failed
                }
            }
        }
    }

    // Moves by the outcome of a tick's test, and tells what happened.
    fn turn(&mut self, outcome: Outcome, period: usize) -> Event
        ensures state { self.new ≡ (turned period outcome self.old).0 }
        ensures event { result ≡ (turned period outcome self.old).1 }
    {
        match (&mut *self, outcome) {
            (Lock::Searching, Outcome::Passed(lane)) => {
                *self = Lock::Waiting { lane, left: period };
                Event::Waits
            }
            (Lock::Searching, _) => Event::Quiet,
            (Lock::Waiting { left, .. }, Outcome::Untested) => {
                *left = left.saturating_sub(1);
                Event::Quiet
            }
            (Lock::Waiting { .. }, Outcome::Failed) => {
                *self = Lock::Searching;
                Event::Fails
            }
            (Lock::Waiting { lane, .. }, Outcome::Passed(_)) => {
                *self = Lock::Locked {
                    lane: *lane,
                    left: period,
                    failures: 0,
                };
                Event::Locks
            }
            (Lock::Locked { left, .. }, Outcome::Untested) => {
                *left = left.saturating_sub(1);
                Event::Quiet
            }
            (Lock::Locked { left, failures, .. }, Outcome::Passed(_)) => {
                *left = period;
                *failures = 0;
                Event::Quiet
            }
            (Lock::Locked { left, failures, .. }, Outcome::Failed) if *failures < MOST_FAILURES => {
                *left = period;
                *failures += 1;
                Event::Fails
            }
            (Lock::Locked { .. }, Outcome::Failed) => {
                *self = Lock::Searching;
                Event::FifthFailure
            }
        }
    }

    // One tick of a position. Its window is the last 120 bits that came to it. Before so many of a hunt are in there is
    // none, and nothing passes: to say so, by `None`, is the caller's duty, since a position does not count its bits.
    #[tactic(auto, using(crate::proofs::Ticks::rules_hold), unfolding(crate::specs::Locks::ticked))]
    pub fn step<R: Rate>(&mut self, window: Option<u128>) -> Event
        ensures state { self.new ≡ next_lock R.layout (tested R.layout window) self.old }
        ensures event { result ≡ lock_event R.layout (tested R.layout window) self.old }
        ensures rules { LockRules R.layout }
    {
        let outcome = self.test::<R>(window);
        self.turn(outcome, period::<R>())
    }
}
