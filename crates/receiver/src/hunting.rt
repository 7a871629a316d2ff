// A hunting receiver.
ghost use Rattle.std.specs.Prelude.{◌≡◌, ◌≤◌, IfSome};
ghost use Rattle.receiver.specs.Hunts.{fresh, hunt_after, hunt_answer, hunts_after, hunts_answer, position_ready, lane_ready, skew_ready};
ghost use Rattle.lanes.specs.Rates.{marker_period};
ghost use Rattle.receiver.specs.Laws.{HuntLaws};
ghost use Rattle.receiver.specs.Skews.{ticks_left};

use crate::positions::{lane_of, later, nearest, turn_first};
use crate::refusal::{Refusal, accept};
use crate::ring::Ring;
use crate::skew::skew;
use crate::told::{Told, is_quiet};
use code::Engine;
use lanes::{Lock, Rate, lane_count, period};
use std::marker::{Model, PhantomData};

// `locks` are the positions as they stood when a test was last due. `pending` ticks were accepted since, and the nearest
// test is due `due` ticks after it. So a tick on which none is due is stored, counted and compared.
#[derive(Drop)]
pub struct Hunting<R: Rate, E: Engine> {
    rate: PhantomData<R>,
    engine: E,
    ring: Ring,
    locks: [Lock; 16],
    pending: usize,
    due: usize,
    ticks: u64,
    ready: bool,
}

// Clauses see what it has heard and how its positions stand after the pending ticks; its engine is known by its reach alone.
impl<R: Rate, E: Engine> Model for Hunting<R, E> {
    ghost use Rattle.std.specs.Prelude.{take};
    ghost use Rattle.receiver.specs.Hunts.{Hunt};
    ghost use Rattle.receiver.specs.Pending.{locks_later, Pends};

    ghost Value = { Hunt };

    ghost view = { λ h. record { recent = h.ring; locks = locks_later h.pending (take R.layout.lanes h.locks); ticks = h.ticks; ready = h.ready } };

    ghost invariant = { λ h. Pends R.layout h.pending h.due (take R.layout.lanes h.locks) };
}

impl<R: Rate, E: Engine> Hunting<R, E> {
    // A receiver with this engine. Its hunt starts empty.
    pub fn new(engine: E) -> Hunting<R, E>
        ensures { result ≡ fresh R.layout }
    {
        Hunting {
            rate: PhantomData,
            engine,
            ring: Ring::new(),
            locks: [Lock::Searching; 16],
            pending: 0,
            due: 1,
            ticks: 0,
            ready: false,
        }
    }

    // One bit for each position, bit i for position i. The laws say of any hunt what it has heard, and what a setback or
    // readiness means.
    pub fn tick(&mut self, word: u32) -> Result<Told, Refusal>
        ensures receiver { self.new ≡ hunt_after R.layout self.old word }
        ensures answer { result ≡ hunt_answer R.layout self.old word }
        ensures laws { HuntLaws R.layout }
    {
        let word = accept::<R>(self.ready, word)?;
        self.ring.push(word);
        self.ticks = self.ticks.saturating_add(1);
        if self.pending + 1 < self.due {
            self.pending += 1;
            return Ok(Told::Quiet);
        }
        let (pending, ticks, ring) = (self.pending, self.ticks, &self.ring);
        let told = turn_first::<R>(&mut self.locks, ring, pending, ticks);
        self.pending = 0;
        self.due = nearest(&self.locks[..lane_count::<R>()]);
        self.ready = told.is_ready();
        Ok(told)
    }

    // Ticks one after another, up to the first that tells something or is refused, which is answered.
    pub fn ticks(&mut self, words: &[u32]) -> Result<Told, Refusal>
        ensures receiver { self.new ≡ hunts_after R.layout self.old words.now }
        ensures answer { result ≡ hunts_answer R.layout self.old words.now }
    {
        for word in words {
            let answer = self.tick(*word);
            if !is_quiet(&answer) {
                return answer;
            }
        }
        Ok(Told::Quiet)
    }

    // It was ready on its last accepted tick.
    pub fn is_ready(&self) -> bool
        ensures { result ≡ self.now.ready }
    {
        self.ready
    }

    // The accepted ticks of this hunt, a count that stops at its top.
    pub fn accepted_ticks(&self) -> u64
        ensures { result ≡ self.now.ticks }
    {
        self.ticks
    }

    // How a position stands, with the ticks that pend.
    fn position(&self, index: usize) -> Option<Lock>
        ensures position { result ≡ position_ready self.now index }
        ensures near { IfSome result (λ lock. ticks_left lock ≤ marker_period R.layout) }
    {
        if !self.ready {
            return None;
        }
        if index >= lane_count::<R>() {
            return None;
        }
        Some(later(self.locks[index], self.pending))
    }

    // The lane of a position of a ready receiver; none where it is not ready, and past the positions.
    pub fn lane(&self, position: usize) -> Option<usize>
        ensures { result ≡ lane_ready self.now position }
    {
        self.position(position).map(lane_of)
    }

    // The skew of a position of a ready receiver in ticks, from the position just locked: negative is earlier. None as above.
    pub fn skew(&self, position: usize) -> Option<i64>
        ensures { result ≡ skew_ready (marker_period R.layout) self.now position }
    {
        match self.position(position) {
            Some(lock) => Some(skew(lock, period::<R>())),
            None => None,
        }
    }

    // A fresh hunt, with the same engine.
    pub fn hunt_afresh(self) -> Hunting<R, E>
        ensures { result ≡ fresh R.layout }
    {
        let Hunting { engine, .. } = self;
        Hunting::new(engine)
    }
}
