// The positions of a receiver on a tick.
ghost use Rattle.std.specs.Prelude.{◌≡◌, ◌<◌, ◌≤◌, length, take, IfOk};
ghost use Rattle.std.specs.List.{list_all};
ghost use Rattle.lanes.specs.Locks.{next_lock, lock_event};
ghost use Rattle.lanes.specs.Rates.{marker_period};
ghost use Rattle.receiver.specs.Hunts.{last_lock, judged, told, settled};
ghost use Rattle.receiver.specs.Pending.{lock_later, locks_later, ticks_to_test};
ghost use Rattle.receiver.specs.Positions.{lock_at, passes_at, locks_after, event_at, failed_five, just_locked, is_locked, is_lock, lane_of, is_twin, shares_lane, lane_shared};
ghost use Rattle.receiver.specs.Skews.{ticks_left};
ghost use Rattle.receiver.specs.Steps.{first_of, Advances};

use crate::fault::{Cause, Fault, Misaligned};
use crate::ring::Ring;
use crate::skew::{ticks_left, too_wide};
use crate::told::Told;
use lanes::{Event, Lock, Rate, lane_count, period};

// A position some ticks later, none of which tests it.
pub(crate) fn later(lock: Lock, ticks: usize) -> Lock
    ensures { result ≡ lock_later ticks lock }
{
    match lock {
        Lock::Searching => Lock::Searching,
        Lock::Waiting { lane, left } => Lock::Waiting {
            lane,
            left: left.saturating_sub(ticks),
        },
        Lock::Locked {
            lane,
            left,
            failures,
        } => Lock::Locked {
            lane,
            left: left.saturating_sub(ticks),
            failures,
        },
    }
}

// The ticks to the nearest test of a position, at least one.
pub(crate) fn nearest(positions: &[Lock]) -> usize
    ensures some { 0 < result }
    ensures tests { (i : _) → i < length positions.now → result ≤ ticks_to_test (lock_at positions.now i) }
{
    let mut ticks = usize::MAX;
    for lock in positions {
        ticks = ticks.min(ticks_left(*lock).max(1));
    }
    ticks
}

// Moves a position by its window, which is read where it is looked at.
fn advance<R: Rate>(lock: &mut Lock, ring: &Ring, position: usize) -> Event
    ensures state { lock.new ≡ next_lock R.layout (passes_at R.layout ring.now position) lock.old }
    ensures event { result ≡ lock_event R.layout (passes_at R.layout ring.now position) lock.old }
{
    if ticks_left(*lock) > 1 {
        return lock.step::<R>(None);
    }
    lock.step::<R>(ring.window(position))
}

// The first of what was found, and what is found here.
fn first(found: Option<usize>, here: bool, position: usize) -> Option<usize>
    ensures { result ≡ first_of found here position }
{
    match found {
        Some(lower) => Some(lower),
        None => if here { Some(position) } else { None },
    }
}

fn locks(event: Event) -> bool
    ensures { result ≡ is_lock event }
{
    event == Event::Locks
}

// Moves the positions by a tick, with those that pend; the lowest that locks.
fn advance_all<R: Rate>(
    positions: &mut [Lock],
    ring: &Ring,
    pending: usize,
    ticks: u64,
) -> Result<Option<usize>, lanes::Fault>
    ensures { Advances R.layout ring.now (locks_later pending positions.old) ticks positions.new result }
{
    let mut just = None;
    for i in 0..positions.len() {
        let mut lock = later(positions[i], pending);
        let event = advance::<R>(&mut lock, ring, i);
        positions[i] = lock;
        let event = event.or_fault(i, ticks)?;
        just = first(just, locks(event), i);
    }
    Ok(just)
}

fn is_locked(lock: Lock) -> bool
    ensures { result ≡ is_locked lock }
{
    match lock {
        Lock::Locked { .. } => true,
        _ => false,
    }
}

// The lane of a position, 0 where it has none.
pub(crate) fn lane_of(lock: Lock) -> usize
    ensures { result ≡ lane_of lock }
{
    match lock {
        Lock::Searching => 0,
        Lock::Waiting { lane, .. } => lane,
        Lock::Locked { lane, .. } => lane,
    }
}

fn all_locked(positions: &[Lock]) -> bool
    ensures { result ≡ list_all is_locked positions.now }
{
    for lock in positions {
        if !is_locked(*lock) {
            return false;
        }
    }
    true
}

// The first of two positions is not the second, and has its lane.
fn is_twin(positions: &[Lock], i: usize, position: usize) -> bool
    requires { (i < length positions.now) × (position < length positions.now) }
    ensures { result ≡ is_twin positions.now i position }
{
    i != position && lane_of(positions[i]) == lane_of(positions[position])
}

// Another position has this one's lane.
fn shares_lane(positions: &[Lock], position: usize) -> bool
    requires { position < length positions.now }
    ensures { result ≡ shares_lane positions.now position }
{
    for i in 0..positions.len() {
        if is_twin(positions, i, position) {
            return true;
        }
    }
    false
}

// The lowest position that shares its lane.
fn lane_shared(positions: &[Lock]) -> Option<usize>
    ensures { result ≡ lane_shared positions.now }
{
    for i in 0..positions.len() {
        if shares_lane(positions, i) {
            return Some(i);
        }
    }
    None
}

// What is told where a position has just locked.
fn judge_lock<R: Rate>(
    positions: &[Lock],
    just: Option<usize>,
    ticks: u64,
) -> Result<Told, Misaligned>
    requires near { (i : _) → i < length positions.now → ticks_left (lock_at positions.now i) ≤ marker_period R.layout }
    ensures { result ≡ last_lock (marker_period R.layout) positions.now ticks just }
{
    let Some(just) = just else {
        return Ok(Told::Quiet);
    };
    if !all_locked(positions) {
        return Ok(Told::Quiet);
    }
    if let Some(position) = lane_shared(positions) {
        return Err(Misaligned {
            cause: Cause::LaneTwice,
            position,
            ticks,
        });
    }
    if too_wide(positions, period::<R>()) {
        return Err(Misaligned {
            cause: Cause::Skew,
            position: just,
            ticks,
        });
    }
    Ok(Told::Ready)
}

// A tick on which a test is due: its word is the newest of the ring, and `pending` ticks before it have tested none.
fn judge<R: Rate>(
    positions: &mut [Lock],
    ring: &Ring,
    pending: usize,
    ticks: u64,
) -> Result<Told, Fault>
    requires near { (i : _) → i < length positions.old → ticks_left (lock_at positions.old i) ≤ marker_period R.layout }
    ensures told { result ≡ judged R.layout ring.now (locks_later pending positions.old) ticks }
    ensures positions { IfOk result (λ _. positions.new ≡ locks_after R.layout ring.now (locks_later pending positions.old)) }
    ensures count { length positions.new ≡ length positions.old }
{
    let just = advance_all::<R>(positions, ring, pending, ticks)?;
    Ok(judge_lock::<R>(positions, just, ticks)?)
}

// The same, and a setback sends all positions searching.
fn turn<R: Rate>(positions: &mut [Lock], ring: &Ring, pending: usize, ticks: u64) -> Told
    requires near { (i : _) → i < length positions.old → ticks_left (lock_at positions.old i) ≤ marker_period R.layout }
    ensures told { result ≡ told (judged R.layout ring.now (locks_later pending positions.old) ticks) }
    ensures positions { positions.new ≡ settled (judged R.layout ring.now (locks_later pending positions.old) ticks) (locks_after R.layout ring.now (locks_later pending positions.old)) }
{
    match judge::<R>(positions, ring, pending, ticks) {
        Ok(told) => told,
        Err(fault) => {
            positions.fill(Lock::Searching);
            Told::Setback(fault)
        }
    }
}

// The same of an array, whose first elements are the positions.
pub(crate) fn turn_first<R: Rate>(
    locks: &mut [Lock; 16],
    ring: &Ring,
    pending: usize,
    ticks: u64,
) -> Told
    requires near { (i : _) → i < length (take R.layout.lanes locks.old) → ticks_left (lock_at (take R.layout.lanes locks.old) i) ≤ marker_period R.layout }
    ensures told { result ≡ told (judged R.layout ring.now (locks_later pending (take R.layout.lanes locks.old)) ticks) }
    ensures positions { take R.layout.lanes locks.new ≡ settled (judged R.layout ring.now (locks_later pending (take R.layout.lanes locks.old)) ticks) (locks_after R.layout ring.now (locks_later pending (take R.layout.lanes locks.old))) }
{
    let positions = &mut locks[..lane_count::<R>()];
    turn::<R>(positions, ring, pending, ticks)
}
