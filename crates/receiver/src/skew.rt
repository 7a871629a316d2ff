// Skew: how far the markers of the positions lie from that of the position just locked.
ghost use Rattle.std.specs.Prelude.{◌≡◌, ◌^◌, ◌<◌, ◌≤◌, length, pos, neg_ℤ, ◌≤ℤ◌};
ghost use Rattle.receiver.specs.Positions.{lock_at};
ghost use Rattle.receiver.specs.Skews.{ticks_left, skew, too_wide};

use lanes::Lock;

// The most that the largest skew may be above the smallest, in bits.
const MOST_APART: i64 = 4781;

// The ticks to a position's next test.
pub(crate) fn ticks_left(lock: Lock) -> usize
    ensures { result ≡ ticks_left lock }
{
    match lock {
        Lock::Searching => 0,
        Lock::Waiting { left, .. } => left,
        Lock::Locked { left, .. } => left,
    }
}

// The skew of a position in ticks; negative is earlier.
pub(crate) fn skew(lock: Lock, period: usize) -> i64
    requires near { ticks_left lock ≤ period }
    requires small { period ≤ 2 ^ 31 }
    ensures value { result ≡ skew period lock }
    ensures low { neg_ℤ (pos (2 ^ 31)) ≤ℤ result }
    ensures high { result ≤ℤ pos (2 ^ 31) }
{
    let left = ticks_left(lock);
    if 2 * left > period {
        left as i64 - period as i64
    } else {
        left as i64
    }
}

// The skews of positions that are all locked lie too far apart.
pub(crate) fn too_wide(positions: &[Lock], period: usize) -> bool
    requires near { (i : _) → i < length positions.now → ticks_left (lock_at positions.now i) ≤ period }
    requires small { period ≤ 2 ^ 31 }
    ensures { result ≡ too_wide period positions.now }
{
    let mut largest = 0i64;
    let mut smallest = 0i64;
    for lock in positions {
        let skew = skew(*lock, period);
        largest = largest.max(skew);
        smallest = smallest.min(skew);
    }
    largest - smallest > MOST_APART
}
