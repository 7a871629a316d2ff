// Sends pairs at two rates, and searches for a marker tick by tick. It prints what came of it, and with the argument `times`
// the picoseconds that a send and a tick took, best of several rounds.
#![tactic(auto)]

use lanes::{Event, Lock, Rate};
use pairs::STRIP_BYTES;
use rates::{Rate200, Rate400};
use sender::Sender;
use std::env;
use std::time::Instant;

const SENDS: u32 = 1000;

const TICKS: u32 = 10_000_000;

const ROUNDS: u32 = 15;

// Bits that are the same on every run.
#[derive(Drop)]
struct Sequence {
    state: u64,
}

impl Sequence {
    fn next(&mut self) -> u64 {
        self.state ^= self.state << 13;
        self.state ^= self.state >> 7;
        self.state ^= self.state << 17;
        self.state
    }
}

// Sends pairs of data blocks, and sums up the first octet of each strip.
fn send<R: Rate>() -> anyhow::Result<u64> {
    let mut sender = Sender::<R>::new(1, 1, 0)?;
    let mut sequence = Sequence { state: 1 };
    let mut records = [[2; 9]; 160];
    for octet in records.as_flattened_mut() {
        *octet = (sequence.next() % 4) as u8;
    }
    let mut strip = [0; STRIP_BYTES];
    let mut sum = 0u64;
    for _ in 0..SENDS {
        let blocks = sender.block_count().min(160);
        sender.send(records[..blocks].as_flattened(), &mut strip)?;
        sum = sum.wrapping_add(u64::from(strip[0]));
    }
    Ok(sum)
}

// The marker of lane 0 at 200.
fn marker() -> u128 {
    Rate200::marker(0).iter().rev().fold(
        0,
        |bits, octet| bits % (1 << 112) * 256 + u128::from(*octet),
    )
}

// Whether a searching position begins to wait on that window.
fn waits(window: u128) -> bool {
    Lock::Searching.step::<Rate200>(Some(window)) == Event::Waits
}

// Ticks of a searching position whose window is a marker at first, and how often it began to wait.
fn search() -> anyhow::Result<u64> {
    let mut sequence = Sequence { state: 1 };
    let mut window = marker();
    let mut bits = 0;
    let mut count = 0u64;
    for tick in 0..TICKS {
        if waits(window) {
            count = count.saturating_add(1);
        }
        if tick % 64 == 0 {
            bits = sequence.next();
        }
        window = (window >> 1) | (u128::from(bits % 2) << 119);
        bits >>= 1;
    }
    Ok(count)
}

// The same on windows that have a marker's shared octets and its own at random, so that each lane is tried.
fn search_own() -> anyhow::Result<u64> {
    let shared = marker() % (1 << 64);
    let mut sequence = Sequence { state: 1 };
    let mut window = marker();
    let mut count = 0u64;
    for _ in 0..TICKS {
        if waits(window) {
            count = count.saturating_add(1);
        }
        window = shared | (u128::from(sequence.next() >> 8) << 64);
    }
    Ok(count)
}

// Does the work, for which `count` says how many steps it has, and prints its answer or the time of a step.
fn measure<F: Fn() -> anyhow::Result<u64>>(
    rt: &HostRuntime,
    timed: bool,
    what: &str,
    count: u32,
    work: F,
) -> anyhow::Result<()>
    requires { F.IsAlwaysCallable work }
{
    if !timed {
        println!(rt; "{what}: {count} times, answer {}", work()?)?;
        return Ok(());
    }
    let mut least = u128::MAX;
    let mut answer = 0;
    for _ in 0..ROUNDS {
        let start = Instant::now(rt)?;
        answer = work()?;
        least = least.min(start.elapsed(rt)?.as_nanos());
    }
    let each = least.saturating_mul(1000) / u128::from(count.max(1));
    println!(rt; "{what}: {each} ps, answer {answer}")?;
    Ok(())
}

fn main(rt: HostRuntime) -> anyhow::Result<()> {
    let timed = env::args(&rt)?.any(|word| word.as_str() == "times");
    measure(&rt, timed, "send at 200", SENDS, send::<Rate200>)?;
    measure(&rt, timed, "send at 400", SENDS, send::<Rate400>)?;
    measure(&rt, timed, "tick, random bits", TICKS, search)?;
    measure(&rt, timed, "tick, shared octets", TICKS, search_own)
}
