// Scrambling groups, and reading them back. The stream never restarts: the memory goes on from group to group.
ghost use Rattle.std.specs.Prelude.{◌≡◌, ◌%◌, ℕ, [], ◌∷◌};
ghost use Rattle.bits.specs.Bits.{field};
ghost use Rattle.blocks.specs.Groups.{one_if, bits_of};
ghost use Rattle.blocks.specs.Memories.{memory_of, out_memory, in_memory, Started};
ghost use Rattle.blocks.specs.Scrambled.{memory_in, stream_bits, stream_after, what_came_in, what_went_out, scrambled_bits, scrambler_after, descrambled_bits, descrambler_after, Scrambling};
ghost use Rattle.blocks.specs.Taps.{tail, taps};

use crate::group::Group;
use crate::refusal::Refusal;
use std::marker::{Model, PhantomData};

// The last 58 bits of a scrambled stream, the newest highest. Nothing here is `Copy` or `Clone`: a copy would restart the
// stream in silence.
#[derive(Drop, Debug)]
pub struct Memory {
    bits: u64,
}

impl Model for Memory {
    ghost use Rattle.std.specs.Prelude.{ℕ, ◌^◌, ◌<◌};

    ghost Value = { ℕ };

    ghost view = { λ m. m.bits };

    ghost invariant = { λ m. m.bits < 2 ^ 58 };

    ghost inverse = { λ n. record { bits = n } };
}

// A stream in direction D: its memory has what went out, or what was received.
#[derive(Drop, Debug)]
pub struct Stream<D> {
    memory: Memory,
    direction: PhantomData<D>,
}

// Bits are scrambled and go out.
#[derive(Drop, Debug)]
pub struct Sent;

// Scrambled bits are received and read back.
#[derive(Drop, Debug)]
pub struct Received;

pub type Scrambler = Stream<Sent>;

pub type Descrambler = Stream<Received>;

const START_LIMIT: u64 = 1 << 58;

// A start value as a memory: its lowest bit is the newest.
impl TryFrom<u64> for Memory {
    type Error = Refusal;

    ghost try_from_gives = { Started memory_in };

    fn try_from(start: u64) -> Result<Memory, Refusal> {
        if start >= START_LIMIT {
            return Err(Refusal::Start);
        }
        Ok(Memory {
            bits: start.reverse_bits() >> 6,
        })
    }
}

// What the memory adds to the next bits: to bit i the bits 58 and 39 before it.
fn tail(memory: u64) -> u64
    ensures { result ≡ tail memory }
{
    memory ^ (memory >> 19)
}

// What the bits of a word add to later bits of the same word.
fn taps(x: u64) -> u64
    ensures { result ≡ taps x }
{
    x ^ (x << 39) ^ (x << 58)
}

fn is_odd(x: u64) -> bool
    ensures { one_if result ≡ x % 2 }
{
    x % 2 == 1
}

// A direction of the stream: what the next bits give, and which of them are remembered.
pub trait Direction {
    // The bit to remember, by the one that came in and the one that it gave.
    ghost kept: { ℕ → ℕ → ℕ };

    fn bit(memory: &mut Memory, x: bool) -> bool
        ensures gives { one_if result ∷ [] ≡ stream_bits kept (memory_in memory.old) (one_if x ∷ []) }
        ensures leaves { memory_in memory.new ≡ stream_after kept (memory_in memory.old) (one_if x ∷ []) };

    fn word(memory: &mut Memory, x: u64) -> u64
        ensures gives { field result 0 64 ≡ stream_bits kept (memory_in memory.old) (field x 0 64) }
        ensures leaves { memory_in memory.new ≡ stream_after kept (memory_in memory.old) (field x 0 64) };
}

impl Direction for Sent {
    ghost kept = { what_went_out };

    fn bit(memory: &mut Memory, x: bool) -> bool {
        let bits = memory.bits;
        let y = (u64::from(x) ^ tail(bits)) % 2;
        memory.bits = bits / 2 + (y << 57);
        is_odd(y)
    }

    fn word(memory: &mut Memory, x: u64) -> u64 {
        let y = taps(x ^ tail(memory.bits));
        memory.bits = y >> 6;
        y
    }
}

impl Direction for Received {
    ghost kept = { what_came_in };

    fn bit(memory: &mut Memory, y: bool) -> bool {
        let bits = memory.bits;
        let received = u64::from(y);
        memory.bits = bits / 2 + (received << 57);
        is_odd(received ^ tail(bits))
    }

    fn word(memory: &mut Memory, y: u64) -> u64 {
        let x = taps(y) ^ tail(memory.bits);
        memory.bits = y >> 6;
        x
    }
}

// The 257 bits of a group, one after another.
fn pass<D: Direction>(memory: &mut Memory, group: Group) -> Group
    ensures gives { bits_of result ≡ stream_bits D.kept (memory_in memory.old) (bits_of group) }
    ensures leaves { memory_in memory.new ≡ stream_after D.kept (memory_in memory.old) (bits_of group) }
{
    let first = D::bit(memory, group.first);
    let mut parts = group.parts;
    for x in parts.iter_mut() {
        *x = D::word(memory, *x);
    }
    Group { first, parts }
}

impl<D> Stream<D> {
    pub fn new(start: u64) -> Result<Stream<D>, Refusal>
        ensures { Started memory_of start result }
    {
        Ok(Stream {
            memory: Memory::try_from(start)?,
            direction: PhantomData,
        })
    }
}

// Each direction has its own verb: one name for both would not say which contract it has.
impl Stream<Sent> {
    // The 257 bits of a group as they go out.
    #[tactic(auto, using(crate::proofs::Scrambles::scrambling))]
    pub fn scramble(&mut self, group: Group) -> Group
        ensures out { bits_of result ≡ scrambled_bits (out_memory self.old) (bits_of group) }
        ensures after { out_memory self.new ≡ scrambler_after (out_memory self.old) (bits_of group) }
        ensures law { Scrambling }
    {
        pass::<Sent>(&mut self.memory, group)
    }
}

impl Stream<Received> {
    // The 257 bits of a group as they were before scrambling.
    #[tactic(auto, using(crate::proofs::Scrambles::scrambling))]
    pub fn descramble(&mut self, group: Group) -> Group
        ensures back { bits_of result ≡ descrambled_bits (in_memory self.old) (bits_of group) }
        ensures after { in_memory self.new ≡ descrambler_after (in_memory self.old) (bits_of group) }
        ensures law { Scrambling }
    {
        pass::<Received>(&mut self.memory, group)
    }
}
