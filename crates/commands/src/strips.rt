// The command `strips`: the block records of an input are sent, a pair after the other.
ghost use Rattle.std.specs.Prelude.{◌≡◌, ◌+◌, ◌*◌, ◌≤◌, ◌<◌, ◌^◌, length, IfOk, IfSome, ◌≢◌, Err};
ghost use Rattle.sender.specs.Refusals.{place_of};
ghost use Rattle.sender.specs.View.{state_of};
ghost use Rattle.commands.specs.Streams.{Prints, Writes};
ghost use Rattle.commands.specs.declared.strips.StripError.TheVariants.{Lanes};
ghost use Rattle.commands.specs.Strips.{EachLane, FillsFront, Tells, lane_of, lane_part, refusal_behind, run_of};

use crate::streams::{fill, gave_up, put};
use lanes::{Rate, lane_count};
use pairs::STRIP_BYTES;
use sender::{Refusal, Sender};
use std::io;
use std::io::{Read, Write};

// The bytes of a block's record.
const RECORD: usize = 9;

// The bytes of a pair's records, at most.
const RECORDS: usize = 1440;

// So many pairs have blocks whose places fit a usize.
const MOST_PAIRS: usize = usize::MAX / 160 - 1;

// What was sent, up to the end of the input or to a refusal, which has the place of a kind counted from the first record of
// the input.
#[derive(Clone, Copy, PartialEq, Eq, Debug)]
pub struct Sent {
    pub pairs: usize,
    pub blocks: usize,
    pub refused: Option<Refusal>,
}

// Why not all could be sent.
#[derive(Drop, Debug)]
pub enum StripError {
    // Reading the blocks.
    Input(io::Error),
    // Writing to the lane of this number.
    Lane(usize, io::Error),
    // Other than a writer for each lane; then nothing is read or written.
    Lanes,
}

// Reads until the front of the buffer is full or the input ends, and answers how many bytes came.
fn read_front<I: Read>(input: &mut I, buf: &mut [u8], size: usize) -> Result<usize, StripError>
    requires { size ≤ length buf.old }
    ensures bound { IfOk result (λ n. n ≤ size) }
    ensures len { length buf.new ≡ length buf.old }
    ensures bytes { FillsFront (I.remaining input.old) (I.remaining input.new) result size buf.new }
{
    match fill(input, &mut buf[..size]) {
        Ok(n) => Ok(n),
        Err(e) => Err(StripError::Input(e)),
    }
}

// Writes each lane's part of a strip to its writer.
fn write_lanes<W: Write>(lanes: &mut [W], strip: &[u8], size: usize) -> Result<(), StripError>
    requires { size * length lanes.old ≤ length strip.now }
    ensures count { length lanes.new ≡ length lanes.old }
    ensures each { EachLane lanes.old lanes.new (λ l v w. Writes (W.contents v) (W.contents w) result (lane_part size strip.now l)) }
{
    for lane in 0..lanes.len() {
        if let Err(e) = put(&mut lanes[lane], &strip[size * lane..size * (lane + 1)]) {
            return Err(StripError::Lane(lane, e));
        }
    }
    Ok(())
}

// The refusal with the place of a kind counted from the first record of the input, of which so many went before.
fn placed(refusal: Refusal, before: usize) -> Refusal
    requires { before + place_of refusal < 2 ^ 64 }
    ensures { result ≡ refusal_behind before refusal }
{
    match refusal {
        Refusal::Blocks(blocks::Refusal::Kind(index)) => {
            Refusal::Blocks(blocks::Refusal::Kind(before + index))
        }
        other => other,
    }
}

// Sends the records of the input, a pair at a time, and writes to each lane its part of the strips.
// Nothing is sent behind a pair that is refused. An error of reading or writing is handed on: what was written before it
// stands.
pub fn send_strips<R: Rate, I: Read, W: Write>(
    sender: &mut Sender<R>,
    input: &mut I,
    lanes: &mut [W],
) -> Result<Sent, StripError>
    ensures count { length lanes.new ≡ length lanes.old }
    ensures number { (length lanes.old ≢ R.layout.lanes) → (result ≡ Err Lanes) × (sender.new ≡ sender.old) × (input.new ≡ input.old) × (lanes.new ≡ lanes.old) }
    ensures lanes { EachLane lanes.old lanes.new (λ l v w. Prints (I.remaining input.old) (lane_of R.layout (state_of sender.old) l) (W.contents v) (W.contents w) result) }
    ensures answer { IfSome (I.remaining input.old) (λ bytes. IfOk result (λ sent. Tells (run_of R.layout (state_of sender.old) bytes) sent (state_of sender.new))) }
{
    if lanes.len() != lane_count::<R>() {
        return Err(StripError::Lanes);
    }
    let part = STRIP_BYTES / lane_count::<R>();
    let mut records = [0; RECORDS];
    let mut strip = [0; STRIP_BYTES];
    let mut blocks = 0;
    for pairs in 0..MOST_PAIRS {
        let count = sender.block_count();
        let n = read_front(input, &mut records, RECORD * count)?;
        if n == 0 {
            return Ok(Sent {
                pairs,
                blocks,
                refused: None,
            });
        }
        if let Err(refusal) = sender.send(&records[..n], &mut strip) {
            return Ok(Sent {
                pairs,
                blocks,
                refused: Some(placed(refusal, blocks)),
            });
        }
        write_lanes(lanes, &strip, part)?;
        blocks += count;
    }
    Err(StripError::Input(gave_up()))
}
