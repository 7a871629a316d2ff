// A sender: making it, and sending pairs.
ghost use Rattle.std.specs.Prelude.{◌≡◌, ◌*◌, ◌/◌, ◌^◌, ◌<◌, [], length, None, OnErr};
ghost use Rattle.bits.specs.Bits.{table, nth};
ghost use Rattle.blocks.specs.Calls.{bad_kind};
ghost use Rattle.blocks.specs.Memories.{out_memory};
ghost use Rattle.blocks.specs.Scrambled.{scrambled_bits, scrambler_after};
ghost use Rattle.lanes.specs.Pads.{pad_bit};
ghost use Rattle.pairs.specs.Messages.{message_with, pad_size, opening, group_stream};
ghost use Rattle.sender.specs.HandCases.{HandChecked};
ghost use Rattle.sender.specs.Laws.{Sending};
ghost use Rattle.sender.specs.States.{opens, groups_of, blocks_due, pair_message, opened_state, state_after, records_refused, send_refused, send_answer, blocks_of, sent_strip, sent_state};

use crate::refusal::Refusal;
use blocks::{Scrambler, first_bad_kind, group_of};
use lanes::{Pad, Rate, lane_count, pair_count};
use pairs::{Message, STRIP_BYTES};
use std::marker::PhantomData;

const GROUPS: usize = 40;

const GROUP_BYTES: usize = 36;

const LAST_STATUS: u8 = 7;

// A sender, by what it keeps from pair to pair. `index` counts the pairs of a marker period; pair 0 opens it.
#[derive(Drop)]
pub struct Sender<R> {
    rate: PhantomData<R>,
    scrambler: Scrambler,
    pad: Pad,
    status: u8,
    index: usize,
    ghost brief: { status < 8 },
    ghost small: { index < 2 ^ 31 },
}

// Puts the scrambled groups of the records.
fn put_groups(scrambler: &mut Scrambler, records: &[u8], message: &mut Message)
    requires { bad_kind records.now ≡ None }
    ensures bits { let n = length records.now / 36 in message.new ≡ message_with message.old (scrambled_bits (out_memory scrambler.old) (group_stream (blocks_of n records.now) n)) }
    ensures memory { let n = length records.now / 36 in out_memory scrambler.new ≡ scrambler_after (out_memory scrambler.old) (group_stream (blocks_of n records.now) n) }
{
    for four in records.chunks_exact(GROUP_BYTES) {
        // Never refused: the four blocks have no bad kind.
        let group = group_of(four).unwrap();
        message.push_group(scrambler.scramble(group));
    }
}

impl<R: Rate> Sender<R> {
    ghost use Rattle.sender.specs.View.{state_of, Made, Checks};

    // A sender before its first pair. The starts say which bits went before: bit k - 1 is the one k before the first.
    pub fn new(scramble: u64, pad: u16, status: u8) -> Result<Sender<R>, Refusal>
        ensures made { Made scramble pad status result }
        ensures hand { HandChecked }
    {
        let scrambler = Scrambler::new(scramble)?;
        let pad = Pad::new(pad)?;
        if status > LAST_STATUS {
            return Err(Refusal::Blocks(blocks::Refusal::Start));
        }
        Ok(Sender {
            rate: PhantomData,
            scrambler,
            pad,
            status,
            index: 0,
        })
    }

    // The groups that the next pair takes.
    fn group_count(&self) -> usize
        ensures { result ≡ groups_of R.layout.lanes (state_of self.now) }
    {
        if self.index == 0 {
            GROUPS - lane_count::<R>() / 2
        } else {
            GROUPS
        }
    }

    // The blocks that the next pair takes: 160, or 144 at 8 lanes and 128 at 16 where a marker block opens the pair.
    pub fn block_count(&self) -> usize
        ensures { result ≡ blocks_due R.layout.lanes (state_of self.now) }
    {
        4 * self.group_count()
    }

    // Whether records would be refused.
    fn check(&self, records: &[u8]) -> Result<(), Refusal>
        ensures { Checks (records_refused (groups_of R.layout.lanes (state_of self.now)) records.now) result }
    {
        if records.len() != GROUP_BYTES * self.group_count() {
            return Err(Refusal::Blocks(blocks::Refusal::Length));
        }
        match first_bad_kind(records) {
            Some(index) => Err(Refusal::Blocks(blocks::Refusal::Kind(index))),
            None => Ok(()),
        }
    }

    // Puts what opens the next pair.
    fn open(&mut self, message: &mut Message)
        requires { message.old ≡ [] }
        ensures message { let s = state_of self.old in message.new ≡ opening R.layout (opens s) (table (pad_size R.layout.lanes) (pad_bit (nth s.pad))) s.status }
        ensures state { state_of self.new ≡ opened_state R.layout.lanes (state_of self.old) }
    {
        let opens = self.index == 0;
        if opens {
            message.push_marker_block::<R>(&mut self.pad, self.status);
        }
    }

    // Puts the message of the next pair, and moves on to the pair behind it.
    // Into the caller's message, so that its 10 KB are not moved out as a result.
    fn put_message(&mut self, records: &[u8], message: &mut Message)
        requires empty { message.old ≡ [] }
        requires records { (length records.now ≡ 36 * groups_of R.layout.lanes (state_of self.old)) × (bad_kind records.now ≡ None) }
        ensures message { message.new ≡ pair_message R.layout (state_of self.old) (blocks_of (groups_of R.layout.lanes (state_of self.old)) records.now) }
        ensures state { state_of self.new ≡ state_after R.layout (state_of self.old) (blocks_of (groups_of R.layout.lanes (state_of self.old)) records.now) }
    {
        self.open(message);
        put_groups(&mut self.scrambler, records, message);
        self.index = (self.index + 1) % pair_count::<R>();
    }

    // Sends the blocks of a pair, nine bytes a record, and answers the bytes written. The first 1,360 bytes of the strip get
    // the bits of lane 0, then of lane 1 and so on; the rest stays.
    pub fn send(&mut self, records: &[u8], strip: &mut [u8]) -> Result<usize, Refusal>
        ensures answer { result ≡ send_answer (send_refused (groups_of R.layout.lanes (state_of self.old)) records.now (length strip.old)) }
        ensures strip { strip.new ≡ sent_strip R.layout (state_of self.old) records.now strip.old }
        ensures state { state_of self.new ≡ sent_state R.layout (state_of self.old) records.now (length strip.old) }
        ensures kept { OnErr result (self.new ≡ self.old) }
        ensures laws { Sending R.layout }
    {
        let Some(strip) = strip.first_chunk_mut::<STRIP_BYTES>() else {
            return Err(Refusal::Buffer);
        };
        self.check(records)?;
        let mut message = Message::new();
        self.put_message(records, &mut message);
        message.fill_strip::<R>(strip);
        Ok(STRIP_BYTES)
    }
}
