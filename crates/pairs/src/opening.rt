// The marker block that opens a marker period.
ghost use Rattle.std.specs.Prelude.{◌≡◌, ℕ, ◌*◌, ◌<◌, ◌≤◌, ◌++◌, length};
ghost use Rattle.bits.specs.Bits.{table, nth};
ghost use Rattle.lanes.specs.Pads.{pad_before, pad_bit, pad_memory};
ghost use Rattle.pairs.specs.Messages.{message_with, marker_lane, symbol_bits, marker_block_symbol, marker_block, pad_size};

use crate::message::Message;
use lanes::{Pad, Rate, lane_count, marker_symbol};

// The rows of marker symbols.
const ROWS: usize = 12;

const SYMBOL_BITS: usize = 10;

const STATUS_BITS: usize = 3;

const GROUP_BITS: usize = 257;

// The lane whose marker symbol stands at this column of a row: in odd rows lanes 2j and 2j + 1 are exchanged.
fn marker_lane(row: usize, column: usize) -> usize
    requires { column < 16 }
    ensures { result ≡ marker_lane row column }
{
    if row % 2 == 0 {
        column
    } else if column % 2 == 0 {
        column + 1
    } else {
        column - 1
    }
}

// The pad bits of a marker block, which takes the room of half as many groups as there are lanes.
fn pad_size<R: Rate>() -> usize
    ensures { result ≡ pad_size R.layout.lanes }
{
    let lanes = lane_count::<R>();
    GROUP_BITS * (lanes / 2) - ROWS * SYMBOL_BITS * lanes - STATUS_BITS
}

impl Message {
    // Puts the marker symbols of all rows.
    fn push_markers<R: Rate>(&mut self)
        ensures { self.new ≡ message_with self.old (symbol_bits (12 * R.layout.lanes) (marker_block_symbol R.layout)) }
    {
        for row in 0..ROWS {
            for column in 0..lane_count::<R>() {
                let symbol = marker_symbol::<R>(marker_lane(row, column), row);
                self.push_bits(u64::from(symbol), SYMBOL_BITS);
            }
        }
    }

    // Puts n pad bits.
    fn push_pad(&mut self, pad: &mut Pad, n: usize)
        ensures bits { self.new ≡ message_with self.old (table n (pad_bit (nth (pad_memory pad.old)))) }
        ensures memory { pad_memory pad.new ≡ table 9 (pad_before (nth (pad_memory pad.old)) n) }
    {
        for _ in 0..n {
            let bit = pad.next();
            self.push_bits(u64::from(bit), 1);
        }
    }

    // Puts a marker block: the markers of all lanes, pad bits, and the lowest three bits of the status.
    pub fn push_marker_block<R: Rate>(&mut self, pad: &mut Pad, status: u8)
        ensures bits { self.new ≡ message_with self.old (marker_block R.layout (table (pad_size R.layout.lanes) (pad_bit (nth (pad_memory pad.old)))) status) }
        ensures memory { pad_memory pad.new ≡ table 9 (pad_before (nth (pad_memory pad.old)) (pad_size R.layout.lanes)) }
    {
        self.push_markers::<R>();
        self.push_pad(pad, pad_size::<R>());
        self.push_bits(u64::from(status), STATUS_BITS);
    }
}
