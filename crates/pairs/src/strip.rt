// Strips: the two codewords of a pair on the lanes.
ghost use Rattle.std.specs.Prelude.{◌≡◌, ℕ, ◌+◌, ◌*◌, ◌/◌, ◌<◌, length};
ghost use Rattle.bits.specs.Bits.{nth, field};
ghost use Rattle.pairs.specs.Laws.{PairLaws};
ghost use Rattle.pairs.specs.Packing.{four_symbols, Small, AllSmall, symbol_on, quad_on, octets_on, strip_on};
ghost use Rattle.pairs.specs.Places.{row_count};
ghost use Rattle.pairs.specs.Strips.{strip_of};

use crate::message::{Message, WORD_SYMBOLS};
use crate::place::LanePlace;
use lanes::{Rate, lane_count};
use std::array::from_fn;
use std::marker::PhantomData;

// The bytes of a pair on all lanes.
pub const STRIP_BYTES: usize = 1360;

// The octets of four symbols.
const QUAD_BYTES: usize = 5;

// The two codewords of a pair: word A, then word B.
#[derive(Drop)]
pub(crate) struct Words {
    pub(crate) words: [[u16; WORD_SYMBOLS]; 2],
    ghost small: { AllSmall words },
}

// Five octets from four symbols, the first symbol lowest.
fn pack(symbols: [u16; 4]) -> u64
    requires { Small symbols }
    ensures { field result 0 40 ≡ four_symbols (nth symbols 0) (nth symbols 1) (nth symbols 2) (nth symbols 3) }
{
    symbols
        .iter()
        .rev()
        .fold(0, |x, s| (x << 10) | u64::from(*s))
}

// One lane of the two words, by its number.
#[derive(Drop)]
struct Lane<'a, R: Rate> {
    words: &'a Words,
    number: usize,
    rate: PhantomData<R>,
    ghost below: { number < R.layout.lanes },
}

impl<R: Rate> Lane<'_, R> {
    // The symbol in a row.
    fn symbol(&self, row: usize) -> u16
        requires { row < row_count R.layout.lanes }
        ensures value { result ≡ symbol_on R.layout.lanes self.now.words.now.words self.now.number row }
        ensures small { result < 1024 }
    {
        let lane = self.number;
        let place = LanePlace { lane, row }.word_place::<R>();
        self.words.words[place.word][place.index]
    }

    // The forty bits in four rows.
    fn quad(&self, q: usize) -> u64
        requires { 4 * q + 3 < row_count R.layout.lanes }
        ensures { field result 0 40 ≡ quad_on R.layout.lanes self.now.words.now.words self.now.number q }
    {
        pack(from_fn(|i| self.symbol(4 * q + i)))
    }

    // The lane's part of the strip.
    fn fill(&self, part: &mut [u8])
        requires { length part.old ≡ 1360 / R.layout.lanes }
        ensures { part.new ≡ octets_on R.layout.lanes self.now.words.now.words self.now.number }
    {
        // By index: once the chunks of `chunks_exact_mut` are given back, a proof knows only the length of the whole.
        for q in 0..part.len() / QUAD_BYTES {
            let octets = self.quad(q).to_le_bytes();
            part[QUAD_BYTES * q..QUAD_BYTES * q + QUAD_BYTES].copy_from_slice(
                &octets[..QUAD_BYTES],
            );
        }
    }
}

impl Words {
    // Fills the strip: lane 0's part, then lane 1's.
    fn fill<R: Rate>(&self, strip: &mut [u8; STRIP_BYTES])
        ensures { strip.new ≡ strip_on R.layout.lanes self.now.words R.layout.lanes }
    {
        let size = STRIP_BYTES / lane_count::<R>();
        // By index: once the chunks of `chunks_exact_mut` are given back, a proof knows only the length of the whole.
        for number in 0..lane_count::<R>() {
            let lane = Lane {
                words: self,
                number,
                rate: PhantomData::<R>,
            };
            lane.fill(&mut strip[number * size..number * size + size]);
        }
    }
}

impl Message {
    // Fills the strip with the bits of lane 0, then of lane 1 and so on: the message's two codewords, row by row.
    pub fn fill_strip<R: Rate>(&self, strip: &mut [u8; STRIP_BYTES])
        ensures strip { strip.new ≡ strip_of R.layout.lanes self.now }
        ensures laws { PairLaws R.layout }
    {
        self.words().fill::<R>(strip);
    }
}
