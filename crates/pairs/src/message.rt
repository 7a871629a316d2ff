// The 10,280 bits of a pair's message, and its two codewords.
ghost use Rattle.std.specs.Prelude.{◌≡◌, ℕ, ◌+◌, ◌<◌, ◌≤◌, List, [], ◌++◌, length, take};
ghost use Rattle.bits.specs.Bits.{Binary, field, number, table};
ghost use Rattle.blocks.specs.Groups.{bits_of};
ghost use Rattle.code.specs.Code.{codeword_of};
ghost use Rattle.pairs.specs.Messages.{message_with, word_symbol, word};
ghost use Rattle.pairs.specs.Packing.{AllBinary, AllSmall, IsZeroFrom, Small, every_second, word_of};

use crate::strip::Words;
use blocks::Group;
use code::encode;
use std::array::from_fn;
use std::marker::Model;

// The bits of a pair's message: forty groups.
pub const MESSAGE_BITS: usize = 10280;

// The symbols of a codeword, and of its message.
pub(crate) const WORD_SYMBOLS: usize = 544;

const MESSAGE_SYMBOLS: usize = 514;

const WORD_BITS: usize = 64;

// A message as far as it is written, one bit a byte; bits behind those that are in are zeros.
// An array and a length: `push_bits` fills its place there; an `ArrayVec` takes bit after bit, or a copy of another buffer.
#[derive(Drop)]
pub struct Message {
    bits: [u8; MESSAGE_BITS],
    len: usize,
}

// Clauses see the bits so far.
impl Model for Message {
    ghost Value = { List ℕ };

    ghost view = { λ m. take m.len m.bits };

    ghost invariant = { λ m. (m.len ≤ 10280) × (Binary m.bits × IsZeroFrom m.len m.bits) };
}

// Fills the bits with the lowest of x.
fn put_bits(bits: &mut [u8], x: u64)
    requires { length bits.old ≤ 64 }
    ensures { bits.new ≡ field x 0 (length bits.old) }
{
    for (i, bit) in bits.iter_mut().enumerate() {
        *bit = ((x >> i) % 2) as u8;
    }
}

// The symbol of ten bits, the first lowest.
fn symbol(bits: &[u8; 10]) -> u16
    requires { Binary bits.now }
    ensures { result ≡ number bits.now }
{
    bits.iter()
        .rev()
        .fold(0, |x, bit| (x << 1) | u16::from(*bit))
}

// Every second symbol, from number `first` on.
fn symbols(tens: &[[u8; 10]], first: usize) -> [u16; MESSAGE_SYMBOLS]
    requires { (AllBinary tens.now) × ((length tens.now ≡ 1028) × (first < 2)) }
    ensures { result ≡ table 514 (every_second tens.now first) }
{
    from_fn(|x| symbol(&tens[2 * x + first]))
}

// The codeword of a message of ten-bit symbols.
fn codeword(message: &[u16; MESSAGE_SYMBOLS]) -> [u16; WORD_SYMBOLS]
    requires { Small message.now }
    ensures word { result ≡ codeword_of message.now }
    ensures small { Small result }
{
    let mut word = [0u16; WORD_SYMBOLS];
    encode(message, &mut word).unwrap();
    word
}

impl Message {
    pub fn new() -> Message
        ensures { result ≡ [] }
    {
        Message {
            bits: [0; MESSAGE_BITS],
            len: 0,
        }
    }

    // Puts the lowest n bits of x behind those that are in.
    fn fill(&mut self, x: u64, n: usize)
        requires room { length self.old + n ≤ 10280 }
        requires bits { n ≤ 64 }
        ensures { self.new ≡ message_with self.old (field x 0 n) }
    {
        let end = self.len + n;
        put_bits(&mut self.bits[self.len..end], x);
        self.len = end;
    }

    // Puts the lowest n bits of x behind those that are in, as far as there is room.
    pub(crate) fn push_bits(&mut self, x: u64, n: usize)
        requires { n ≤ 64 }
        ensures { self.new ≡ message_with self.old (field x 0 n) }
    {
        // Each case has a length of its own: with one for both, `min` of the two, a send took a quarter longer.
        if self.len + n <= MESSAGE_BITS {
            self.fill(x, n);
        } else {
            self.fill(x, MESSAGE_BITS - self.len);
        }
    }

    // Puts the 257 bits of a group, as far as there is room.
    pub fn push_group(&mut self, group: Group)
        ensures { self.new ≡ message_with self.old (bits_of group) }
    {
        let Group { first, parts } = group;
        self.push_bits(u64::from(first), 1);
        for part in parts {
            self.push_bits(part, WORD_BITS);
        }
    }

    // The messages of word A and of word B: even symbols go to A, odd ones to B. Bits that are not in are zeros.
    fn symbols(&self) -> [[u16; MESSAGE_SYMBOLS]; 2]
        ensures symbols { (w : ℕ) → w < 2 → word_of result w ≡ table 514 (word_symbol self.now w) }
        ensures small { AllSmall result }
    {
        let (tens, _) = self.bits.as_chunks::<10>();
        [symbols(tens, 0), symbols(tens, 1)]
    }

    // The two codewords.
    pub(crate) fn words(&self) -> Words
        ensures { (word_of result.words 0 ≡ word self.now 0) × (word_of result.words 1 ≡ word self.now 1) }
    {
        let [a, b] = self.symbols();
        Words {
            words: [codeword(&a), codeword(&b)],
        }
    }
}
