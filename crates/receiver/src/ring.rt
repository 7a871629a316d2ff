// The last 8,192 tick words of a hunt.
ghost use Rattle.std.specs.Prelude.{◌≡◌};

use std::marker::Model;

const SIZE: usize = 8192;

// The bits of a marker, which a test looks at.
const WINDOW: usize = 120;

// `next` is where the next word goes, and `len` of them are in.
#[derive(Drop)]
pub(crate) struct Ring {
    words: [u16; SIZE],
    next: usize,
    len: usize,
}

// Clauses see the words, newest first.
impl Model for Ring {
    ghost use Rattle.std.specs.Prelude.{ℕ, ◌<◌, ◌≤◌, List, take};
    ghost use Rattle.receiver.specs.Turns.{newest_first};

    ghost Value = { List ℕ };

    ghost view = { λ r. take r.len (newest_first r.words r.next) };

    ghost invariant = { λ r. (r.next < 8192) × (r.len ≤ 8192) };
}

impl Ring {
    ghost use Rattle.std.specs.Prelude.{[], ◌<◌, length, slice_index};
    ghost use Rattle.receiver.specs.Recent.{heard, window, last_bits};

    pub(crate) fn new() -> Ring
        ensures { result ≡ [] }
    {
        Ring {
            words: [0; SIZE],
            next: 0,
            len: 0,
        }
    }

    pub(crate) fn push(&mut self, word: u16)
        ensures { self.new ≡ heard self.old word }
    {
        self.words[self.next] = word;
        self.next = (self.next + 1) % SIZE;
        self.len = (self.len + 1).min(SIZE);
    }

    // The word of `age` ticks ago, the newest at 0.
    fn word(&self, age: usize) -> u16
        requires { age < length self.now }
        ensures { result ≡ slice_index self.now age }
    {
        self.words[(self.next + SIZE - 1 - age) % SIZE]
    }

    fn len(&self) -> usize
        ensures { result ≡ length self.now }
    {
        self.len
    }

    // The window of a position, if there is one yet.
    pub(crate) fn window(&self, position: usize) -> Option<u128>
        ensures { result ≡ window self.now position }
    {
        if self.len() < WINDOW {
            return None;
        }
        let mut bits = 0u128;
        for age in 0..WINDOW {
            bits = bits * 2 + u128::from(bit_of(self.word(age), position));
        }
        Some(bits)
    }
}

ghost use Rattle.bits.specs.Bits.{bit};

// Bit `index` of a word, 0 past it.
fn bit_of(word: u16, index: usize) -> u16
    ensures { result ≡ bit word index }
{
    if index < 16 { word >> index & 1 } else { 0 }
}
