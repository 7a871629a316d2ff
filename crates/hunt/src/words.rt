// Tick words of bytes.
ghost use Rattle.std.specs.Prelude.{◌≡◌, ◌<◌};
ghost use Rattle.bits.specs.Bits.{table};
ghost use Rattle.hunt.specs.Words.{word_at};

use std::array;

// The tick word of bit t of each position's byte.
fn word_of(bytes: [u8; 16], t: usize) -> u32
    requires { t < 8 }
    ensures { result ≡ word_at bytes t }
{
    let mut word = 0u32;
    for i in 0..16 {
        word = 2 * word + u32::from((bytes[15 - i] >> t) % 2);
    }
    word
}

// The eight tick words of a byte of each position; the lowest bit of a byte comes first.
pub(crate) fn words_of(bytes: [u8; 16]) -> [u32; 8]
    ensures { result ≡ table 8 (word_at bytes) }
{
    array::from_fn(|t| word_of(bytes, t))
}
