// Symbols of two octets each, the low octet first.
ghost use Rattle.std.specs.Prelude.{◌≡◌, ◌*◌, ◌<◌, length, slice_index};
ghost use Rattle.std.specs.Int.{to_le_bytes};
ghost use mir.Syntax.{w16};
ghost use Rattle.host.specs.Crossing.{symbols_in, symbol_octets};

use std::array;

pub fn load<const N: usize>(octets: &[u8]) -> [u16; N]
    requires { length octets.now ≡ 2 * N }
    ensures { result ≡ symbols_in octets.now }
{
    let (pairs, _) = octets.as_chunks::<2>();
    array::from_fn(|i| u16::from_le_bytes(pairs[i]))
}

pub fn store(symbols: &[u16; 544], octets: &mut [u8])
    requires { length octets.old ≡ 1088 }
    ensures { octets.new ≡ symbol_octets symbols.now }
{
    // By `from_fn`: with `symbols.map(u16::to_le_bytes)` a word took a third longer to encode.
    let pairs: [[u8; 2]; 544] = array::from_fn(
        |i| -> [u8; 2]
            requires { i < 544 }
            ensures { result ≡ to_le_bytes w16 (slice_index symbols.entry.now i) }
        { symbols[i].to_le_bytes() },
    );
    octets.copy_from_slice(pairs.as_flattened());
}
