// Octets: blocks and groups in buffers, and back.
ghost use Rattle.std.specs.Prelude.{◌≡◌, ◌+◌, ◌≤◌, ◌++◌, length, take, drop, nat_lt};
ghost use Rattle.bits.specs.Bits.{field, octets};
ghost use Rattle.blocks.specs.Blocks.{record_of, DecodesRecord};
ghost use Rattle.blocks.specs.Groups.{bits_of, group_bits_in, group_octets};
ghost use Rattle.blocks.specs.Calls.{bad_kind};

use crate::block::{Block, Header, UnknownKind};
use crate::group::Group;
use std::array;

// A block record: a kind, then the payload's octets.
impl TryFrom<[u8; 9]> for Block {
    type Error = UnknownKind;

    ghost try_from_gives = { DecodesRecord };

    fn try_from(record: [u8; 9]) -> Result<Block, UnknownKind> {
        let header = Header::try_from(record[0])?;
        let payload = record[1..].try_into().unwrap();
        Ok(Block {
            header,
            payload: u64::from_le_bytes(payload),
        })
    }
}

impl From<Block> for [u8; 9] {
    ghost from_gives = { λ block octets. octets ≡ record_of block };

    fn from(block: Block) -> [u8; 9] {
        let mut record = [0; 9];
        record[0] = u8::from(block.header);
        record[1..].copy_from_slice(&block.payload.to_le_bytes());
        record
    }
}

// A group's octets: bit 0 in a byte of its own, then 32 octets.
impl From<&[u8; 33]> for Group {
    ghost from_gives = { λ octets group. bits_of group ≡ group_bits_in octets.now };

    fn from(octets: &[u8; 33]) -> Group {
        let (parts, _) = octets[1..].as_chunks::<8>();
        Group {
            first: octets[0] % 2 == 1,
            parts: array::from_fn(|i| u64::from_le_bytes(parts[i])),
        }
    }
}

// Puts the octets of a part from `at` on.
// A group is written where it is to stand: made elsewhere and copied, it took up to half as long again.
fn store(out: &mut [u8], at: usize, part: u64)
    requires { at + 8 ≤ length out.old }
    ensures { out.new ≡ take at out.old ++ (octets 8 (field part 0 64) ++ drop (at + 8) out.old) }
{
    out[at..at + 8].copy_from_slice(&part.to_le_bytes());
}

// Puts a group into its 33 bytes.
pub(crate) fn put_group(out: &mut [u8], group: Group)
    requires { length out.old ≡ 33 }
    ensures { out.new ≡ group_octets (bits_of group) }
{
    let [a, b, c, d] = group.parts;
    out[0] = u8::from(group.first);
    store(out, 1, a);
    store(out, 9, b);
    store(out, 17, c);
    store(out, 25, d);
}

impl From<Group> for [u8; 33] {
    ghost from_gives = { λ group octets. octets ≡ group_octets (bits_of group) };

    fn from(group: Group) -> [u8; 33] {
        let mut octets = [0; 33];
        put_group(&mut octets, group);
        octets
    }
}

fn is_unknown(kind: &u8) -> bool
    ensures { result ≡ nat_lt 3 kind.now }
{
    Header::try_from(*kind).is_err()
}

// The index of the first record whose kind is above 3. The last record may be cut short.
pub fn first_bad_kind(records: &[u8]) -> Option<usize>
    ensures { result ≡ bad_kind records.now }
{
    // By index: `step_by` goes over each byte between two kinds, and took 1.6 times as long.
    for i in 0..records.len().div_ceil(9) {
        if is_unknown(&records[9 * i]) {
            return Some(i);
        }
    }
    None
}
