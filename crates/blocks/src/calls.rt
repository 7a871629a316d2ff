// Group rules on buffers of bytes.
ghost use Rattle.std.specs.Prelude.{◌≡◌, ◌<◌, length, [], MatchResult, slice_index, slice_index_or};
ghost use Rattle.blocks.specs.Blocks.{blocks_in, block_in, records_of};
ghost use Rattle.blocks.specs.Sound.{sound, GroupsReturn};
ghost use Rattle.blocks.specs.Calls.{outcome_of, four_refused, Grouped, write_refused, written, read_refused, read_records, BuffersReturn};

use crate::block::Block;
use crate::group;
use crate::group::Group;
use crate::octets::put_group;
use crate::refusal::Refusal;

// The block of record `index`.
fn block(records: &[[u8; 9]], index: usize) -> Result<Block, Refusal>
    requires { index < length records.now }
    ensures { let octets = slice_index_or records.now index [] in MatchResult result (λ b. (slice_index octets 0 < 4) × (b ≡ block_in octets)) (λ e. (3 < slice_index octets 0) × (e ≡ Refusal.Kind index)) }
{
    Block::try_from(records[index]).map_err(|_| Refusal::Kind(index))
}

// The four blocks of 36 bytes.
#[tactic(auto, using(crate::proofs::Buffers::wrong_count, crate::proofs::Buffers::four_taken))]
fn four_blocks(records: &[u8]) -> Result<[Block; 4], Refusal>
    ensures { result ≡ outcome_of (blocks_in 4 records.now) (four_refused records.now) }
{
    if records.len() != 36 {
        return Err(Refusal::Length);
    }
    let (records, _) = records.as_chunks::<9>();
    // One by one: `array::try_from_fn` does not say that its error is the first.
    Ok([
        block(records, 0)?,
        block(records, 1)?,
        block(records, 2)?,
        block(records, 3)?,
    ])
}

// The group of four block records of 36 bytes in all.
pub fn group_of(records: &[u8]) -> Result<Group, Refusal>
    ensures { Grouped records.now result }
{
    four_blocks(records).map(Group::of)
}

// Four block records of 36 bytes in all as a group of 33 bytes.
#[tactic(auto, unfolding(crate::specs::Calls::write_refused, crate::specs::Calls::written))]
pub fn write_group(records: &[u8], group: &mut [u8]) -> Result<(), Refusal>
    ensures answer { result ≡ outcome_of tt (write_refused records.now group.old) }
    ensures group { group.new ≡ written records.now group.old }
{
    let octets = group.as_mut_array::<33>().ok_or(Refusal::Length)?;
    put_group(octets, group_of(records)?);
    Ok(())
}

// A group of 33 bytes back as four block records of 36 bytes in all.
#[tactic(auto, using(crate::proofs::Returned::groups_return, crate::proofs::Bytes::buffers_return), unfolding(crate::specs::Calls::read_refused, crate::specs::Calls::read_records))]
pub fn read_group(group: &[u8], records: &mut [u8]) -> Result<(), Refusal>
    ensures answer { result ≡ outcome_of tt (read_refused group.now records.old) }
    ensures records { records.new ≡ read_records group.now records.old }
    ensures law { GroupsReturn }
    ensures bytes { BuffersReturn }
{
    let group = group.as_array::<33>().ok_or(Refusal::Length)?;
    let records = records.as_mut_array::<36>().ok_or(Refusal::Length)?;
    let blocks = Group::from(group).blocks();
    records.copy_from_slice(blocks.map(<[u8; 9]>::from).as_flattened());
    Ok(())
}

// Whether the group of four block records of 36 bytes in all is sound: all headers are good, and the first control block, if
// any, has a listed type. A sound group comes back as it was; some others do too.
pub fn is_sound(records: &[u8]) -> Result<bool, Refusal>
    ensures { result ≡ outcome_of (sound (blocks_in 4 records.now)) (four_refused records.now) }
{
    four_blocks(records).map(group::are_sound)
}
