// The group rules for C.
ghost use Rattle.std.specs.Prelude.{◌≡◌};
ghost use Rattle.blocks.specs.Blocks.{blocks_in};
ghost use Rattle.blocks.specs.Calls.{four_refused, write_refused, written, read_refused, read_records};
ghost use Rattle.blocks.specs.Refusals.{number_of, place_of};
ghost use Rattle.blocks.specs.Sound.{sound};
ghost use Rattle.host.specs.Replies.{group_number, group_place, sound_left};

use super::reply::reply;
use blocks::Refusal;

// The number and the place of a refusal. The words have one too, for their own type: a trait with two impls is longer.
fn crossed(e: Refusal) -> (u32, usize)
    ensures number { result.0 ≡ number_of e }
    ensures place { result.1 ≡ place_of e }
{
    (e.number(), e.place())
}

// C calls each by a name of its own, and hands buffers and place over as pointers.
#[unsafe(no_mangle)]
pub extern "C" fn dartzulia_write_group(records: &[u8], group: &mut [u8], place: &mut usize) -> u32
    ensures number { result ≡ group_number (write_refused records.now group.old) }
    ensures place { place.new ≡ group_place (write_refused records.now group.old) }
    ensures group { group.new ≡ written records.now group.old }
{
    let answer = blocks::write_group(records, group);
    reply(answer.map_err(crossed), &mut (), place)
}

#[unsafe(no_mangle)]
pub extern "C" fn dartzulia_read_group(group: &[u8], records: &mut [u8], place: &mut usize) -> u32
    ensures number { result ≡ group_number (read_refused group.now records.old) }
    ensures place { place.new ≡ group_place (read_refused group.now records.old) }
    ensures records { records.new ≡ read_records group.now records.old }
{
    let answer = blocks::read_group(group, records);
    reply(answer.map_err(crossed), &mut (), place)
}

#[unsafe(no_mangle)]
pub extern "C" fn dartzulia_is_sound(records: &[u8], is_sound: &mut u8, place: &mut usize) -> u32
    ensures number { result ≡ group_number (four_refused records.now) }
    ensures place { place.new ≡ group_place (four_refused records.now) }
    ensures sound { is_sound.new ≡ sound_left (four_refused records.now) (sound (blocks_in 4 records.now)) is_sound.old }
{
    let answer = blocks::is_sound(records);
    // The value before the place: a caller that gives one variable for both is left with the place.
    if let Ok(sound) = answer {
        *is_sound = u8::from(sound);
    }
    reply(answer.map(|_| ()).map_err(crossed), &mut (), place)
}
