// The command `groups`: block records, four a group, become lines of text.
ghost use Rattle.std.specs.Prelude.{◌≡◌, OnOk, ◌+◌, ◌≤◌, ◌<◌, ◌^◌, length, string_bytes, ◌++◌, ◌∷◌, [], IfOk, MatchResult, None, ℕ};
ghost use Rattle.blocks.specs.Blocks.{blocks_in};
ghost use Rattle.blocks.specs.Calls.{outcome_of};
ghost use Rattle.blocks.specs.Groups.{group_bits, group_octets};
ghost use Rattle.blocks.specs.Refusals.{place_of, text_of};
ghost use Rattle.blocks.specs.Records.{look, rest_at};
ghost use Rattle.commands.specs.Groups.{Answers, first_refused, no_block, printed};
ghost use Rattle.commands.specs.Lines.{line_of};
ghost use Rattle.commands.specs.Streams.{Prints, Writes};

use crate::line::{LINE, line};
use crate::streams::{fill, gave_up, put};
use blocks::{Reader, Record, Refusal, write_group};
use std::alloc::{AllocError, Global};
use std::io;
use std::io::{Read, Write};

// The bytes of four block records.
const RECORDS: usize = 36;

const GROUP: usize = 33;

// Takes the next record, which is to be a block.
fn expect_block(reader: &mut Reader<'_>) -> Result<(), Refusal>
    ensures answer { result ≡ outcome_of tt (no_block (look reader.old.index (rest_at reader.old.src.now reader.old.index))) }
    ensures source { reader.new.src.now ≡ reader.old.src.now }
    ensures index { OnOk result (reader.new.index ≡ reader.old.index + 1) }
{
    match reader.next()? {
        None => Err(Refusal::Length),
        Some((index, Record::Note(_))) => Err(Refusal::Kind(index)),
        Some(_) => Ok(()),
    }
}

// Whether four blocks stand in front; if not, why the first record that is none is refused.
fn expect_group(records: &[u8]) -> Result<(), Refusal>
    ensures { result ≡ outcome_of tt (first_refused 4 0 records.now) }
{
    let mut reader = Reader::new(records);
    for _ in 0..4u32 {
        expect_block(&mut reader)?;
    }
    Ok(())
}

// The refusal with the place of a kind counted from the first record of the input, of which so many went before.
fn placed(refusal: Refusal, before: usize) -> Refusal
    requires { before + place_of refusal < 2 ^ 64 }
    ensures kind { (i : ℕ) → refusal ≡ Refusal.Kind i → result ≡ Refusal.Kind (before + i) }
    ensures length { refusal ≡ Refusal.Length → result ≡ Refusal.Length }
{
    match refusal {
        Refusal::Kind(index) => Refusal::Kind(before + index),
        Refusal::Length | Refusal::Start => refusal,
    }
}

// Puts down the line of four blocks, of whose input so many records went before. The line is no part of the answer: out of a
// `Result` it was copied in small pieces, and a group took a third longer.
fn group_line(records: &[u8], before: usize, text: &mut [u8; LINE]) -> Result<(), Refusal>
    requires { (length records.now ≤ 36) × (before + 4 < 2 ^ 64) }
    ensures answer { result ≡ outcome_of tt (first_refused 4 before records.now) }
    ensures text { MatchResult result (λ _. text.new ≡ line_of (group_octets (group_bits (blocks_in 4 records.now)))) (λ _. text.new ≡ text.old) }
{
    let mut group = [0; GROUP];
    match write_group(records, &mut group) {
        Ok(()) => {
            *text = line(&group);
            Ok(())
        }
        // Where no group was written, one of the records is no block: only then the walk, which says which, and why.
        Err(_) => Err(placed(expect_group(records).unwrap_err(), before)),
    }
}

// The last line of a refused input.
fn refusal_line(alloc: Global, refusal: Refusal) -> Result<String, AllocError>
    ensures { IfOk result (λ s. string_bytes s ≡ text_of refusal ++ 10 ∷ []) }
{
    format!(in alloc; "{refusal}\n")
}

// So many groups have places that fit a usize.
const MOST_GROUPS: usize = usize::MAX / 4;

// Prints 257, a line for each group of four block records, and where a record is refused a last line with why and where.
// Answers that refusal. An error of reading or writing is handed on: what was printed before it stands.
pub fn print_groups<R: Read, W: Write>(
    alloc: Global,
    input: &mut R,
    out: &mut W,
) -> io::Result<Option<Refusal>>
    ensures prints { Prints (R.remaining input.old) printed (W.contents out.old) (W.contents out.new) result }
    ensures answer { Answers (R.remaining input.old) result }
{
    put(out, b"257\n")?;
    let mut records = [0; RECORDS];
    let mut text = [0; LINE];
    for group in 0..MOST_GROUPS {
        let n = fill(input, &mut records)?;
        if n == 0 {
            return Ok(None);
        }
        match group_line(&records[..n], 4 * group, &mut text) {
            Ok(()) => put(out, &text)?,
            Err(refusal) => {
                put(out, refusal_line(alloc, refusal)?.as_bytes())?;
                return Ok(Some(refusal));
            }
        }
    }
    Err(gave_up())
}
