// Records as lines of text, and back.
ghost use Rattle.std.specs.Prelude.{◌≡◌, ◌++◌, ◌*◌, ◌≤◌, OnOk, IfOk, IfSome, IfErr, ◌⊎◌, ◌==◌, List, [], ◌∷◌, MatchOption, MatchResult, Some, None, ℕ, Ok, Err, codes};
ghost use Rattle.std.specs.List.{position, slice_split};
ghost use Rattle.blocks.specs.Walk.{item};
ghost use Rattle.hex.specs.Hex.{decode_sized, encode_lower};
ghost use Rattle.commands.specs.Text.{blank_record, item_line, listed, listing_refusal, line_record, records_of_text, with_kind, Refuses, TextsComeBack, binary, wrong_line};
ghost use Rattle.commands.specs.declared.text.TextError.TheVariants.{Memory};
ghost use Rattle.commands.specs.Streams.{Prints};

use crate::streams::{gave_up, put};
use blocks::{BadHeader, Reader, Record, Refusal};
use std::alloc::{AllocError, Global};
use std::io::{Read, Write};
use std::{error, fmt, io};

// What a line of records has to have.
#[derive(Clone, Copy, PartialEq, Eq, Debug)]
pub enum Expected {
    // One of the five words, or a comment.
    Word,
    // So many hexadecimal digits, and nothing else.
    Digits(usize),
}

// A line, counted from 1, that stands for no record.
#[derive(Clone, Copy, PartialEq, Eq, Debug)]
pub struct WrongLine {
    pub line: usize,
    pub expected: Expected,
}

// The word for a record's kind, with the space behind it, and its body.
fn word_and_body<'a>(read: Record<'a>) -> (&'static [u8], &'a [u8])
    ensures { item_line (item read.entry) ≡ result.0.now ++ (encode_lower result.1.now ++ 10 ∷ []) }
{
    match read {
        Record::Data(body) => (b"data ", body),
        Record::Control(body) => (b"control ", body),
        Record::BadHeader(BadHeader::Zeros, body) => (b"bad00 ", body),
        Record::BadHeader(BadHeader::Ones, body) => (b"bad11 ", body),
        Record::Note(body) => (b"note ", body),
    }
}

// Puts the line of a record behind the text.
fn push_line(alloc: Global, text: &mut Vec<u8>, read: Record<'_>) -> Result<(), AllocError>
    ensures { OnOk result (text.new.items ≡ text.old.items ++ item_line (item read.entry)) }
{
    let (word, body) = word_and_body(read);
    text.extend_from_slice(word)?;
    text.extend_from_slice(hex::encode(alloc, body)?.as_bytes())?;
    text.extend_from_slice(b"\n")
}

// The lines of the records, and why the first that cannot be read is refused, which is the last line.
pub fn text_of_records(
    alloc: Global,
    records: &[u8],
) -> Result<(Vec<u8>, Option<Refusal>), AllocError>
    ensures { IfOk result (λ r. (r.0.items ≡ listed records.now) × (r.1 ≡ listing_refusal records.now)) }
{
    let mut text = Vec::new(alloc);
    let mut reader = Reader::new(records);
    loop {
        match reader.next() {
            Ok(Some((_, record))) => push_line(alloc, &mut text, record)?,
            Ok(None) => return Ok((text, None)),
            Err(refusal) => {
                text.extend_from_slice(format!(in alloc; "{refusal}\n")?.as_bytes())?;
                return Ok((text, Some(refusal)));
            }
        }
    }
}

// What a text of records is refused for.
#[derive(Drop, Debug)]
pub enum TextError {
    Line(WrongLine),
    Memory(AllocError),
    // More lines than can be counted.
    Length,
}

impl From<AllocError> for TextError {
    ghost from_gives = { λ e r. r ≡ Memory e };

    fn from(e: AllocError) -> TextError {
        TextError::Memory(e)
    }
}

fn line_feed(text: &[u8]) -> Option<usize>
    ensures { result ≡ position (λ b. b == 10) text.now }
{
    text.iter().position(|b| *b == b'\n')
}

// The first line, and what stands behind its line feed, if it has one.
fn first_line(text: &[u8]) -> (&[u8], Option<&[u8]>)
    ensures { MatchOption result.1 (slice_split (λ b. b == 10) text.now ≡ result.0.now ∷ []) (λ rest. slice_split (λ b. b == 10) text.now ≡ result.0.now ∷ slice_split (λ b. b == 10) rest.now) }
{
    match line_feed(text) {
        Some(at) => (&text[..at], Some(&text[at + 1..])),
        None => (text, None),
    }
}

// A record's kind, the octets of its body and its digits, where a line begins with the word for a kind.
#[tactic(auto, unfolding(crate::specs::Text::line_record))]
fn word_of(line: &[u8]) -> Option<(u8, usize, &[u8])>
    ensures { MatchOption result (line_record line.now ≡ blank_record line.now) (λ w. (line_record line.now ≡ with_kind w.0 w.1 (decode_sized w.2.now w.1)) × (w.1 ≤ 8)) }
{
    if let Some(digits) = line.strip_prefix(b"data ") {
        Some((2, 8, digits))
    } else if let Some(digits) = line.strip_prefix(b"control ") {
        Some((1, 8, digits))
    } else if let Some(digits) = line.strip_prefix(b"bad00 ") {
        Some((0, 8, digits))
    } else if let Some(digits) = line.strip_prefix(b"bad11 ") {
        Some((3, 8, digits))
    } else {
        line.strip_prefix(b"note ").map(|digits| (16, 3, digits))
    }
}

// Puts the record of a line behind the records: nothing for an empty line and for a comment.
fn push_record(records: &mut Vec<u8>, line: &[u8]) -> Result<Option<Expected>, AllocError>
    ensures { IfOk result (λ wrong. MatchResult (line_record line.now) (λ bytes. (wrong ≡ None) × (records.new.items ≡ records.old.items ++ bytes)) (λ expected. wrong ≡ Some expected)) }
{
    let Some((kind, size, digits)) = word_of(line) else {
        let blank = line.first().is_none_or(|first| *first == b'#');
        return Ok(if blank { None } else { Some(Expected::Word) });
    };
    let mut octets = [0; 8];
    if hex::decode_to_slice(digits, &mut octets[..size]).is_err() {
        return Ok(Some(Expected::Digits(2 * size)));
    }
    records.push(kind)?;
    records.extend_from_slice(&octets[..size])?;
    Ok(None)
}

// The records of a text, a line each: a word for the kind, and the body in hexadecimal, first octet first. Empty lines and
// lines that begin with # say nothing.
#[tactic(auto, using(crate::proofs::Returning::texts_come_back))]
pub fn records_of_text(alloc: Global, text: &[u8]) -> Result<Vec<u8>, TextError>
    ensures records { IfOk result (λ v. records_of_text text.now ≡ Ok v.items) }
    ensures wrong { IfErr result (λ e. Refuses (records_of_text text.now) e) }
    ensures law { TextsComeBack }
{
    let mut records = Vec::new(alloc);
    let mut rest = text;
    for line in 1..usize::MAX {
        let (first, later) = first_line(rest);
        if let Some(expected) = push_record(&mut records, first)? {
            return Err(TextError::Line(WrongLine { line, expected }));
        }
        match later {
            Some(later) => rest = later,
            None => return Ok(records),
        }
    }
    Err(TextError::Length)
}

// Prints the text of the records that are read; answers why they are refused, if they are.
pub fn print_text<R: Read, W: Write>(
    alloc: Global,
    input: &mut R,
    out: &mut W,
) -> io::Result<Option<Refusal>>
    ensures prints { Prints (R.remaining input.old) listed (W.contents out.old) (W.contents out.new) result }
    ensures answer { IfSome (R.remaining input.old) (λ bytes. IfOk result (λ r. r ≡ listing_refusal bytes)) }
{
    let mut records = Vec::new(alloc);
    input.read_to_end(&mut records)?;
    let (text, refusal) = text_of_records(alloc, &records)?;
    put(out, &text)?;
    Ok(refusal)
}

// Writes the records of the text that is read, or nothing where a line is wrong; then it answers that line.
pub fn print_records<R: Read, W: Write>(
    alloc: Global,
    input: &mut R,
    out: &mut W,
) -> io::Result<Option<WrongLine>>
    ensures prints { Prints (R.remaining input.old) binary (W.contents out.old) (W.contents out.new) result }
    ensures answer { IfSome (R.remaining input.old) (λ bytes. IfOk result (λ r. r ≡ wrong_line bytes)) }
{
    let mut text = Vec::new(alloc);
    input.read_to_end(&mut text)?;
    match records_of_text(alloc, &text) {
        Ok(records) => {
            put(out, &records)?;
            Ok(None)
        }
        Err(TextError::Line(wrong)) => Ok(Some(wrong)),
        Err(TextError::Memory(e)) => Err(io::Error::from(e)),
        Err(TextError::Length) => Err(gave_up()),
    }
}

impl fmt::Display for Expected {
    fn fmt<W: fmt::Write>(&self, f: &mut fmt::Formatter<W>) -> fmt::Result {
        match self {
            Expected::Word => write!(
                f,
                "one of data, control, bad00, bad11 and note, each with one space behind it, or a comment"
            ),
            Expected::Digits(count) => {
                write!(
                    f,
                    "{count} hexadecimal digits behind the word, and nothing else"
                )
            }
        }
    }
}

impl fmt::Display for WrongLine {
    fn fmt<W: fmt::Write>(&self, f: &mut fmt::Formatter<W>) -> fmt::Result {
        let WrongLine { line, expected } = *self;
        write!(f, "line {line}: expected {expected}")
    }
}

impl error::Error for WrongLine {}
