// The command `example_words`: rows of the standard's example words beside the pair that a sender sends.
ghost use Rattle.std.specs.Prelude.{◌≡◌, ◌==◌, ◌++◌, ◌<◌, ◌*◌, ◌+◌, length, IfOk, IfSome, string_bytes};
ghost use Rattle.bits.specs.Bits.{bit};
ghost use Rattle.commands.specs.Lines.{digit};
ghost use Rattle.commands.specs.Words.{after_damaged, after_whole, bit_in_row, digit_count, digit_in_row, Reports, Tried, all_equal, last_line, name_of, report_text, table_line, told, digits_of, four_bits, is_row, message_bit, row_count, word_bit, word_of};

use crate::streams::put;
use lanes::Rate;
use pairs::STRIP_BYTES;
use rates::{Rate200, Rate400};
use sender::{Refusal, Sender};
use std::alloc::{AllocError, Global};
use std::io::{Read, Write};
use std::{error, fmt, io};

// The starts and the status by which the printed words were made.
const SCRAMBLE: u64 = 0x2f6e97c2e6a59c9;

const PAD: u16 = 0x111;

const STATUS: u8 = 0;

// A control block of type 1E and seven zero octets.
const IDLE: [u8; 9] = [1, 0x1E, 0, 0, 0, 0, 0, 0, 0];

const WORD_SYMBOLS: usize = 544;

// Words A and B.
#[derive(Clone, Copy)]
struct Pair {
    words: [[u16; WORD_SYMBOLS]; 2],
}

// What rows are of.
#[derive(Clone, Copy)]
enum Printed {
    Message,
    A,
    B,
}

// The rows of a table that were told.
#[derive(Clone, Copy)]
struct Tally {
    tried: u64,
    equal: u64,
    damaged: u64,
}

// The symbol of a row in a lane's part of the strip: ten bits, the lowest bit of each byte first.
fn symbol(part: &[u8], row: usize) -> u16 {
    let bit = |i: usize| part.get(i / 8).map_or(0, |byte| (byte >> (i % 8)) % 2);
    (0..10).rev().fold(
        0,
        |symbol, i| symbol % 512 * 2 + u16::from(bit(row % 136 * 10 + i)),
    )
}

// The digit of four bits, of which the first is the highest.
fn digit(bits: [u16; 4]) -> u8
    ensures { result ≡ digit (four_bits bits) }
{
    let [a, b, c, d] = bits;
    let value = 8 * (a % 2) + 4 * (b % 2) + 2 * (c % 2) + d % 2;
    if value < 10 {
        b'0' + value as u8
    } else {
        b'a' + (value - 10) as u8
    }
}

impl Printed {
    fn row_count(self) -> usize
        ensures { result ≡ row_count self }
    {
        match self {
            Printed::Message => 40,
            Printed::A | Printed::B => 17,
        }
    }

    fn digit_count(self) -> usize
        ensures { result ≡ digit_count self }
    {
        match self {
            Printed::Message => 65,
            Printed::A | Printed::B => 80,
        }
    }
}

impl Pair {
    // The first pair at a rate, all its blocks idle, read off the lanes.
    fn sent<R: Rate>() -> Result<Pair, Refusal> {
        let mut sender = Sender::<R>::new(SCRAMBLE, PAD, STATUS)?;
        let records = [IDLE; 144];
        let blocks = sender.block_count().min(144);
        let mut strip = [0; STRIP_BYTES];
        sender.send(records[..blocks].as_flattened(), &mut strip)?;
        let mut words = [[0; WORD_SYMBOLS]; 2];
        for (lane, part) in strip.chunks_exact(STRIP_BYTES / R::LANES).enumerate() {
            for row in 0..2 * WORD_SYMBOLS / R::LANES {
                let word = &mut words[(lane ^ row) % 2];
                if let Some(place) = word.get_mut(R::LANES / 2 * row + lane / 2) {
                    *place = symbol(part, row);
                }
            }
        }
        Ok(Pair { words })
    }

    // Bit i of the message: even symbols are in word A, odd ones in B, and the lowest bit of a symbol comes first.
    fn message_bit(&self, i: usize) -> u16
        requires { i < 10880 }
        ensures { result ≡ message_bit self.now.words i }
    {
        (self.words[i / 10 % 2][i / 20] >> (i % 10)) % 2
    }

    // Bit i of a word, the highest bit of a symbol first.
    fn word_bit(&self, word: usize, i: usize) -> u16
        requires { (word < 2) × (i < 5440) }
        ensures { result ≡ word_bit (word_of self.now.words word) i }
    {
        (self.words[word][i / 10] >> (9 - i % 10)) % 2
    }

    // A bit of a row: 257 bits of the message behind three zeros, or 32 symbols of a word.
    fn bit_in_row(&self, printed: Printed, row: usize, p: usize) -> u16
        requires { (row < row_count printed) × (p < 4 * digit_count printed) }
        ensures { result ≡ bit_in_row printed self.now.words row p }
    {
        match printed {
            Printed::Message => {
                if p < 3 {
                    0
                } else {
                    self.message_bit(257 * row + (p - 3))
                }
            }
            Printed::A => self.word_bit(0, 320 * row + p),
            Printed::B => self.word_bit(1, 320 * row + p),
        }
    }

    fn digit_in_row(&self, printed: Printed, row: usize, n: usize) -> u8
        requires { (row < row_count printed) × (n < digit_count printed) }
        ensures { result ≡ digit_in_row printed self.now.words row n }
    {
        digit([
            self.bit_in_row(printed, row, 4 * n),
            self.bit_in_row(printed, row, 4 * n + 1),
            self.bit_in_row(printed, row, 4 * n + 2),
            self.bit_in_row(printed, row, 4 * n + 3),
        ])
    }
}

impl Pair {
    // Whether the digits are those of the row that was sent.
    fn is_row(&self, printed: Printed, row: usize, digits: &[u8]) -> bool
        ensures { result ≡ is_row printed self.now.words row digits.now }
    {
        if row >= printed.row_count() {
            return false;
        }
        if digits.len() != printed.digit_count() {
            return false;
        }
        for n in 0..digits.len() {
            if digits[n] != self.digit_in_row(printed, row, n) {
                return false;
            }
        }
        true
    }
}

impl Tally {
    // Counts a whole row, equal to what was sent or not.
    fn count_whole(&mut self, equal: bool)
        ensures { self.new ≡ after_whole equal self.old }
    {
        self.tried = self.tried.saturating_add(1);
        if equal {
            self.equal = self.equal.saturating_add(1);
        }
    }

    fn count_damaged(&mut self)
        ensures { self.new ≡ after_damaged self.old }
    {
        self.damaged = self.damaged.saturating_add(1);
    }
}

// What is wrong about a line of rows.
#[derive(Clone, Copy, PartialEq, Eq, Debug)]
pub enum WrongRow {
    // The row's number is none.
    Number,
    // A name of none of the six tables.
    Name,
    // Neither whole nor damaged.
    Status,
}

impl Pair {
    // Counts a row that is told as whole or damaged; a damaged one is no evidence, and is not compared.
    fn try_row(
        &self,
        printed: Printed,
        row: usize,
        status: &str,
        digits: &str,
        tally: &mut Tally,
    ) -> Result<(), WrongRow>
        ensures { Tried (told printed self.now.words row status.now digits.now tally.old) tally.old tally.new result }
    {
        match status {
            "whole" => tally.count_whole(self.is_row(printed, row, digits.as_bytes())),
            "damaged" => tally.count_damaged(),
            _ => return Err(WrongRow::Status),
        }
        Ok(())
    }
}

// The number of tables.
const TABLES: usize = 6;

// The name of a table.
fn name(table: usize) -> &'static str
    ensures { result.now ≡ name_of table }
{
    match table {
        0 => "message-200",
        1 => "message-400",
        2 => "A-at-200",
        3 => "B-at-200",
        4 => "A-at-400",
        _ => "B-at-400",
    }
}

// The table that has the name.
fn table_named(wanted: &str) -> Option<usize>
    ensures { IfSome result (λ k. (k < 6) × (wanted.now ≡ name_of k)) }
{
    for table in 0..TABLES {
        if name(table) == wanted {
            return Some(table);
        }
    }
    None
}

fn table_line(alloc: Global, name: &str, tally: Tally) -> Result<String, AllocError>
    ensures { IfOk result (λ s. string_bytes s ≡ table_line name.now tally) }
{
    let Tally {
        tried,
        equal,
        damaged,
    } = tally;
    format!(in alloc; "{name}: {tried} rows tried, {equal} equal, {damaged} damaged\n")
}

fn last_line(alloc: Global, tried: u64, equal: u64) -> Result<String, AllocError>
    ensures { IfOk result (λ s. string_bytes s ≡ last_line tried equal) }
{
    format!(in alloc; "{tried} rows tried, {equal} equal\n")
}

// The lines of the tables and the last line, and whether all rows that were tried are equal to those that were sent.
fn report(alloc: Global, tallies: &[Tally; TABLES]) -> Result<(Vec<u8>, bool), AllocError>
    ensures { IfOk result (λ r. (r.0.items ≡ report_text tallies.now) × (r.1 ≡ all_equal tallies.now)) }
{
    let mut text = Vec::new(alloc);
    let mut tried = 0u64;
    let mut equal = 0u64;
    for table in 0..TABLES {
        let tally = tallies[table];
        text.extend_from_slice(table_line(alloc, name(table), tally)?.as_bytes())?;
        tried = tried.saturating_add(tally.tried);
        equal = equal.saturating_add(tally.equal);
    }
    text.extend_from_slice(last_line(alloc, tried, equal)?.as_bytes())?;
    Ok((text, tried == equal))
}

// Why no report is made.
#[derive(Drop, Debug)]
pub enum RowsError {
    Row(WrongRow),
    Sender(Refusal),
    Io(io::Error),
}

impl From<WrongRow> for RowsError {
    fn from(e: WrongRow) -> RowsError {
        RowsError::Row(e)
    }
}

impl From<Refusal> for RowsError {
    fn from(e: Refusal) -> RowsError {
        RowsError::Sender(e)
    }
}

impl From<io::Error> for RowsError {
    fn from(e: io::Error) -> RowsError {
        RowsError::Io(e)
    }
}

// The tallies of a text: a line a row with the table's name, the row's number, `whole` and its digits, or `damaged`.
fn tally_rows(text: &str) -> Result<[Tally; TABLES], RowsError> {
    let at_200 = Pair::sent::<Rate200>()?;
    let at_400 = Pair::sent::<Rate400>()?;
    let tables = [
        (at_200, Printed::Message),
        (at_400, Printed::Message),
        (at_200, Printed::A),
        (at_200, Printed::B),
        (at_400, Printed::A),
        (at_400, Printed::B),
    ];
    let mut tallies = [Tally {
        tried: 0,
        equal: 0,
        damaged: 0,
    }; TABLES];
    for line in text.lines() {
        let mut words = line.split_whitespace();
        let wanted = words.next().unwrap_or("");
        let Ok(row) = words.next().unwrap_or("").parse::<usize>() else {
            return Err(RowsError::Row(WrongRow::Number));
        };
        let status = words.next().unwrap_or("");
        let digits = words.next().unwrap_or("");
        let Some(table) = table_named(wanted) else {
            return Err(RowsError::Row(WrongRow::Name));
        };
        let (pair, printed) = &tables[table];
        pair.try_row(*printed, row, status, digits, &mut tallies[table])?;
    }
    Ok(tallies)
}

// Prints the report of the rows that are read, and answers whether all that were tried are equal to those that were sent.
pub fn print_rows<R: Read, W: Write>(
    alloc: Global,
    input: &mut R,
    out: &mut W,
) -> Result<bool, RowsError>
    ensures { Reports (W.contents out.old) (W.contents out.new) result }
{
    let mut rows = String::new(alloc);
    input.read_to_string(&mut rows)?;
    let tallies = tally_rows(rows.as_str())?;
    let (text, all_equal) = report(alloc, &tallies).map_err(io::Error::from)?;
    put(out, &text)?;
    Ok(all_equal)
}

impl fmt::Display for WrongRow {
    fn fmt<W: fmt::Write>(&self, f: &mut fmt::Formatter<W>) -> fmt::Result {
        match self {
            WrongRow::Number => write!(f, "invalid digit found in string"),
            WrongRow::Name => write!(f, "a row of an unknown word"),
            WrongRow::Status => write!(f, "a row is whole or damaged"),
        }
    }
}

impl fmt::Display for RowsError {
    fn fmt<W: fmt::Write>(&self, f: &mut fmt::Formatter<W>) -> fmt::Result {
        match self {
            RowsError::Row(e) => write!(f, "{e}"),
            RowsError::Sender(e) => write!(f, "{e}"),
            RowsError::Io(e) => write!(f, "{e}"),
        }
    }
}

impl error::Error for WrongRow {}

impl error::Error for RowsError {}
