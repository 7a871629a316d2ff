// Tries the library `blocks` on cases from standard input, each with the answer that an independent model gives,
// and prints how many of each sort agree. A case is a line of words: what to try, its input, the expected answer.
#![tactic(auto)]

use anyhow::anyhow;
use blocks::{BadHeader, Block, Descrambler, Group, Reader, Record, Refusal, Scrambler};
use std::alloc::Global;
use std::array;
use std::io::{BufRead, BufReader};

// How many cases were tried, and of how many the answer was the expected one. The program code_cases has one too: a
// crate for these lines alone would be no plainer.
#[derive(Clone, Copy)]
struct Count {
    tried: u64,
    equal: u64,
}

impl Count {
    fn add(&mut self, equal: bool) {
        self.tried = self.tried.saturating_add(1);
        if equal {
            self.equal = self.equal.saturating_add(1);
        }
    }
}

// A digit of an octet; any other character counts as 0. The library's `to_digit` takes capitals too, and `hex::decode` would
// end the program. The program code_cases has one too, for symbols.
fn digit(c: u8) -> u8 {
    match c {
        b'0'..=b'9' => c - b'0',
        b'a'..=b'f' => c - b'a' + 10,
        _ => 0,
    }
}

// The octets of a text of hexadecimal digits, by `digit`, so that any text has some; `-` stands for none.
fn octets(heap: Global, text: &str) -> anyhow::Result<Vec<u8>> {
    let (pairs, _) = text.as_bytes().as_chunks::<2>();
    let mut out = Vec::new(heap);
    for [high, low] in pairs {
        out.push((digit(*high) << 4) | digit(*low))?;
    }
    Ok(out)
}

// A refusal as number:place, which is how the cases have it, and not as it is displayed.
fn refusal(heap: Global, r: Refusal) -> anyhow::Result<String> {
    let number = r.number();
    let place = r.place();
    Ok(format!(in heap; "{number}:{place}")?)
}

// What a call leaves in a buffer, or its refusal.
fn filled<F: FnOnce(&mut [u8]) -> Result<(), Refusal>>(
    heap: Global,
    buffer: &mut [u8],
    fill: F,
) -> anyhow::Result<String>
    requires { F.IsAlwaysCallable fill }
{
    match fill(buffer) {
        Ok(()) => Ok(hex::encode(heap, buffer)?),
        Err(e) => refusal(heap, e),
    }
}

fn yes_or_no(heap: Global, yes: bool) -> anyhow::Result<String> {
    Ok(String::from_str(heap, if yes { "yes" } else { "no" })?)
}

fn sound(heap: Global, records: &[u8]) -> anyhow::Result<String> {
    match blocks::is_sound(records) {
        Ok(yes) => yes_or_no(heap, yes),
        Err(e) => refusal(heap, e),
    }
}

// The nine octets of a record; those that are not given count as 0.
fn nine(octets: &[u8]) -> [u8; 9] {
    array::from_fn(|i| octets.get(i).copied().unwrap_or(0))
}

// Which bad header the first record has, if any.
fn bad_header(octets: &[u8]) -> Option<BadHeader> {
    match Reader::new(octets).next() {
        Ok(Some((_, Record::BadHeader(header, _)))) => Some(header),
        _ => None,
    }
}

fn record(heap: Global, index: usize, r: Record) -> anyhow::Result<String> {
    let (letter, body) = match r {
        Record::Data(body) => ('d', body),
        Record::Control(body) => ('c', body),
        Record::BadHeader(BadHeader::Ones, body) => ('t', body),
        Record::BadHeader(BadHeader::Zeros, body) => ('z', body),
        Record::Note(body) => ('n', body),
    };
    let body = hex::encode(heap, body)?;
    Ok(format!(in heap; "{index}{letter}{body};")?)
}

// Every record that a reader gives, and how the walk ends.
fn walk(heap: Global, buffer: &[u8]) -> anyhow::Result<String> {
    let mut text = String::new(heap);
    let mut reader = Reader::new(buffer);
    for _ in 0..=buffer.len() {
        match reader.next() {
            Ok(Some((index, r))) => text.push_str(record(heap, index, r)?.as_str())?,
            Ok(None) => break,
            Err(e) => {
                text.push_str(refusal(heap, e)?.as_str())?;
                break;
            }
        }
    }
    text.push_str(".")?;
    Ok(text)
}

// Groups of 33 octets, each passed through `pass` one after the other.
fn passed<F: FnMut(Group) -> Group>(
    heap: Global,
    groups: &[u8],
    mut pass: F,
) -> anyhow::Result<String>
    requires { F.IsAlwaysCallable pass }
{
    let mut text = String::new(heap);
    let (groups, _) = groups.as_chunks::<33>();
    for octets in groups {
        let octets = <[u8; 33]>::from(pass(Group::from(octets)));
        text.push_str(hex::encode(heap, octets)?.as_str())?;
    }
    Ok(text)
}

// A start value in octets, the lowest first. The library takes eight, and a case may have another number of them.
fn start_of(octets: &[u8]) -> u64 {
    octets
        .iter()
        .rev()
        .fold(0, |x, octet| (x << 8) | u64::from(*octet))
}

// The first word of a case says what to try.
fn answer(heap: Global, what: &str, start: &[u8], input: &[u8]) -> anyhow::Result<String> {
    match what {
        "write" => filled(
            heap,
            &mut [0xAA; 33],
            |group| blocks::write_group(input, group),
        ),
        "read" => filled(
            heap,
            &mut [0xAA; 36],
            |records| blocks::read_group(input, records),
        ),
        "sound" => sound(heap, input),
        "walk" => walk(heap, input),
        "same_groups" => yes_or_no(heap, blocks::group_of(start) == blocks::group_of(input)),
        "same_blocks" => yes_or_no(
            heap,
            Block::try_from(nine(start)) == Block::try_from(nine(input)),
        ),
        "same_headers" => yes_or_no(heap, bad_header(start) == bad_header(input)),
        "scramble" => match Scrambler::new(start_of(start)) {
            Ok(mut scrambler) => passed(heap, input, |group| scrambler.scramble(group)),
            Err(e) => refusal(heap, e),
        },
        "descramble" => match Descrambler::new(start_of(start)) {
            Ok(mut descrambler) => passed(heap, input, |group| descrambler.descramble(group)),
            Err(e) => refusal(heap, e),
        },
        _ => Err(anyhow!("unknown case")),
    }
}

fn main(rt: HostRuntime) -> anyhow::Result<()> {
    let heap = rt.alloc();
    let mut total = Count { tried: 0, equal: 0 };
    for line in BufReader::new(heap, rt.stdin())?.lines(heap) {
        let line = line?;
        let mut words = line.as_str().split_whitespace();
        let what = words.next().unwrap_or("");
        let start = octets(heap, words.next().unwrap_or(""))?;
        let input = octets(heap, words.next().unwrap_or(""))?;
        let expected = words.next().unwrap_or("");
        let got = answer(heap, what, start.as_slice(), input.as_slice())?;
        let equal = got.as_str() == expected;
        if !equal {
            println!(rt; "{line}\n  gives {got}")?;
        }
        total.add(equal);
    }
    let tried = total.tried;
    let equal = total.equal;
    println!(rt; "{tried} tried, {equal} equal")?;
    Ok(())
}
