// Tries the code: on codewords given on standard input, and on words of its own that it damages.
// A codeword is given in rows of 32 symbols: 80 hexadecimal digits, in each symbol the highest bit first. A row says
// whether the print that it was taken from is whole, so that it can speak for itself, or damaged.
#![tactic(auto)]

ghost use Rattle.std.specs.Prelude.{◌<◌};

use code::{Engine, FullEngine, Refusal, WatchEngine};
use std::io::{BufRead, BufReader};
use std::{array, io};

// The number of rows of a codeword.
const ROWS: usize = 17;

// Symbols that are the same on every run. The program repair has a copy: a crate for both would be longer.
#[derive(Drop)]
struct Sequence {
    seed: u32,
}

impl Sequence {
    fn symbol(&mut self) -> u16
        ensures { result < 1024 }
    {
        self.seed = self.seed.wrapping_mul(1664525).wrapping_add(1013904223);
        (self.seed >> 22) as u16
    }
}

// A digit of a row; any other character counts as 0. The library's `to_digit` takes capitals too, and `hex::decode` would end
// the program. The program group_cases has one too, for octets.
fn digit(c: u8) -> u32 {
    match c {
        b'0'..=b'9' => u32::from(c - b'0'),
        b'a'..=b'f' => u32::from(c - b'a' + 10),
        _ => 0,
    }
}

// The symbols of a row: five digits are two symbols.
fn read_row(row: &mut [u16], digits: &[u8]) {
    for (pair, five) in row.chunks_exact_mut(2).zip(digits.chunks_exact(5)) {
        let bits = five.iter().fold(0u32, |bits, c| (bits << 4) | digit(*c));
        pair[0] = ((bits >> 10) % 1024) as u16;
        pair[1] = (bits % 1024) as u16;
    }
}

// Counted here again, since this program tries the count that the code answers.
fn differing(a: &[u16; 544], b: &[u16; 544]) -> usize {
    a.iter().zip(b).filter(|(x, y)| x != y).count()
}

// Whether encoding the word's message gives the word.
fn encodes(word: &[u16; 544]) -> bool {
    let mut made = [0u16; 544];
    code::encode(&word[0..514], &mut made).is_ok() && *word == made
}

// Prints how many rows of a codeword were whole, and what the library says of it.
fn print_codeword(
    rt: &HostRuntime,
    name: &str,
    word: &[u16; 544],
    whole: &[bool; ROWS],
) -> io::Result<()> {
    let count = whole.iter().filter(|w| **w).count();
    let last = whole[ROWS - 1];
    let is_codeword = code::is_codeword(word);
    let alike = encodes(word);
    println!(rt; "{name}: {count} of {ROWS} rows whole, the last one {last}")?;
    println!(rt; "  a codeword {is_codeword}, encoded alike {alike}")
}

// Prints each codeword when its last row has come; a row then overwrites the one of the codeword before.
fn try_codewords(rt: &HostRuntime) -> anyhow::Result<()> {
    let mut word = [0u16; 544];
    let mut whole = [false; ROWS];
    let lines = BufReader::new(rt.alloc(), rt.stdin())?.lines(rt.alloc());
    for (n, line) in lines.enumerate() {
        let line = line?;
        let mut words = line.as_str().split_whitespace();
        let name = words.next().unwrap_or("");
        let status = words.next().unwrap_or("");
        let digits = words.next().unwrap_or("");
        let row = n % ROWS;
        read_row(&mut word[32 * row..32 * row + 32], digits.as_bytes());
        whole[row] = status == "whole";
        if row == ROWS - 1 {
            print_codeword(rt, name, &word, &whole)?;
        }
    }
    Ok(())
}

fn random_word(sequence: &mut Sequence) -> [u16; 544] {
    let mut message = [0u16; 514];
    message.fill_with(|| sequence.symbol());
    let mut word = [0u16; 544];
    let _ = code::encode(&message, &mut word);
    word
}

// Changes `count` symbols at different places, from a place on in equal steps.
fn damage(word: &mut [u16; 544], count: usize, sequence: &mut Sequence) {
    let start = usize::from(sequence.symbol());
    let step = 1 + 2 * usize::from(sequence.symbol() % 8);
    for at in (start..).step_by(step).take(count.min(34)) {
        word[at % 544] ^= 1 + sequence.symbol() % 1023;
    }
}

// How many words were tried, and of how many the answer was right. The program group_cases has one too: a crate for
// these lines alone would be no plainer.
#[derive(Clone, Copy)]
struct Count {
    tried: u64,
    right: u64,
}

impl Count {
    fn add(&mut self, right: bool) {
        self.tried = self.tried.saturating_add(1);
        if right {
            self.right = self.right.saturating_add(1);
        }
    }
}

// Tries 20 words with each number of changed symbols. `is_right` is given a word as it was
// sent and as it was received, and the number.
fn try_words<F: FnMut(&[u16; 544], &[u16; 544], usize) -> bool>(
    seed: u32,
    fewest: usize,
    most: usize,
    mut is_right: F,
) -> Count
    requires { F.IsAlwaysCallable is_right }
{
    let mut count = Count { tried: 0, right: 0 };
    let mut sequence = Sequence { seed };
    for _ in 0..20 {
        for n in fewest..=most {
            let sent = random_word(&mut sequence);
            let mut received = sent;
            damage(&mut received, n, &mut sequence);
            count.add(is_right(&sent, &received, n));
        }
    }
    count
}

// Words with up to 15 changed symbols come back, with their number; the watch engine refuses those with any.
fn try_within() -> Count {
    let mut full = FullEngine::new();
    let mut watch = WatchEngine::new();
    try_words(7, 0, 15, |sent, received, n| {
        let mut watched = *received;
        let quiet = watch.correct(&mut watched).is_ok() == (n == 0) && watched == *received;
        let mut word = *received;
        let corrected = matches!(full.correct(&mut word), Ok(k) if k == n);
        differing(sent, received) == n && quiet && corrected && word == *sent
    })
}

// Words with more are refused and stay, or are left as another codeword that is within 15.
fn try_beyond() -> Count {
    let mut full = FullEngine::new();
    try_words(11, 16, 31, |_, received, _| {
        let mut word = *received;
        match full.correct(&mut word) {
            Ok(k) => k <= 15 && differing(received, &word) == k && code::is_codeword(&word),
            Err(e) => e.number() == 8 && word == *received,
        }
    })
}

// N symbols that are 0 but the one at a place.
fn zeros_but<const N: usize>(at: usize, value: u16) -> [u16; N] {
    array::from_fn(|i| if i == at { value } else { 0 })
}

fn correct(word: &mut [u16]) -> Result<usize, Refusal> {
    FullEngine::new().correct(word)
}

// Encodes a message into a word of `ROOM` symbols.
fn encode<const ROOM: usize>(message: &[u16]) -> Result<usize, Refusal>
    requires { ROOM < 1024 }
{
    code::encode(message, &mut [0u16; ROOM]).map(|()| 0)
}

// The number and place of a refusal, 0 and the count of an accepted correction.
fn print(rt: &HostRuntime, what: &str, answer: Result<usize, Refusal>) -> io::Result<()> {
    let shown = match answer {
        Ok(count) => (0, count),
        Err(e) => (e.number(), e.place()),
    };
    println!(rt; "{what}: {shown:?}")
}

fn try_refusals(rt: &HostRuntime) -> io::Result<()> {
    print(rt, "543 symbols", correct(&mut zeros_but::<543>(0, 1024)))?;
    print(rt, "545 symbols", correct(&mut zeros_but::<545>(0, 0)))?;
    print(rt, "no symbols", correct(&mut zeros_but::<0>(0, 0)))?;
    print(
        rt,
        "symbol 543 is 1024",
        correct(&mut zeros_but::<544>(543, 1024)),
    )?;
    print(
        rt,
        "symbol 300 is 65535",
        correct(&mut zeros_but::<544>(300, 65535)),
    )?;
    print(
        rt,
        "symbol 300 is 1023",
        correct(&mut zeros_but::<544>(300, 1023)),
    )?;
    print(
        rt,
        "message of 513",
        encode::<544>(&zeros_but::<513>(0, 1024)),
    )?;
    print(
        rt,
        "room for 543",
        encode::<543>(&zeros_but::<514>(0, 1024)),
    )?;
    print(
        rt,
        "message with symbol 2 of 1024",
        encode::<544>(&zeros_but::<514>(2, 1024)),
    )?;
    print(rt, "message", encode::<544>(&zeros_but::<514>(2, 1023)))
}

fn main(rt: HostRuntime) -> anyhow::Result<()> {
    try_codewords(&rt)?;
    let Count { tried, right } = try_within();
    println!(rt; "up to 15 changed: {tried} tried, {right} right")?;
    let Count { tried, right } = try_beyond();
    println!(rt; "16 to 31 changed: {tried} tried, {right} right")?;
    try_refusals(&rt)?;
    Ok(())
}
