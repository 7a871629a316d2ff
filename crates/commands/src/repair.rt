// The command `repair`: encodes a message, changes some of its symbols, corrects the word and tells what it did.
ghost use Rattle.std.specs.Prelude.{◌≡◌, ◌++◌, ◌/◌, ◌≤◌, IfOk, OnOk, string_bytes, codes};
ghost use Rattle.commands.specs.Repair.{damage_lines, damaged, last_line, next_number, number_after, repair_text, report_of, sent_word, symbol_line, symbols};
ghost use Rattle.commands.specs.Streams.{Writes};

use crate::streams::put;
use code::{Engine, FullEngine, Refusal};
use std::alloc::{AllocError, Global};
use std::io;
use std::io::Write;

const WORD: usize = 544;

const MESSAGE: usize = 514;

// Symbols that are the same on every run. The program code_cases has a copy: a crate for both would be longer.
#[derive(Drop)]
struct Sequence {
    number: u32,
}

impl Sequence {
    fn symbol(&mut self) -> u16
        ensures number { self.new.number ≡ next_number self.old.number }
        ensures symbol { result ≡ self.new.number / 4194304 }
    {
        self.number = self.number.wrapping_mul(1664525).wrapping_add(1013904223);
        (self.number >> 22) as u16
    }
}

// The message, the first symbols that are drawn.
fn draw_message(alloc: Global, sequence: &mut Sequence) -> Result<Vec<u16>, AllocError>
    requires { sequence.old.number ≡ number_after 0 }
    ensures { IfOk result (λ m. (m.items ≡ symbols 514) × (sequence.new.number ≡ number_after 514)) }
{
    let mut message = Vec::new(alloc);
    for _n in 0..MESSAGE {
        message.push(sequence.symbol())?;
    }
    Ok(message)
}

fn symbol_line(alloc: Global, at: usize, old: u16, new: u16) -> Result<String, AllocError>
    ensures { IfOk result (λ s. string_bytes s ≡ symbol_line at old new) }
{
    format!(in alloc; "symbol {at}: {old} became {new}\n")
}

// The codeword of the message.
fn encode(message: &[u16]) -> [u16; WORD]
    requires { message.now ≡ symbols 514 }
    ensures { result ≡ sent_word }
{
    let mut word = [0; WORD];
    // Never refused: the message has 514 symbols of ten bits.
    code::encode(message, &mut word).unwrap();
    word
}

// Takes `count` steps of 17 places from the first on, round the word, and changes the symbol at each to another one.
// Puts a line a step behind the text.
fn damage(
    alloc: Global,
    text: &mut Vec<u8>,
    word: &mut [u16; WORD],
    count: usize,
    mut sequence: Sequence,
) -> Result<(), AllocError>
    requires { (count ≤ 544) × (sequence.number ≡ number_after 514) }
    ensures { OnOk result ((word.new ≡ damaged word.old count) × (text.new.items ≡ text.old.items ++ damage_lines word.old count)) }
{
    for step in 0..count {
        let at = 17 * step % WORD;
        let old = word[at];
        word[at] ^= 1 + sequence.symbol() % 1023;
        text.extend_from_slice(symbol_line(alloc, at, old, word[at])?.as_bytes())?;
    }
    Ok(())
}

// The last line: the engine's answer, and whether its word is the one that was sent.
fn report(alloc: Global, answer: Result<usize, Refusal>, back: bool) -> Result<String, AllocError>
    ensures { IfOk result (λ s. string_bytes s ≡ report_of answer back) }
{
    match (answer, back) {
        (Ok(count), true) => {
            format!(in alloc; "corrected {count} symbols; the word sent is back: true\n")
        }
        (Ok(count), false) => {
            format!(in alloc; "corrected {count} symbols; the word sent is back: false\n")
        }
        (Err(refusal), _) => format!(in alloc; "refused: {refusal}\n"),
    }
}

// Corrects a damaged word and reports.
fn repair(alloc: Global, sent: &[u16; WORD], word: &mut [u16; WORD]) -> Result<String, AllocError>
    ensures { IfOk result (λ s. string_bytes s ≡ last_line sent.now word.old) }
{
    let answer = FullEngine::new().correct(word);
    report(alloc, answer, *sent == *word)
}

// What is told of a repair of a word in which so many steps change a symbol.
#[tactic(auto, using(crate::proofs::Repairs::number_first))]
fn repair_text(alloc: Global, count: usize) -> Result<Vec<u8>, AllocError>
    ensures { IfOk result (λ text. text.items ≡ repair_text count) }
{
    let mut sequence = Sequence { number: 1 };
    let sent = encode(&draw_message(alloc, &mut sequence)?);
    let mut word = sent;
    let mut text = Vec::new(alloc);
    text.extend_from_slice(b"encoded: true\n")?;
    damage(alloc, &mut text, &mut word, count.min(WORD), sequence)?;
    text.extend_from_slice(repair(alloc, &sent, &mut word)?.as_bytes())?;
    Ok(text)
}

// Prints how a word is damaged in so many steps, 544 at most, and what the engine answers to it.
pub fn print_repair<W: Write>(alloc: Global, out: &mut W, count: usize) -> io::Result<()>
    ensures { Writes (W.contents out.old) (W.contents out.new) result (repair_text count) }
{
    let text = repair_text(alloc, count)?;
    put(out, &text)
}
