// The engine of reach 15, by the decoder over any field.
ghost use Rattle.std.specs.Prelude.{◌≡◌, ◌<◌, length, MatchResult};
ghost use Rattle.code.specs.Code.{distance};
ghost use Rattle.code.specs.Laws.{AnswersAgree, Refused};
ghost use Rattle.code.specs.Lifting.{at, Loaded, Stored, ProposedWord};
ghost use Rattle.code.specs.Division.{RegisterValues, WordSyndromes};
ghost use Rattle.std.proofs.Common.{lit≤};

use super::engine::Engine;
use super::places::Places;
use super::refusal::Refusal;
use super::remainder::ShiftRegister;
use super::symbols::{ROOTS, SIZE, Word};
use decoder::{Received, Row, Work};
use gf1024::Element;
use std::array;

// The number of symbols that it can correct: half the number of roots.
const REACH: usize = 15;

// The places, and room for the work; what that holds does not matter.
#[derive(Drop)]
pub struct FullEngine {
    places: Places,
    work: Work<Element>,
}

impl FullEngine {
    // The contract says of any two engines that the same reach brings the same answers.
    pub fn new() -> FullEngine
        ensures { AnswersAgree }
    {
        let zero = gf1024::from_bits(0);
        let row = Row {
            degree: 0,
            coefficients: [zero; 16],
        };
        FullEngine {
            places: Places::new(),
            work: Work {
                rows: [row; 16],
                values: [zero; SIZE],
                found: [0; SIZE],
                located: [zero; 16],
                terms: [zero; 16],
            },
        }
    }

    // The syndromes of a word, from its remainder: the values of that at the roots of the generator.
    fn find_syndromes(&self, remainder: &ShiftRegister) -> [Element; ROOTS]
        ensures { RegisterValues remainder.now.symbols result }
    {
        let mut coefficients = remainder.symbols.map(gf1024::from_bits);
        let coefficients = &mut coefficients[..ROOTS];
        coefficients.reverse();
        let mut syndromes = [gf1024::from_bits(0); ROOTS];
        decoder::evaluate(coefficients, &self.places.roots, &mut syndromes);
        syndromes
    }

    // The one word within reach of a word that can be a codeword. Whether it is one is not checked.
    fn propose(&mut self, word: Word, syndromes: &[Element; ROOTS]) -> Result<[u16; SIZE], Refusal>
        requires { WordSyndromes word.symbols.now syndromes.now }
        ensures { MatchResult result (ProposedWord word.entry.symbols.now) (Refused 15 word.entry.symbols.now) }
    {
        let places = &self.places;
        let elements = load(word.symbols);
        let received = Received {
            symbols: &elements,
            points: &places.points,
            syndromes,
            reach: REACH,
        };
        let proposal = self.work.propose(&received)?;
        Ok(store(proposal))
    }
}

// The symbols as elements.
fn load(symbols: &[u16; SIZE]) -> [Element; SIZE]
    ensures { Loaded symbols.now 544 result }
{
    // By `from_fn` here and in `store`: with `map` a word took up to a tenth longer to correct here, and up to a sixth there.
    array::from_fn(|i| gf1024::from_bits(symbols[i]))
}

// The elements as symbols.
fn store(elements: &[Element]) -> [u16; SIZE]
    requires { length elements.now ≡ 544 }
    ensures { Stored elements.now 544 result }
{
    array::from_fn(
        |i| -> u16
            requires { (i < 544) × (length elements.now ≡ 544) }
            ensures { result ≡ (at elements.entry.now i).value }
        { elements[i].value },
    )
}

// The number of symbols in which the words differ.
fn count_changes(v: &[u16; SIZE], w: &[u16; SIZE]) -> usize
    ensures { result ≡ distance v.now w.now }
{
    v.iter().zip(w).filter(|(a, b)| a != b).count()
}

impl Engine for FullEngine {
    ghost reach = { 15 };

    ghost bounded = { lit≤ tt };

    fn correct(&mut self, word: &mut [u16]) -> Result<usize, Refusal> {
        let received = Word::check(word)?;
        let remainder = received.remainder();
        if remainder.is_zero() {
            return Ok(0);
        }
        let syndromes = self.find_syndromes(&remainder);
        let corrected = self.propose(received, &syndromes)?;
        let proposal = Word {
            symbols: &corrected,
        };
        if !proposal.has_roots() {
            return Err(Refusal::Reach);
        }
        let count = count_changes(received.symbols, &corrected);
        word.copy_from_slice(&corrected);
        Ok(count)
    }
}
