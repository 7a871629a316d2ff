// Encoding and correcting for C.
ghost use Rattle.std.specs.Prelude.{◌≡◌};
ghost use Rattle.code.specs.Answers.{number_of, place_of, correction, corrected_count, encoding, encode_answer};
ghost use Rattle.host.specs.Crossing.{symbols_in};
ghost use Rattle.host.specs.Replies.{word_number, word_place, word_left, count_left};

use super::reply::reply;
use super::symbols;
use code::{Engine, FullEngine, Refusal, WatchEngine};

// The bytes of a message and of a word.
const MESSAGE: usize = 1028;

const WORD: usize = 1088;

// The number and the place of a refusal. The groups have one too, for their own type: a trait with two impls is longer.
fn crossed(e: Refusal) -> (u32, usize)
    ensures number { result.0 ≡ number_of e }
    ensures place { result.1 ≡ place_of e }
{
    (u32::from(e.number()), e.place())
}

fn encode(message: &[u8], word: &mut [u8]) -> Result<(), Refusal>
    ensures answer { result ≡ encode_answer (symbols_in message.now) (symbols_in word.old) }
    ensures word { word.new ≡ word_left (encoding (symbols_in message.now) (symbols_in word.old)) word.old }
{
    if message.len() != MESSAGE || word.len() != WORD {
        return Err(Refusal::Length);
    }
    let sent = symbols::load::<514>(message);
    let mut codeword = [0u16; 544];
    code::encode(&sent, &mut codeword)?;
    symbols::store(&codeword, word);
    Ok(())
}

// Corrects the word by the engine.
fn correct<E: Engine>(engine: &mut E, word: &mut [u8]) -> Result<usize, Refusal>
    ensures answer { result ≡ corrected_count E.Engine.reach (symbols_in word.old) }
    ensures word { word.new ≡ word_left (correction E.Engine.reach (symbols_in word.old)) word.old }
{
    if word.len() != WORD {
        return Err(Refusal::Length);
    }
    let mut received = symbols::load::<544>(word);
    let changed = engine.correct(&mut received)?;
    symbols::store(&received, word);
    Ok(changed)
}

// C calls each by a name of its own, and hands buffers, place and count over as pointers.
#[unsafe(no_mangle)]
pub extern "C" fn dartzulia_encode(message: &[u8], word: &mut [u8], place: &mut usize) -> u32
    ensures number { result ≡ word_number (encode_answer (symbols_in message.now) (symbols_in word.old)) }
    ensures place { place.new ≡ word_place (encode_answer (symbols_in message.now) (symbols_in word.old)) }
    ensures word { word.new ≡ word_left (encoding (symbols_in message.now) (symbols_in word.old)) word.old }
{
    reply(encode(message, word).map_err(crossed), &mut (), place)
}

#[unsafe(no_mangle)]
pub extern "C" fn dartzulia_correct(word: &mut [u8], changed: &mut usize, place: &mut usize) -> u32
    ensures number { result ≡ word_number (corrected_count 15 (symbols_in word.old)) }
    ensures place { place.new ≡ word_place (corrected_count 15 (symbols_in word.old)) }
    ensures changed { changed.new ≡ count_left (corrected_count 15 (symbols_in word.old)) changed.old }
    ensures word { word.new ≡ word_left (correction 15 (symbols_in word.old)) word.old }
{
    let answer = correct(&mut FullEngine::new(), word);
    reply(answer.map_err(crossed), changed, place)
}

#[unsafe(no_mangle)]
pub extern "C" fn dartzulia_watch(word: &mut [u8], changed: &mut usize, place: &mut usize) -> u32
    ensures number { result ≡ word_number (corrected_count 0 (symbols_in word.old)) }
    ensures place { place.new ≡ word_place (corrected_count 0 (symbols_in word.old)) }
    ensures changed { changed.new ≡ count_left (corrected_count 0 (symbols_in word.old)) changed.old }
    ensures word { word.new ≡ word_left (correction 0 (symbols_in word.old)) word.old }
{
    let answer = correct(&mut WatchEngine::new(), word);
    reply(answer.map_err(crossed), changed, place)
}
