// Encodes messages: the symbols behind the message are the remainder of its division by the generator.
ghost use Rattle.std.specs.Prelude.{◌≡◌};
ghost use Rattle.code.specs.Code.{generator};
ghost use Rattle.code.specs.Answers.{encode_answer, encoded_word};
ghost use Rattle.code.specs.Laws.{EncodeLaws};

use super::refusal::Refusal;
use super::symbols::{MESSAGE, Message, ROOTS, SIZE};

// The coefficients of the generator, the lowest first.
const GENERATOR: [u16; 31] = [
    523, 834, 128, 158, 185, 127, 392, 193, 610, 788, 361, 883, 503, 942, 385, 495, 720, 94, 132,
    593, 249, 282, 565, 108, 1, 552, 230, 187, 552, 575, 1,
];

// The product of x + alpha^i, i < 30, by its coefficients, the lowest first.
pub fn generator_polynomial() -> [u16; 31]
    ensures { result ≡ generator 30 }
{
    GENERATOR
}

// Makes the word the one codeword that begins with the message; a refusal leaves it as it was.
pub fn encode(message: &[u16], word: &mut [u16]) -> Result<(), Refusal>
    ensures answer { result ≡ encode_answer message.now word.old }
    ensures word { word.new ≡ encoded_word message.now word.old }
    ensures laws { EncodeLaws }
{
    if word.len() != SIZE {
        return Err(Refusal::Length);
    }
    let message = Message::check(message)?;
    let register = message.divide();
    let symbols = message.symbols;
    let (front, back) = word.split_at_mut(MESSAGE);
    front.copy_from_slice(symbols);
    back.copy_from_slice(&register.symbols[..ROOTS]);
    Ok(())
}
