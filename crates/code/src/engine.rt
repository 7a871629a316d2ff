// What each engine that corrects words promises.
ghost use Rattle.std.specs.Prelude.{◌≡◌, ℕ, ◌≤◌};
ghost use Rattle.code.specs.Answers.{corrected_count, corrected_word};
ghost use Rattle.code.specs.Laws.{EngineLaws};

use super::refusal::Refusal;

// An engine has a reach, which no call changes. It leaves a word within that reach of a codeword as that codeword,
// and answers how many symbols it changed. A refused word stays as it is.
pub trait Engine {
    ghost reach: { ℕ };

    // The answer and the word left follow from the reach and the word alone, whatever else the engine keeps.
    // The laws say what they mean; code over any engine may cite them.
    fn correct(&mut self, word: &mut [u16]) -> Result<usize, Refusal>
        ensures answer { result ≡ corrected_count reach word.old }
        ensures word { word.new ≡ corrected_word reach word.old }
        ensures laws { EngineLaws reach };

    ghost bounded: { reach ≤ 15 };
}
