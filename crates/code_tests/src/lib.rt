// Runs the code on examples, and shows what code over any engine can promise of words.
#![tactic(auto)]

ghost use Rattle.std.specs.Prelude.{◌≡◌, ℕ, ◌≤◌, List};
ghost use Rattle.code.specs.Answers.{corrected_count, corrected_word};
ghost use Rattle.code.specs.Code.{WellFormed, Codeword, distance};

use code::{Engine, Refusal};

// Corrects word A of a pair and then word B. What it promises rests on the contract of engines alone, and on no engine:
// a codeword comes back if at most as many of its symbols were changed as the reach.
pub fn correct_pair<E: Engine>(
    engine: &mut E,
    a: &mut [u16],
    b: &mut [u16],
) -> (Result<usize, Refusal>, Result<usize, Refusal>)
    ensures answer_a { result.0 ≡ corrected_count E.reach a.old }
    ensures answer_b { result.1 ≡ corrected_count E.reach b.old }
    ensures word_a { a.new ≡ corrected_word E.reach a.old }
    ensures word_b { b.new ≡ corrected_word E.reach b.old }
    ensures back_a { (c : List ℕ) → Codeword c → WellFormed a.old → distance a.old c ≤ E.reach → a.new ≡ c }
    ensures back_b { (c : List ℕ) → Codeword c → WellFormed b.old → distance b.old c ≤ E.reach → b.new ≡ c }
{
    let first = engine.correct(a);
    let second = engine.correct(b);
    (first, second)
}

#[cfg(test)]
mod tests {
    use super::correct_pair;
    use code::{Cause, Engine, Fault, FullEngine, Refusal, Run, Runs, WatchEngine};
    use std::array;
    use std::test::Fail;

    // A codeword whose message is an example.
    fn example() -> Result<[u16; 544], Fail> {
        let message: [u16; 514] = array::from_fn(|i| (i * 37 % 1024) as u16);
        let mut word = [0u16; 544];
        code::encode(&message, &mut word)?;
        Ok(word)
    }

    // Changes the first symbol of each of n stretches of 34.
    fn damage(word: &mut [u16; 544], n: usize) {
        for symbol in word.iter_mut().step_by(34).take(n) {
            *symbol ^= 1;
        }
    }

    #[test]
    fn an_encoded_message_is_a_codeword(rt: HostRuntime) -> Result<(), Fail> {
        let mut word = example()?;
        assert!(rt; code::is_codeword(&word));
        let mut engine = WatchEngine::new();
        assert_eq!(rt; engine.correct(&mut word)?, 0);
        Ok(())
    }

    #[test]
    fn fifteen_changed_symbols_come_back(rt: HostRuntime) -> Result<(), Fail> {
        let sent = example()?;
        let mut word = sent;
        damage(&mut word, 15);
        let mut engine = FullEngine::new();
        assert_eq!(rt; engine.correct(&mut word)?, 15);
        assert!(rt; word == sent);
        Ok(())
    }

    #[test]
    fn sixteen_changed_symbols_are_refused(rt: HostRuntime) -> Result<(), Fail> {
        let mut sent = example()?;
        damage(&mut sent, 16);
        let mut word = sent;
        let mut engine = FullEngine::new();
        let refusal = engine.correct(&mut word).err().ok_or("corrected")?;
        assert_eq!(rt; refusal.number(), 8);
        assert!(rt; word == sent);
        Ok(())
    }

    #[test]
    fn a_large_symbol_is_named(rt: HostRuntime) -> Result<(), Fail> {
        let mut word = [0u16; 544];
        word[7] = 1024;
        word[9] = 2000;
        let mut engine = FullEngine::new();
        let refusal = engine.correct(&mut word).err().ok_or("corrected")?;
        assert_eq!(rt; (refusal.number(), refusal.place()), (7, 7));
        assert!(rt; word[7] == 1024);
        Ok(())
    }

    #[test]
    fn a_pair_is_corrected_by_any_engine(rt: HostRuntime) -> Result<(), Fail> {
        let sent = example()?;
        let mut a = sent;
        let mut b = sent;
        damage(&mut a, 3);
        damage(&mut b, 16);
        let spoilt = b;
        let (first, second) = correct_pair(&mut FullEngine::new(), &mut a, &mut b);
        assert_eq!(rt; first?, 3);
        assert_eq!(rt; second.err().ok_or("corrected")?.number(), 8);
        assert!(rt; a == sent);
        assert!(rt; b == spoilt);
        let (first, second) = correct_pair(&mut WatchEngine::new(), &mut a, &mut b);
        assert_eq!(rt; first?, 0);
        assert!(rt; second.is_err());
        Ok(())
    }

    // The run behind some answers, of which true is an accepted word.
    fn run_of(answers: &[bool]) -> Run {
        let mut run = Run::new();
        for accepted in answers {
            let answer = if *accepted {
                Ok(2)
            } else {
                Err(Refusal::Reach)
            };
            run.push(&answer);
        }
        run
    }

    #[test]
    fn the_third_refusal_in_a_row_is_a_fault(rt: HostRuntime) -> Result<(), Fail> {
        assert!(rt; run_of(&[false, false]).check(1, 70).is_ok());
        let fault = run_of(&[true, false, false, false])
            .check(1, 70)
            .err()
            .ok_or("no fault")?;
        assert!(rt;
            fault
                == Fault {
                    cause: Cause::ThreeRefusals,
                    position: 1,
                    ticks: 70
                }
        );
        assert_eq!(rt; (fault.cause.layer(), fault.cause.number()), (3, 4));
        Ok(())
    }

    #[test]
    fn an_accepted_word_clears_the_run(rt: HostRuntime) -> Result<(), Fail> {
        assert!(rt;
            run_of(&[false, false, true, false, false])
                .check(0, 9)
                .is_ok()
        );
        assert!(rt; run_of(&[false, false, false, true]).check(0, 9).is_ok());
        assert!(rt;
            run_of(&[false, true, false, false, false])
                .check(0, 9)
                .is_err()
        );
        Ok(())
    }

    #[test]
    fn refusals_of_both_words_are_no_run(rt: HostRuntime) -> Result<(), Fail> {
        let mut runs = Runs::new();
        runs.push(&Err(Refusal::Reach), &Ok(0));
        runs.push(&Err(Refusal::Reach), &Err(Refusal::Reach));
        runs.push(&Ok(1), &Err(Refusal::Reach));
        assert!(rt; runs.check(8).is_ok());
        runs.push(&Err(Refusal::Reach), &Err(Refusal::Reach));
        let fault = runs.check(9).err().ok_or("no fault")?;
        assert_eq!(rt; (fault.position, fault.ticks), (1, 9));
        Ok(())
    }
}
