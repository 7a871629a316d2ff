// An answer as C takes it: a number, with a place and a value where pointers say.
ghost use Rattle.std.specs.Prelude.{◌≡◌, MatchResult};

// Writes the value that is answered and the place of a refusal, and returns the number of the refusal. Both are 0 where
// there is none.
pub fn reply<T: Copy>(answer: Result<T, (u32, usize)>, value: &mut T, place: &mut usize) -> u32
    ensures { MatchResult answer (λ x. (result ≡ 0) × (place.new ≡ 0) × (value.new ≡ x)) (λ e. (result ≡ e.0) × (place.new ≡ e.1) × (value.new ≡ value.old)) }
{
    // The place first: a caller that gives one variable for both is left with the value.
    match answer {
        Ok(x) => {
            *place = 0;
            *value = x;
            0
        }
        Err((number, at)) => {
            *place = at;
            number
        }
    }
}
