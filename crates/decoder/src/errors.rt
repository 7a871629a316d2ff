// The error values from the syndromes, and the word without them.
ghost use Rattle.std.specs.Prelude.{◌≡◌, ℕ, ◌+◌, ◌<◌, ◌≤◌, length, get_or, slice_index, slice_index_or};
ghost use Rattle.decoder.specs.Errors.{without_term, error_value, Subtracted};

use field::Field;

// Takes the term at the point x away from the syndromes t; the last of them is spent.
fn drop_term<F: Field + Copy>(t: &mut [F], x: F)
    ensures { (k : ℕ) → k + 1 < length t.old → slice_index_or t.new k F.Adds.group.zero ≡ without_term F.Adds.group F.Field.ring x (λ i. get_or t.old i F.Adds.group.zero) k }
{
    // By index: each is made of itself and of the next, and no iterator writes one of a pair of neighbours.
    for k in 1..t.len() {
        t[k - 1] = t[k].add(x.neg().mul(t[k - 1]));
    }
}

// The error at the j-th of the points, given as many syndromes t.
fn error_at<F: Field + Copy>(t: &mut [F], points: &[F], j: usize) -> F
    requires { (j < length points.now) × (length points.now ≤ length t.old) }
    ensures { result ≡ error_value F.Adds.group F.Field.ring points.now (λ k. get_or t.old k F.Adds.group.zero) (length points.now) j }
{
    let mut gap = F::unit();
    // The size stands beside t: where t itself is narrowed within the `if`, the proof does not close.
    let mut size = points.len();
    for (l, x) in points.iter().enumerate() {
        if l != j {
            drop_term(&mut t[..size], *x);
            size -= 1;
            gap = gap.mul(points[j].add(x.neg()));
        }
    }
    t[0].mul(gap.inv())
}

// The points of the places found.
pub(crate) fn gather<F: Field + Copy>(located: &mut [F], points: &[F], found: &[usize])
    requires { (length located.old ≡ length found.now) × ((t : ℕ) → t < length found.now → slice_index found.now t < length points.now) }
    ensures { (t : ℕ) → t < length found.now → slice_index_or located.new t F.Adds.group.zero ≡ slice_index_or points.now (slice_index found.now t) F.Adds.group.zero }
{
    // By index: a zip over `located.iter_mut()` says nothing of what is written.
    for (t, x) in located.iter_mut().enumerate() {
        *x = points[found[t]];
    }
}

// Subtracts the errors at the places found, whose points are located, from the word, given as many syndromes s;
// t is for the work.
pub(crate) fn subtract<F: Field + Copy>(
    word: &mut [F],
    s: &[F],
    t: &mut [F],
    located: &[F],
    found: &[usize],
)
    requires sizes { (length s.now ≡ length found.now) × ((length t.old ≡ length found.now) × (length located.now ≡ length found.now)) }
    requires within { (i : ℕ) → i < length found.now → slice_index found.now i < length word.old }
    requires ascend { (i j : ℕ) → i < j → j < length found.now → slice_index found.now i < slice_index found.now j }
    ensures { Subtracted F.Adds.group F.Field.ring word.old found.now located.now s.now (length found.now) (length found.now) word.new }
{
    for (j, i) in found.iter().enumerate() {
        t.copy_from_slice(s);
        let y = error_at(t, located, j);
        word[*i] = word[*i].add(y.neg());
    }
}
