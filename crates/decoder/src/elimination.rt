// Finds a locator: a monic polynomial of low degree that annihilates the syndromes.
ghost use Rattle.std.specs.Prelude.{◌≡◌, ℕ, ◌+◌, ◌-◌, ◌*◌, ◌<◌, ◌≤◌, length, ◌≢◌, slice_index_or, MatchBool, MatchOption};
ghost use Rattle.decoder.specs.Elimination.{row_at, applied_to, Candidate, Stage, Powers};
ghost use Rattle.decoder.specs.Words.{Added, Monic};

use crate::window::Window;
use field::Field;
use std::array;

// A polynomial of degree below sixteen, the lowest coefficient first.
#[derive(Clone, Copy)]
pub struct Row<F> {
    pub degree: usize,
    pub coefficients: [F; 16],
}

impl<F: Field + Copy> Row<F> {
    // x to the power i.
    fn power(i: usize) -> Row<F>
        requires { i < 16 }
        ensures degree { result.degree ≡ i }
        ensures monic { Monic F.Adds.group F.Field.ring i result.coefficients }
    {
        let mut coefficients = [F::zero(); 16];
        coefficients[i] = F::unit();
        Row {
            degree: i,
            coefficients,
        }
    }

    // The sum of the window's syndromes, each times its coefficient.
    fn apply(&self, window: &Window<'_, F>) -> F
        ensures { result ≡ applied_to F.Adds.group F.Field.ring self.now.coefficients window.now }
    {
        let mut sum = F::zero();
        for (a, y) in self.coefficients[..window.n]
            .iter()
            .zip(&window.s[window.k..])
        {
            sum = sum.add(a.mul(*y));
        }
        sum
    }

    // The row less that multiple of the pivot which makes it annihilate the window too.
    // The inverse of what the pivot leaves there is given.
    fn reduce(&self, pivot: &Row<F>, over: F, window: &Window<'_, F>) -> Row<F>
        requires row { Candidate F.Adds.group F.Field.ring window.now.s.now window.now.n window.now.k self.now }
        requires pivot { Candidate F.Adds.group F.Field.ring window.now.s.now window.now.n window.now.k pivot.now }
        requires lower { pivot.now.degree < self.now.degree }
        requires remains { applied_to F.Adds.group F.Field.ring pivot.now.coefficients window.now ≢ F.Adds.group.zero }
        requires inverse { over ≡ F.Field.ring.over (applied_to F.Adds.group F.Field.ring pivot.now.coefficients window.now) }
        ensures degree { result.degree ≡ self.now.degree }
        ensures candidate { Candidate F.Adds.group F.Field.ring window.now.s.now window.now.n (window.now.k + 1) result }
    {
        let a = self.apply(window);
        let q = a.mul(over).neg();
        let coefficients = add_times(self.coefficients, &pivot.coefficients, q);
        Row {
            degree: self.degree,
            coefficients,
        }
    }
}

// The coefficients v and q times the coefficients p.
fn add_times<F: Field + Copy>(v: [F; 16], p: &[F; 16], q: F) -> [F; 16]
    ensures { Added F.Adds.group F.Field.ring v p.now q result 16 }
{
    array::from_fn(
        |j| -> F
            requires { j < 16 }
            ensures { result ≡ F.Adds.group.plus (slice_index_or v j F.Adds.group.zero) (F.Field.ring.times q (slice_index_or p.entry.now j F.Adds.group.zero)) }
        { v[j].add(q.mul(p[j])) },
    )
}

// The first of the rows that does not annihilate the window.
fn first_open<F: Field + Copy>(rows: &[Row<F>], window: &Window<'_, F>) -> Option<usize>
    ensures { MatchOption result ((i : ℕ) → i < length rows.now → applied_to F.Adds.group F.Field.ring (row_at rows.now i).coefficients window.now ≡ F.Adds.group.zero)
        (λ p. (p < length rows.now) × (applied_to F.Adds.group F.Field.ring (row_at rows.now p).coefficients window.now ≢ F.Adds.group.zero)
        × ((i : ℕ) → i < p → applied_to F.Adds.group F.Field.ring (row_at rows.now i).coefficients window.now ≡ F.Adds.group.zero)) }
{
    rows.iter().position(
        |row| -> bool
            ensures { MatchBool result (applied_to F.Adds.group F.Field.ring row.now.coefficients window.entry.now ≢ F.Adds.group.zero) (applied_to F.Adds.group F.Field.ring row.now.coefficients window.entry.now ≡ F.Adds.group.zero) }
        { !row.apply(window).is_zero() },
    )
}

// Takes one of the rows away, so that each of the others annihilates the window too; they go to the front.
fn eliminate<F: Field + Copy>(rows: &mut [Row<F>], window: &Window<'_, F>)
    requires { Stage F.Adds.group F.Field.ring rows.old (length rows.old) window.now.s.now window.now.n window.now.k }
    ensures { Stage F.Adds.group F.Field.ring rows.new (length rows.old - 1) window.now.s.now window.now.n (window.now.k + 1) }
{
    if let Some(p) = first_open(rows, window) {
        let pivot = rows[p];
        let over = pivot.apply(window).inv();
        // By index: each row is written one place below that from which it is read.
        for i in p + 1..rows.len() {
            rows[i - 1] = rows[i].reduce(&pivot, over, window);
        }
    }
}

// Makes the rows the powers of x.
fn start<F: Field + Copy>(rows: &mut [Row<F>])
    requires { length rows.old ≤ 16 }
    ensures { Powers F.Adds.group F.Field.ring rows.new (length rows.old) }
{
    for (i, row) in rows.iter_mut().enumerate() {
        *row = Row::power(i);
    }
}

// A row of degree below the number of rows that annihilates as many places but one. The rows are for the work.
pub(crate) fn locate<F: Field + Copy>(rows: &mut [Row<F>], s: &[F]) -> Row<F>
    requires rows { (0 < length rows.old) × (length rows.old ≤ 16) }
    requires syndromes { 2 * (length rows.old - 1) ≤ length s.now }
    ensures { Candidate F.Adds.group F.Field.ring s.now (length rows.old) (length rows.old - 1) result }
{
    let n = rows.len();
    start(rows);
    // k is the place to annihilate, and no index.
    for k in 0..n - 1 {
        eliminate(&mut rows[..n - k], &Window { s, k, n });
    }
    rows[0]
}
