// The error places: the roots of the locator among the points.
ghost use Rattle.std.specs.Prelude.{◌≡◌, ℕ, ◌<◌, ◌≤◌, drop, length, min, slice_index_or};
ghost use Rattle.decoder.specs.Words.{Values, falling};
ghost use Rattle.decoder.specs.Errors.{Found};

use field::Field;

// Makes all of s zero.
fn clear<F: Field + Copy>(s: &mut [F])
    ensures { (k : ℕ) → k < length s.old → slice_index_or s.new k F.Adds.group.zero ≡ F.Adds.group.zero }
{
    s.fill_with(
        || -> F
            ensures { result ≡ F.Adds.group.zero }
        { F::zero() },
    );
}

// The values at the points of the polynomial with the coefficients v, lowest first: at as many points as there is room for.
pub fn evaluate<F: Field + Copy>(v: &[F], points: &[F], values: &mut [F])
    ensures values { Values F.Adds.group F.Field.ring (falling F.Adds.group v.now (length v.now)) (length v.now) points.now (min (length points.now) (length values.old)) values.new }
    ensures rest { drop (length points.now) values.new ≡ drop (length points.now) values.old }
{
    let n = points.len().min(values.len());
    put_values(v, &points[..n], &mut values[..n]);
}

// The same at all points.
fn put_values<F: Field + Copy>(v: &[F], points: &[F], values: &mut [F])
    requires { length points.now ≤ length values.old }
    ensures { Values F.Adds.group F.Field.ring (falling F.Adds.group v.now (length v.now)) (length v.now) points.now (length points.now) values.new }
{
    clear(values);
    // All values coefficient by coefficient: in a sketch in C one value after another took 1.5 times as long for 16 coefficients.
    for c in v.iter().rev() {
        // By index: a zip over `values.iter_mut()` says nothing of what is written.
        for (i, x) in points.iter().enumerate() {
            values[i] = values[i].mul(*x).add(*c);
        }
    }
}

// Lists the places whose points are roots; the values are for the work.
pub(crate) fn find<'a, F: Field + Copy>(
    v: &[F],
    points: &[F],
    values: &mut [F; 544],
    found: &'a mut [usize; 544],
) -> &'a [usize]
    requires { length points.now ≤ 544 }
    ensures { Found F.Adds.group F.Field.ring v.now (length v.now) points.now (length points.now) result.now (length result.now) }
{
    let values = &mut values[..points.len()];
    put_values(v, points, values);
    // By a count: a zip over `found.iter_mut()` says nothing of what is written.
    let mut count = 0;
    for (i, y) in values.iter().enumerate() {
        if y.is_zero() {
            found[count] = i;
            count += 1;
        }
    }
    &found[..count]
}
