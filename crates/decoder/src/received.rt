// A word as it was received, with what the search for errors in it needs.
ghost use Rattle.std.specs.Prelude.{◌≡◌, ◌*◌, ◌<◌, ◌≤◌, length, slice_index_or};
ghost use Rattle.field.specs.Places.{Apart};
ghost use Rattle.decoder.specs.Words.{Syndromes};

use field::Field;

// At most 544 symbols, each with the point of its place; no two points are equal. The reach is how many symbols may be
// changed, and as many syndromes as twice the reach are given.
#[derive(Drop)]
pub struct Received<'a, F: Field> {
    pub symbols: &'a [F],
    pub points: &'a [F],
    pub syndromes: &'a [F],
    pub reach: usize,
    ghost paired: { length points.now ≡ length symbols.now },
    ghost fits: { length symbols.now ≤ 544 },
    ghost apart: { Apart (length points.now) (λ i. slice_index_or points.now i F.Adds.group.zero) },
    ghost small: { reach < 16 },
    ghost given: { 2 * reach ≤ length syndromes.now },
    ghost values: { Syndromes F.Adds.group F.Field.ring symbols.now points.now (length symbols.now) (2 * reach) syndromes.now },
}
