// A window into syndromes.
ghost use Rattle.std.specs.Prelude.{◌+◌, ◌≤◌, length};

// The n syndromes from the place k on, to which rows of n coefficients are applied.
// s stays whole, with a place in it: contracts speak of the syndromes before k too, and no ghost field holds a list.
#[derive(Drop)]
pub(crate) struct Window<'a, F> {
    pub(crate) s: &'a [F],
    pub(crate) k: usize,
    pub(crate) n: usize,
    ghost fits: { (n ≤ 16) × (k + n ≤ length s.now) },
}
