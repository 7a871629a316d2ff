// What a rate fixes.
ghost use Rattle.std.specs.Prelude.{◌≡◌, ℕ};
ghost use Rattle.lanes.specs.Letters.{ThreePeriods};
ghost use Rattle.lanes.specs.Markers.{marker_at};
ghost use Rattle.lanes.specs.Rates.{Layout, marker_period};
ghost use Rattle.lanes.specs.Lawful.{Lawful};

pub trait Rate {
    const LANES: usize;
    // The pairs of codewords in a marker period.
    const PAIRS: usize;

    ghost LANES: { ℕ };

    ghost PAIRS: { ℕ };

    ghost layout: { Layout };

    // The marker of a lane; zeros past the lanes. By a rule of the project its octets come from a function with laws, so
    // that anyone may add a lawful rate.
    fn marker(lane: usize) -> [u8; 15]
        ensures { result ≡ marker_at layout lane };

    // A clause that names a constant wants a member of its name. Clauses of other items name `layout`, and their code calls
    // `lane_count` and `pair_count`.
    ghost constants: { (LANES ≡ layout.lanes) × (PAIRS ≡ layout.pairs) };

    ghost lawful: { Lawful layout };
}

// The lanes of a rate.
pub fn lane_count<R: Rate>() -> usize
    ensures { result ≡ R.layout.lanes }
{
    R::LANES
}

// The pairs of codewords in a marker period.
pub fn pair_count<R: Rate>() -> usize
    ensures { result ≡ R.layout.pairs }
{
    R::PAIRS
}

// The bits of a pair of codewords.
pub const PAIR_BITS: usize = 10880;

// The ticks from one marker of a lane to the next.
pub fn period<R: Rate>() -> usize
    ensures ticks { result ≡ marker_period R.layout }
    ensures three { ThreePeriods }
{
    pair_count::<R>() * (PAIR_BITS / lane_count::<R>())
}
