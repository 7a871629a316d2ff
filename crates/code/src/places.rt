// The points of the places of a word, and the roots of a codeword.
ghost use Rattle.code.specs.Lifting.{Points, RootsOf};

use super::symbols::{ROOTS, SIZE};
use gf1024::Element;

#[derive(Drop)]
pub struct Places {
    // The powers of alpha, the highest first.
    pub points: [Element; SIZE],
    // The first thirty powers of alpha.
    pub roots: [Element; ROOTS],
    ghost filled: { Points 544 points },
    ghost powers: { RootsOf 30 roots },
}

impl Places {
    pub fn new() -> Places
        ensures points { Points 544 result.points }
        ensures roots { RootsOf 30 result.roots }
    {
        Places {
            points: std::array::from_fn(|i| gf1024::alpha_power(SIZE - 1 - i)),
            roots: std::array::from_fn(gf1024::alpha_power),
        }
    }
}
