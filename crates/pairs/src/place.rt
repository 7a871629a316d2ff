// Where a symbol stands in the two words of a pair, and on the lanes.
ghost use Rattle.std.specs.Prelude.{◌≡◌, ◌/◌, ◌<◌};
ghost use Rattle.pairs.specs.Laws.{OneToOne};
ghost use Rattle.pairs.specs.Places.{row_count, carried, on_lane, in_word};

use crate::message::WORD_SYMBOLS;
use lanes::{Rate, lane_count};

const WORDS: usize = 2;

// A symbol of word A, 0, or of word B, 1, by its index.
#[derive(Clone, Copy, PartialEq, Eq, Debug)]
pub struct WordPlace {
    pub word: usize,
    pub index: usize,
}

// A symbol of a lane by its row.
#[derive(Clone, Copy, PartialEq, Eq, Debug)]
pub struct LanePlace {
    pub lane: usize,
    pub row: usize,
}

// The rows of a pair.
fn row_count<R: Rate>() -> usize
    ensures { result ≡ row_count R.layout.lanes }
{
    WORDS * WORD_SYMBOLS / lane_count::<R>()
}

impl WordPlace {
    // Where the symbol goes out on the lanes of a rate; none outside the two words.
    pub fn on_lane<R: Rate>(self) -> Option<LanePlace>
        ensures place { result ≡ on_lane R.layout.lanes self }
        ensures laws { OneToOne R.layout.lanes }
    {
        let WordPlace { word, index } = self;
        if word >= WORDS || index >= WORD_SYMBOLS {
            return None;
        }
        let half = lane_count::<R>() / 2;
        let row = index / half;
        Some(LanePlace {
            lane: 2 * (index % half) + (row + word) % 2,
            row,
        })
    }
}

impl LanePlace {
    // The place in the words of a place that is on the lanes.
    pub(crate) fn word_place<R: Rate>(self) -> WordPlace
        requires { (self.lane < R.layout.lanes) × (self.row < row_count R.layout.lanes) }
        ensures { result ≡ carried R.layout.lanes self }
    {
        let LanePlace { lane, row } = self;
        WordPlace {
            word: (lane + row) % 2,
            index: lane_count::<R>() / 2 * row + lane / 2,
        }
    }

    // The symbol of the words that a lane of a rate carries in this row; none outside the lanes and rows.
    pub fn in_word<R: Rate>(self) -> Option<WordPlace>
        ensures place { result ≡ in_word R.layout.lanes self }
        ensures laws { OneToOne R.layout.lanes }
    {
        if self.lane >= lane_count::<R>() || self.row >= row_count::<R>() {
            return None;
        }
        Some(self.word_place::<R>())
    }
}
