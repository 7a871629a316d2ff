// The marker test of a window: the last 120 bits of a position, the oldest lowest.
ghost use Rattle.std.specs.Prelude.{◌≡◌, nat_le};
ghost use Rattle.bits.specs.Bits.{nth};
ghost use Rattle.lanes.specs.Folds.{folded, octets_of, lowest_bits};
ghost use Rattle.lanes.specs.Markers.{marker_bits, symbol_in, octets_number, nibble, wrong, passes, found, Only, FindsSent};

use crate::rate::{Rate, lane_count};

// The octets that all markers share, or those by which a lane is told.
#[derive(Clone, Copy)]
enum Part {
    Shared,
    Own,
}

impl Part {
    // The lowest bit of each nibble of its octets. By name, not as a conversion: it is a mask of the part, not the part.
    fn nibbles(self) -> u128
        ensures { result ≡ lowest_bits (octets_of self) }
    {
        match self {
            Part::Shared => 0x11_1111_0011_1111,
            Part::Own => 0x11_1111_0011_1111_0000_0000_0000_0000,
        }
    }
}

// The octets that all markers share.
const SHARED_OCTETS: u128 = 0xD9_B565_0026_4A9A;

// The nibbles of either part that may differ.
const MOST_WRONG: u32 = 3;

// The lowest bit of each nibble is set where some bit of the nibble is.
fn folded(x: u128) -> u128
    ensures { result ≡ folded x }
{
    let pairs = x | (x >> 1);
    pairs | (pairs >> 2)
}

// The octets as a number, the first lowest.
#[tactic(auto, unfolding(crate::specs::Markers::octets_number))]
fn number(octets: [u8; 15]) -> u128
    ensures { result ≡ octets_number (nth octets) 15 }
{
    let mut bytes = [0; 16];
    bytes[..15].copy_from_slice(&octets);
    u128::from_le_bytes(bytes)
}

// The rows of symbols of a marker.
const MARKER_ROWS: usize = 12;

// Symbol `row` of a lane's marker: ten bits, the first lowest. It is 0 past the marker, and past the lanes.
#[tactic(auto, using(crate::proofs::MarkerSymbols::symbol_here, crate::proofs::MarkerSymbols::symbol_beyond))]
pub fn marker_symbol<R: Rate>(lane: usize, row: usize) -> u16
    ensures { result ≡ symbol_in (marker_bits R.layout lane) row }
{
    if row >= MARKER_ROWS {
        return 0;
    }
    ((number(R::marker(lane)) >> (10 * row)) % 1024) as u16
}

// A part of the window is near to a marker's.
#[tactic(auto, using(crate::proofs::Folding::part_counted))]
fn is_near(window: u128, marker: u128, part: Part) -> bool
    ensures { result ≡ nat_le (wrong (nibble window) (nibble marker) (octets_of part)) 3 }
{
    (folded(window ^ marker) & part.nibbles()).count_ones() <= MOST_WRONG
}

// The window passes for a lane; for none past the lanes.
#[tactic(auto, using(crate::proofs::Lanes::passes_here, crate::proofs::Lanes::passes_past))]
pub fn passes<R: Rate>(window: u128, lane: usize) -> bool
    ensures { result ≡ passes R.layout window lane }
{
    lane < lane_count::<R>()
        && is_near(window, SHARED_OCTETS, Part::Shared)
        && is_near(window, number(R::marker(lane)), Part::Own)
}

// The lane for which the window passes. It passes for at most one.
pub fn found_lane<R: Rate>(window: u128) -> Option<usize>
    ensures lane { result ≡ found R.layout window }
    ensures only { Only R.layout window result }
    ensures sent { FindsSent R.layout window result }
{
    (0..lane_count::<R>()).find(|lane| passes::<R>(window, *lane))
}
