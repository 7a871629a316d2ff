// The three rates. Each is a table of letters and what a rate of anyone would say.
#![tactic(auto)]

ghost use Rattle.std.specs.Prelude.{refl};
ghost use Rattle.lanes.specs.Letters.{letters_eight, letters_sixteen, layout_200, layout_400, layout_short};
ghost use Rattle.lanes.specs.Markers.{wrong};
ghost use Rattle.lanes.proofs.Tables.{lawful};

use lanes::{Rate, marker_of};

const EIGHT: [[u8; 5]; 8] = [
    [0x05, 0xD6, 0xB3, 0xC0, 0x8C],
    [0x04, 0x67, 0x5A, 0xDE, 0x7E],
    [0x46, 0xFE, 0x3E, 0xF3, 0x56],
    [0x5A, 0x84, 0x86, 0x80, 0xD0],
    [0xE1, 0x19, 0x2A, 0x51, 0xF2],
    [0xF2, 0x4E, 0x12, 0x4F, 0xD1],
    [0x3D, 0xEE, 0x42, 0x9C, 0xA1],
    [0x22, 0x32, 0xD6, 0x76, 0x5B],
];

const SIXTEEN: [[u8; 5]; 16] = [
    [0xB6, 0xD9, 0x01, 0x71, 0xF3],
    [0x04, 0x67, 0x5A, 0xDE, 0x7E],
    [0x46, 0xFE, 0x3E, 0xF3, 0x56],
    [0x5A, 0x84, 0x86, 0x80, 0xD0],
    [0xE1, 0x19, 0x2A, 0x51, 0xF2],
    [0xF2, 0x4E, 0x12, 0x4F, 0xD1],
    [0x3D, 0xEE, 0x42, 0x9C, 0xA1],
    [0x22, 0x32, 0xD6, 0x76, 0x5B],
    [0x60, 0x9F, 0xE1, 0x73, 0x75],
    [0x6B, 0xA2, 0x71, 0xC4, 0x3C],
    [0xFA, 0x04, 0x95, 0xEB, 0xD8],
    [0x6C, 0x71, 0x22, 0x66, 0x38],
    [0x18, 0x5B, 0xA2, 0xF6, 0x95],
    [0x14, 0xCC, 0x31, 0x97, 0xC3],
    [0xD0, 0xB1, 0xCA, 0xFB, 0xA6],
    [0xB4, 0x56, 0xA6, 0xBA, 0x79],
];

pub struct Rate200;

impl Rate for Rate200 {
    const LANES: usize = 8;

    const PAIRS: usize = 2048;

    ghost LANES = { 8 };

    ghost PAIRS = { 2048 };

    ghost layout = { layout_200 };

    ghost constants = { (refl, refl) };

    ghost lawful = { lawful letters_eight 2048 (unfold wrong in refl) };

    fn marker(lane: usize) -> [u8; 15] {
        marker_of(&EIGHT, lane)
    }
}

pub struct Rate400;

impl Rate for Rate400 {
    const LANES: usize = 16;

    const PAIRS: usize = 4096;

    ghost LANES = { 16 };

    ghost PAIRS = { 4096 };

    ghost layout = { layout_400 };

    ghost constants = { (refl, refl) };

    ghost lawful = { lawful letters_sixteen 4096 (unfold wrong in refl) };

    fn marker(lane: usize) -> [u8; 15] {
        marker_of(&SIXTEEN, lane)
    }
}

// Short periods, for tests; the markers of 200. The pairs are no const parameter: the law does not hold for every number of
// them.
pub struct RateShort;

impl Rate for RateShort {
    const LANES: usize = 8;

    const PAIRS: usize = 16;

    ghost LANES = { 8 };

    ghost PAIRS = { 16 };

    ghost layout = { layout_short };

    ghost constants = { (refl, refl) };

    ghost lawful = { lawful letters_eight 16 (unfold wrong in refl) };

    fn marker(lane: usize) -> [u8; 15] {
        marker_of(&EIGHT, lane)
    }
}
