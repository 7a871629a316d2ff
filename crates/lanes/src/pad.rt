// The pad generator. It stops between markers and goes on at the next.
ghost use Rattle.std.specs.Prelude.{◌≡◌, ◌<◌};
ghost use Rattle.bits.specs.Bits.{table, nth};

use blocks::Refusal;

// The last nine pad bits, the newest lowest. No `Copy`: a copy would go on from its own place, and put out bits again.
#[derive(Drop, Debug)]
pub struct Pad {
    memory: u16,
    ghost small: { memory < 512 },
}

impl Pad {
    ghost use Rattle.lanes.specs.Pads.{pad_before, pad_bit, pad_memory, PadStarted};

    // From a start value of 1 to 511: its bit k - 1 is the pad bit k before the first.
    pub fn new(start: u16) -> Result<Pad, Refusal>
        ensures { PadStarted start result }
    {
        if (1..=511).contains(&start) {
            Ok(Pad { memory: start })
        } else {
            Err(Refusal::Start)
        }
    }

    // The next pad bit. No `Iterator`, whose `next` answers an `Option`: there is always a next one.
    #[tactic(auto, using(crate::proofs::Padded::pad_next, crate::proofs::Padded::pad_moves))]
    pub fn next(&mut self) -> u8
        ensures bit { result ≡ pad_bit (nth (pad_memory self.old)) 0 }
        ensures memory { pad_memory self.new ≡ table 9 (pad_before (nth (pad_memory self.old)) 1) }
    {
        let memory = self.memory;
        let bit = ((memory >> 4) ^ (memory >> 8)) % 2;
        self.memory = memory * 2 % 512 + bit;
        bit as u8
    }
}
