// Faults: what was lost, where and when.
ghost use Rattle.std.specs.Prelude.{◌≡◌};
ghost use Rattle.code.specs.Faults.{layer_of, cause_number};

// What was lost.
#[derive(Clone, Copy, PartialEq, Eq, Debug)]
pub enum Cause {
    // Three refusals in a row of one word of a pair.
    ThreeRefusals,
}

// The layer of the code. The layers around it have causes of their own.
const LAYER: u8 = 3;

impl Cause {
    // The layer that the cause is told by.
    pub fn layer(self) -> u8
        ensures { result ≡ layer_of self }
    {
        LAYER
    }

    // Its number, which no cause of another layer has. By name, not as a conversion: a u8 alone could be the layer as well.
    pub fn number(self) -> u8
        ensures { result ≡ cause_number self }
    {
        match self {
            Cause::ThreeRefusals => 4,
        }
    }
}

// A loss by its cause, with the position, 0 for word A and 1 for word B, and the accepted ticks of the hunt.
#[derive(Clone, Copy, PartialEq, Eq, Debug)]
pub struct Fault {
    pub cause: Cause,
    pub position: usize,
    pub ticks: u64,
}
