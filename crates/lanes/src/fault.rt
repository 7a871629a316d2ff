// Faults: what was lost, where and when.
ghost use Rattle.std.specs.Prelude.{◌≡◌};
ghost use Rattle.lanes.specs.Faults.{layer_of, number_of};

// What was lost, or set back.
#[derive(Clone, Copy, PartialEq, Eq, Debug)]
pub enum Cause {
    // Five failed markers in a row at one position.
    FiveFailedMarkers,
}

// The layer of lanes. A layer above has causes of its own.
const LAYER: u8 = 1;

impl Cause {
    // The layer that the cause is told by.
    pub fn layer(self) -> u8
        ensures { result ≡ layer_of self }
    {
        LAYER
    }

    // Its number among the causes of its layer. By name, not as a conversion: a u8 alone could be the layer as well.
    pub fn number(self) -> u8
        ensures { result ≡ number_of self }
    {
        match self {
            Cause::FiveFailedMarkers => 1,
        }
    }
}

// A loss or setback by its cause, with the position and the accepted ticks of the hunt.
#[derive(Clone, Copy, PartialEq, Eq, Debug)]
pub struct Fault {
    pub cause: Cause,
    pub position: usize,
    pub ticks: u64,
}
