// Faults: what was set back, where and when.
ghost use Rattle.std.specs.Prelude.{◌≡◌};
ghost use Rattle.receiver.specs.Faults.{layer_number, cause_number};
ghost use Rattle.receiver.specs.declared.fault.Fault.TheVariants.{Lanes, Alignment};

// What is wrong between the positions.
#[derive(Clone, Copy, PartialEq, Eq, Debug)]
pub enum Cause {
    // Two positions have one lane.
    LaneTwice,
    // The markers lie too far apart.
    Skew,
}

// The layer of alignment. The layers below have causes of their own.
const LAYER: u8 = 2;

impl Cause {
    // The layer that the cause is told by.
    pub fn layer(self) -> u8
        ensures { result ≡ layer_number self }
    {
        LAYER
    }

    // Its number, which no cause of another layer has. By name, not as a conversion: a u8 alone could be the layer as well.
    pub fn number(self) -> u8
        ensures { result ≡ cause_number self }
    {
        match self {
            Cause::LaneTwice => 2,
            Cause::Skew => 3,
        }
    }
}

// A setback of this layer by its cause, with the position and the accepted ticks of the hunt.
#[derive(Clone, Copy, PartialEq, Eq, Debug)]
pub struct Misaligned {
    pub cause: Cause,
    pub position: usize,
    pub ticks: u64,
}

// A setback, by the layer that tells it.
#[derive(Clone, Copy, PartialEq, Eq, Debug)]
pub enum Fault {
    Lanes(lanes::Fault),
    Alignment(Misaligned),
}

// `?` hands a fault of the lanes up.
impl From<lanes::Fault> for Fault {
    ghost from_gives = { λ e r. r ≡ Lanes e };

    fn from(e: lanes::Fault) -> Fault {
        Fault::Lanes(e)
    }
}

impl From<Misaligned> for Fault {
    ghost from_gives = { λ e r. r ≡ Alignment e };

    fn from(e: Misaligned) -> Fault {
        Fault::Alignment(e)
    }
}

impl Fault {
    ghost use Rattle.receiver.specs.Faults.{layer_of, cause_of, position_of, ticks_of};

    // Lanes 1, alignment 2.
    pub fn layer(self) -> u8
        ensures { result ≡ layer_of self }
    {
        match self {
            Fault::Lanes(fault) => fault.cause.layer(),
            Fault::Alignment(fault) => fault.cause.layer(),
        }
    }

    // Five failed markers 1, a lane twice 2, skew 3.
    pub fn cause(self) -> u8
        ensures { result ≡ cause_of self }
    {
        match self {
            Fault::Lanes(fault) => fault.cause.number(),
            Fault::Alignment(fault) => fault.cause.number(),
        }
    }

    pub fn position(self) -> usize
        ensures { result ≡ position_of self }
    {
        match self {
            Fault::Lanes(fault) => fault.position,
            Fault::Alignment(fault) => fault.position,
        }
    }

    // The accepted ticks of the hunt, the one that told it included.
    pub fn ticks(self) -> u64
        ensures { result ≡ ticks_of self }
    {
        match self {
            Fault::Lanes(fault) => fault.ticks,
            Fault::Alignment(fault) => fault.ticks,
        }
    }
}
