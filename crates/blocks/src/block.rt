// A block: two header bits and 64 payload bits.
ghost use Rattle.std.specs.Prelude.{◌≡◌};
ghost use Rattle.blocks.specs.Blocks.{kind_of, Decodes};

// The two header bits in the order sent: 00, 10, 01 and 11.
#[derive(Clone, Copy, PartialEq, Eq, Debug)]
pub enum Header {
    Zeros,
    Control,
    Data,
    Ones,
}

// A record kind that stands for no header.
#[derive(Clone, Copy, PartialEq, Eq, Debug)]
pub struct UnknownKind(pub u8);

impl TryFrom<u8> for Header {
    type Error = UnknownKind;

    ghost try_from_gives = { Decodes };

    fn try_from(kind: u8) -> Result<Header, UnknownKind> {
        match kind {
            0 => Ok(Header::Zeros),
            1 => Ok(Header::Control),
            2 => Ok(Header::Data),
            3 => Ok(Header::Ones),
            _ => Err(UnknownKind(kind)),
        }
    }
}

impl From<Header> for u8 {
    ghost from_gives = { λ header kind. kind ≡ kind_of header };

    fn from(header: Header) -> u8 {
        match header {
            Header::Zeros => 0,
            Header::Control => 1,
            Header::Data => 2,
            Header::Ones => 3,
        }
    }
}

// The payload's lowest bit is sent first.
#[derive(Clone, Copy, PartialEq, Eq, Debug)]
pub struct Block {
    pub header: Header,
    pub payload: u64,
}
