// An element of the field, as a number below 1,024.
ghost use Rattle.std.specs.Prelude.{◌<◌};

#[derive(Clone, Copy, PartialEq, Eq, Debug)]
pub struct Element {
    pub value: u16,
    ghost small: { value < 1024 },
}
