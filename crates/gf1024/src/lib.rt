// The field of 1,024 elements: polynomials over the field of two elements modulo x^10 + x^3 + 1.
#![tactic(auto, using(crate::specs::Elements::same))]

ghost use Rattle.std.specs.Prelude.{◌≡◌};
ghost use Rattle.field.specs.Sums.{pow};
ghost use Rattle.gf1024.specs.Field.{element, ring, alpha, Laws};

mod element;
mod operations;
mod tables;

pub use element::Element;

// The element of the lowest ten bits. It drops the others, so it is no `From`.
pub fn from_bits(bits: u16) -> Element
    ensures { result ≡ element bits }
{
    Element { value: bits % 1024 }
}

// The power i of alpha, the root of the polynomial; and the laws of the field.
pub fn alpha_power(i: usize) -> Element
    ensures value { result ≡ pow ring alpha i }
    ensures laws { Laws }
{
    tables::exp(i % 1023)
}
