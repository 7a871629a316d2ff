// The operations of the field on its elements.
ghost use Rattle.gf1024.specs.Field.{group, ring};
ghost use Rattle.gf1024.specs.Elements.{add_laws, field_laws};

use super::element::Element;
use super::tables::{exp, log};
use field::{Adds, Field};

impl Adds for Element {
    ghost group = { group };

    ghost adds = { add_laws };

    fn zero() -> Element {
        Element { value: 0 }
    }

    fn add(self, other: Element) -> Element {
        Element {
            value: self.value ^ other.value,
        }
    }

    fn neg(self) -> Element {
        self
    }

    fn is_zero(self) -> bool {
        self == Element::zero()
    }
}

impl Field for Element {
    ghost ring = { ring };

    ghost field = { field_laws };

    fn unit() -> Element {
        Element { value: 1 }
    }

    fn mul(self, other: Element) -> Element {
        match (log(self), log(other)) {
            (Some(i), Some(j)) => exp(i + j),
            _ => Element::zero(),
        }
    }

    fn inv(self) -> Element {
        match log(self) {
            Some(i) => exp(1023 - i),
            None => self,
        }
    }
}
