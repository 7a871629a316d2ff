// What a field is: its operations, each stated by the ghost operation that it computes, and the laws of those.
#![tactic(auto)]

ghost use Rattle.std.specs.Prelude.{◌≡◌, MatchBool, ◌≢◌};
ghost use Rattle.field.specs.Laws.{Group, AddLaws, Ring, FieldLaws};

// A commutative group under addition.
pub trait Adds: Sized {
    ghost group: { Group Self };

    fn zero() -> Self
        ensures { result ≡ group.zero };

    fn add(self, other: Self) -> Self
        ensures { result ≡ group.plus self other };

    fn neg(self) -> Self
        ensures { result ≡ group.minus self };

    fn is_zero(self) -> bool
        ensures { MatchBool result (self ≡ group.zero) (self ≢ group.zero) };

    ghost adds: { AddLaws group };
}

// A field. `inv` is total; at zero its value is some element of which no law speaks.
pub trait Field: Adds {
    ghost ring: { Ring Self };

    fn unit() -> Self
        ensures { result ≡ ring.one };

    fn mul(self, other: Self) -> Self
        ensures { result ≡ ring.times self other };

    fn inv(self) -> Self
        ensures { result ≡ ring.over self };

    ghost field: { FieldLaws Self.Adds.group ring };
}
