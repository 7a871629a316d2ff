// What is printed of a hunt.
ghost use Rattle.std.specs.Prelude.{◌≡◌, IfOk, string_bytes};
ghost use Rattle.hunt.specs.Lines.{setback_line, position_line};

use receiver::Fault;
use std::alloc::{AllocError, Global};

// The line of a setback.
pub(crate) fn setback_line(alloc: Global, fault: Fault) -> Result<String, AllocError>
    ensures { IfOk result (λ s. string_bytes s ≡ setback_line fault) }
{
    let layer = fault.layer();
    let cause = fault.cause();
    let position = fault.position();
    let ticks = fault.ticks();
    format!(in alloc; "setback {layer} {cause} {position} {ticks}\n")
}

// The line of a position of a receiver that is ready.
pub(crate) fn position_line(
    alloc: Global,
    position: usize,
    lane: usize,
    skew: i64,
) -> Result<String, AllocError>
    ensures { IfOk result (λ s. string_bytes s ≡ position_line position lane skew) }
{
    format!(in alloc; "{position} {lane} {skew}\n")
}
