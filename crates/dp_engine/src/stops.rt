//! The moments at which a command that goes on stops.

ghost use Rattle.std.specs.Prelude.{◌≡◌};
ghost use Rattle.dp_engine.specs.Stops as spec;

use dp_command::Continuation;
use dp_state::{Moment, MomentKind};

/// Whether a moment of this kind is at a place, and not where a function is entered or left.
fn is_place(kind: MomentKind) -> bool
    ensures { result ≡ spec.is_place kind }
{
    match kind {
        MomentKind::Place => true,
        MomentKind::Enter => false,
        MomentKind::Leave => false,
    }
}

/// Whether a command that goes on from this depth stops at a moment, whatever breakpoints are held.
pub(crate) fn is_stop(mode: Continuation, depth: u32, moment: &Moment) -> bool
    ensures { result ≡ spec.stops mode depth moment.now }
{
    match mode {
        Continuation::Run => false,
        Continuation::StepInto => is_place(moment.kind),
        Continuation::StepOver => is_place(moment.kind) && moment.depth <= depth,
        Continuation::StepOut => is_place(moment.kind) && moment.depth < depth,
    }
}
