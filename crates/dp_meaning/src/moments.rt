//! The moments of a run.

ghost use Rattle.std.specs.Prelude.{◌≡◌, ◌^◌, ◌≤◌, ◌⊎◌, length, IfOk, IsSome, OnErr};
ghost use Rattle.dp_meaning.specs.Trace.{function_called, function_of as name_of, moment_of as moment_at};

use dp_bytes::{Bytes, Memory};
use dp_state::{FrameKind, Moment, MomentKind, State};

/// The moment that has come in a state. Memory is taken for the name of the function that is entered or left; `Memory`
/// is answered also if the frames cannot be counted in 32 bits.
pub fn moment_of(kind: MomentKind, state: &State) -> Result<Moment, Memory>
    ensures moment { IfOk result (λ moment. moment ≡ moment_at kind state.now) }
    ensures memory { OnErr result (IsSome (name_of kind state.now) ⊎ (2 ^ 32 ≤ length state.now.frames)) }
{
    let Ok(depth) = u32::try_from(state.frames.len()) else {
        return Err(Memory);
    };
    Ok(Moment {
        number: state.moments,
        kind,
        file: state.file(),
        line: state.line(),
        depth,
        function: function_of(kind, state)?,
    })
}

/// The function that is entered or left.
fn function_of(kind: MomentKind, state: &State) -> Result<Option<Bytes>, Memory>
    ensures name { IfOk result (λ name. name ≡ name_of kind state.now) }
    ensures memory { OnErr result (IsSome (name_of kind state.now)) }
{
    match kind {
        MomentKind::Place => Ok(None),
        MomentKind::Enter => called(state),
        MomentKind::Leave => called(state),
    }
}

/// The name of the function of the top frame.
fn called(state: &State) -> Result<Option<Bytes>, Memory>
    ensures name { IfOk result (λ name. name ≡ function_called state.now) }
    ensures memory { OnErr result (IsSome (function_called state.now)) }
{
    match state.frames.as_slice().last() {
        None => Ok(None),
        Some(frame) => match &frame.kind {
            FrameKind::Main => Ok(None),
            FrameKind::Called(name) => Ok(Some(name.try_clone()?)),
            FrameKind::Included => Ok(None),
        },
    }
}
