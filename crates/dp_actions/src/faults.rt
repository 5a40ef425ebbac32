//! Faults that end a run.

ghost use Rattle.std.specs.Prelude.{◌≡◌};
ghost use Rattle.dp_state.specs.States.{file_of, line_of};
ghost use Rattle.dp_state.specs.declared.moments.Outcome.TheVariants as way;
ghost use Rattle.dp_actions.specs.declared.halt.Halt.TheVariants as halt;
ghost use Rattle.dp_actions.specs.AtOnce.{halt_of, settled_of};

use crate::halt::Halt;
use dp_state::{FatalKind, Fault, Outcome, State};

/// A fatal fault, in the file and on the line of the top frame.
pub fn fatal(kind: FatalKind, state: &State) -> Halt
    ensures { result ≡ halt.Finished (way.Fatal kind (file_of state.now) (line_of state.now)) }
{
    Halt::Finished(Outcome::Fatal {
        kind,
        file: state.file(),
        line: state.line(),
    })
}

/// Why the run breaks off at this fault: a fatal one in the file and on the line of the top frame, or out of memory.
pub fn fault(why: Fault, state: &State) -> Halt
    ensures { result ≡ halt_of why state.now }
{
    match why {
        Fault::Fatal(kind) => fatal(kind, state),
        Fault::Memory => Halt::Memory,
    }
}

/// The outcome of a step as one of a run.
pub fn settled(step: Result<(), Fault>, state: &State) -> Result<(), Halt>
    ensures { result ≡ settled_of step state.now }
{
    match step {
        Ok(()) => Ok(()),
        Err(why) => Err(fault(why, state)),
    }
}
