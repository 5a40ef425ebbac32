//! What the outside does at the moments of a run.

use dp_actions::Halt;
use dp_state::{MomentKind, State};

/// What happens at a moment.
pub(crate) trait Outside {
    ghost use Rattle.dp_meaning.specs.inner.Drive.{Evaluates, Rules, moment_run};

    ghost rules: { Self → Rules };

    /// A moment comes on this line of the top frame.
    fn at_moment(&self, kind: MomentKind, line: u32, state: &mut State) -> Result<(), Halt>
        ensures { Evaluates (rules self.now) (moment_run kind line state.old) result state.new };
}
