//! Moments at which nothing is done.

use crate::outside::Outside;
use dp_actions::Halt;
use dp_state::{MomentKind, Outcome, State};

/// A bound alone: nothing is written, and nothing stops the run before it.
#[derive(Drop)]
pub(crate) struct Unwatched {
    pub(crate) bound: u64,
}

impl Outside for Unwatched {
    ghost use Rattle.dp_meaning.specs.inner.Drive.{only_bounded};

    ghost rules = { λ q. only_bounded q.bound };

    fn at_moment(&self, kind: MomentKind, line: u32, state: &mut State) -> Result<(), Halt> {
        let _kind = kind;
        if state.moments >= self.bound {
            return Err(Halt::Finished(Outcome::Bound));
        }
        state.count();
        state.set_line(line);
        Ok(())
    }
}
