//! Moments at which writes are made, up to a stop.

use crate::moment_writes::write_all;
use crate::moments::moment_of;
use crate::outside::Outside;
use crate::writes::NumberedWrite;
use dp_actions::Halt;
use dp_state::{MomentKind, Outcome, State};
use dp_tree::{Boxed, Bundle};
use std::alloc::Global;

/// Writes, a bound, and the number of the moment at which the run stops.
#[derive(Drop)]
pub(crate) struct Written<'a> {
    pub(crate) bundle: &'a Bundle,
    pub(crate) writes: &'a [NumberedWrite],
    pub(crate) stop: u64,
    pub(crate) bound: u64,
    pub(crate) alloc: Global,
}

impl Outside for Written<'_> {
    ghost use Rattle.dp_meaning.specs.inner.Drive.{at_number};
    ghost use Rattle.dp_meaning.specs.Writes.{writes_of};

    ghost rules = { λ w. record {
      bound = w.bound;
      halts = at_number w.stop;
      writes = writes_of w.bundle.now w.writes.now;
    } };

    fn at_moment(&self, kind: MomentKind, line: u32, state: &mut State) -> Result<(), Halt> {
        if state.moments >= self.bound {
            return Err(Halt::Finished(Outcome::Bound));
        }
        let number = state.moments + 1;
        state.count();
        state.set_line(line);
        if number == self.stop {
            let moment = Boxed::new(self.alloc, moment_of(kind, state)?)?;
            write_all(self.alloc, self.bundle, self.writes, number, state)?;
            return Err(Halt::Stopped(moment));
        }
        write_all(self.alloc, self.bundle, self.writes, number, state)
    }
}
