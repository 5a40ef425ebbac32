//! The evaluator: it does what the meaning says, moment by moment.

use crate::outside::Outside;
use dp_actions::Halt;
use dp_state::{MomentKind, State};
use dp_tree::Bundle;
use std::alloc::Global;

/// What an evaluation goes by.
#[derive(Drop)]
pub(crate) struct Evaluator<'a, O> {
    pub(crate) bundle: &'a Bundle,
    pub(crate) outside: &'a O,
    pub(crate) alloc: Global,
    /// How many moments the run may have.
    pub(crate) bound: u64,
    /// How many frames more can be on the stack.
    pub(crate) depth: u64,
}

impl<O: Outside> Evaluator<'_, O> {
    ghost use Rattle.dp_state.specs.declared.moments.MomentKind.TheVariants as moment;
    ghost use Rattle.dp_meaning.specs.inner.Drive.{Evaluates, moment_run};

    /// A moment before a statement, a test or a binding on this line.
    pub(crate) fn place(&self, line: u32, state: &mut State) -> Result<(), Halt>
        ensures { Evaluates (O.rules self.now.outside.now) (moment_run moment.Place line state.old) result state.new }
    {
        self.outside.at_moment(MomentKind::Place, line, state)
    }
}
