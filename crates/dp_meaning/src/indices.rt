//! The evaluation of entries under indices.

#![tactic(auto, using(crate::proofs::Drives::evaluating))]

use crate::evaluator::Evaluator;
use crate::outside::Outside;
use dp_actions::{Halt, Reading, then_entry};
use dp_state::State;
use dp_tree::Expression;
use dp_value::Value;

impl<O: Outside> Evaluator<'_, O> {
    ghost use Rattle.std.specs.Prelude.{map};
    ghost use Rattle.dp_meaning.specs.inner.Drive.{Evaluates};
    ghost use Rattle.dp_meaning.specs.inner.Evaluation.{goes_by};
    ghost use Rattle.dp_actions.specs.inner.Bases.{base_run, entry_under};
    ghost use Rattle.dp_actions.specs.InPlace.{entries_by};
    ghost use Rattle.dp_actions.specs.Expressions.{expression_run, indices_run};

    /// The value of an expression under indices. Nothing is copied but the entry that is read.
    #[cycle(evaluate)]
    pub(crate) fn index(
        &self,
        reading: Reading,
        base: &Expression,
        indices: &[Expression],
        state: &mut State,
    ) -> Result<Value, Halt>
        ensures { Evaluates (O.rules self.now.outside.now) (entry_under reading (expression_run base.now)
            (map expression_run indices.now) (goes_by self.now) state.old) result state.new }
    {
        let value = self.base(reading, base, state)?;
        self.under(reading, value, indices, state)
    }

    /// The value of what indices stand behind.
    #[cycle(evaluate)]
    fn base(&self, reading: Reading, e: &Expression, state: &mut State) -> Result<Value, Halt>
        ensures { Evaluates (O.rules self.now.outside.now) (base_run reading (expression_run e.now)
            (goes_by self.now) state.old) result state.new }
    {
        match reading {
            Reading::Plain => self.expression(e, state),
            Reading::Found => self.found(e, state),
        }
    }

    /// A value under indices.
    #[cycle(evaluate)]
    fn under(
        &self,
        reading: Reading,
        base: Value,
        indices: &[Expression],
        state: &mut State,
    ) -> Result<Value, Halt>
        ensures { Evaluates (O.rules self.now.outside.now) (indices_run (entries_by reading)
            (map expression_run indices.now) base (goes_by self.now) state.old) result state.new }
    {
        let mut value = base;
        for e in indices {
            let at = self.expression(e, state);
            value = then_entry(self.alloc, reading, value, at, state)?;
        }
        Ok(value)
    }
}
