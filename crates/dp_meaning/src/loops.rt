//! The evaluation of loops.

#![tactic(auto, using(crate::proofs::Drives::evaluating))]

use crate::evaluator::Evaluator;
use crate::outside::Outside;
use dp_actions::{Halt, LoopStep, Signal, after_body, bind_entry};
use dp_state::{Outcome, State};
use dp_tree::{Binding, Expression, Statement};
use dp_value::Value;

impl<O: Outside> Evaluator<'_, O> {
    ghost use Rattle.std.specs.Prelude.{drop};
    ghost use Rattle.dp_meaning.specs.inner.Drive.{Evaluates};
    ghost use Rattle.dp_meaning.specs.inner.Evaluation.{for_part, foreach_part, goes_by};
    ghost use Rattle.dp_actions.specs.Expressions.{evaluation, evaluations, expression_run};
    ghost use Rattle.dp_actions.specs.Loops.{do_turns, each_run, entries, turns};
    ghost use Rattle.dp_actions.specs.Statements.{statement_run};

    /// The turns of a `while` or a `for`, at most so many.
    #[cycle(evaluate)]
    pub(crate) fn turns(
        &self,
        left: u64,
        line: u32,
        tests: &[Expression],
        after: &[Expression],
        body: &Statement,
        state: &mut State,
    ) -> Result<Signal, Halt>
        ensures { Evaluates (O.rules self.now.outside.now) (turns left line (evaluations tests.now (goes_by self.now))
            (evaluations after.now (goes_by self.now)) (statement_run body.now (goes_by self.now)) state.old) result
            state.new }
    {
        for _turn in 0..left {
            self.place(line, state)?;
            let on = self.test(tests, state)?;
            if !on {
                return Ok(Signal::Next);
            }
            match after_body(self.loop_body(body, state)?) {
                LoopStep::On => {}
                LoopStep::Out(signal) => return Ok(signal),
            }
            self.effects(after, state)?;
        }
        Err(Halt::Finished(Outcome::Bound))
    }

    /// A `for`, from its first expressions on.
    #[cycle(evaluate)]
    pub(crate) fn for_turns(
        &self,
        line: u32,
        before: &[Expression],
        tests: &[Expression],
        after: &[Expression],
        body: &Statement,
        state: &mut State,
    ) -> Result<Signal, Halt>
        ensures { Evaluates (O.rules self.now.outside.now) (for_part line before.now tests.now after.now
            (statement_run body.now) (goes_by self.now) state.old) result state.new }
    {
        self.effects(before, state)?;
        self.turns(self.bound, line, tests, after, body, state)
    }

    /// The turns of a `do`, at most so many.
    #[cycle(evaluate)]
    pub(crate) fn do_turns(
        &self,
        left: u64,
        line: u32,
        test: &Expression,
        body: &Statement,
        state: &mut State,
    ) -> Result<Signal, Halt>
        ensures { Evaluates (O.rules self.now.outside.now) (do_turns left line
            (evaluation test.now (goes_by self.now)) (statement_run body.now (goes_by self.now)) state.old) result
            state.new }
    {
        for _turn in 0..left {
            match after_body(self.loop_body(body, state)?) {
                LoopStep::On => {}
                LoopStep::Out(signal) => return Ok(signal),
            }
            self.place(line, state)?;
            let holds = self.holds(test, state)?;
            if !holds {
                return Ok(Signal::Next);
            }
        }
        Err(Halt::Finished(Outcome::Bound))
    }

    /// A `foreach`, from its subject on.
    #[cycle(evaluate)]
    pub(crate) fn foreach(
        &self,
        line: u32,
        binding: &Binding,
        subject: &Expression,
        body: &Statement,
        state: &mut State,
    ) -> Result<Signal, Halt>
        ensures { Evaluates (O.rules self.now.outside.now) (foreach_part line binding.now (expression_run subject.now)
            (statement_run body.now) (goes_by self.now) state.old) result state.new }
    {
        let subject = self.expression(subject, state)?;
        let answer = self.each(0, line, binding, &subject, body, state);
        drop(subject);
        answer
    }

    /// The turns of a `foreach` from the entry at a position on.
    #[cycle(evaluate)]
    pub(crate) fn each(
        &self,
        from: usize,
        line: u32,
        binding: &Binding,
        subject: &Value,
        body: &Statement,
        state: &mut State,
    ) -> Result<Signal, Halt>
        ensures { Evaluates (O.rules self.now.outside.now) (each_run line binding.now
            (drop from (entries subject.now)) (statement_run body.now (goes_by self.now)) state.old) result state.new }
    {
        let Value::Array(array) = subject else {
            return Ok(Signal::Next);
        };
        for at in from..array.len() {
            self.place(line, state)?;
            bind_entry(binding, array, at, state)?;
            match after_body(self.loop_body(body, state)?) {
                LoopStep::On => {}
                LoopStep::Out(signal) => return Ok(signal),
            }
        }
        Ok(Signal::Next)
    }
}
