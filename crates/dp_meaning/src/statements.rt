//! The evaluation of statements.

#![tactic(auto, using(crate::proofs::Drives::evaluating))]

use crate::evaluator::Evaluator;
use crate::outside::Outside;
use dp_actions::{
    Halt, Signal, bind_all, then_define, then_exit, then_print, then_return, then_signal,
    unset_place,
};
use dp_state::{Outcome, State};
use dp_tree::{Arm, Boxed, Definition, Expression, Place, Statement, StatementKind};
use dp_value::Value;
use std::slice;

impl<O: Outside> Evaluator<'_, O> {
    ghost use Rattle.std.specs.Prelude.{map, option_map};
    ghost use Rattle.dp_meaning.specs.inner.Drive.{Evaluates};
    ghost use Rattle.dp_meaning.specs.inner.Evaluation.{goes_by};
    ghost use Rattle.dp_actions.specs.Expressions.{expression_run, place_run};
    ghost use Rattle.dp_actions.specs.Places.{unset_run};
    ghost use Rattle.dp_actions.specs.Statements.{arms_run, body_run, constants_run, echoes, end_run, return_run};
    ghost use Rattle.dp_actions.specs.Statements.{statement_run};
    ghost use Rattle.dp_actions.specs.Statements.{arm_run};

    /// Statements, one after another.
    #[cycle(evaluate)]
    pub(crate) fn body(&self, statements: &[Statement], state: &mut State) -> Result<Signal, Halt>
        ensures { Evaluates (O.rules self.now.outside.now) (body_run statements.now (goes_by self.now) state.old)
            result state.new }
    {
        for statement in statements {
            match self.statement(statement, state)? {
                Signal::Next => {}
                Signal::Break(loops) => return Ok(Signal::Break(loops)),
                Signal::Continue(number) => return Ok(Signal::Continue(number)),
                Signal::Return(value) => return Ok(Signal::Return(value)),
            }
        }
        Ok(Signal::Next)
    }

    /// The body of a loop.
    #[cycle(evaluate)]
    pub(crate) fn loop_body(&self, body: &Statement, state: &mut State) -> Result<Signal, Halt>
        ensures { Evaluates (O.rules self.now.outside.now) (statement_run body.now (goes_by self.now) state.old)
            result state.new }
    {
        match &body.kind {
            StatementKind::Block(statements) => self.body(statements.as_slice(), state),
            _ => self.statement(body, state),
        }
    }

    /// One statement.
    #[cycle(evaluate)]
    pub(crate) fn statement(&self, statement: &Statement, state: &mut State) -> Result<Signal, Halt>
        ensures { Evaluates (O.rules self.now.outside.now) (statement_run statement.now (goes_by self.now) state.old)
            result state.new }
    {
        let line = statement.line;
        match &statement.kind {
            StatementKind::Expression(e) => {
                self.place(line, state)?;
                self.effect(e, state)?;
                Ok(Signal::Next)
            }
            StatementKind::Echo(operands) => {
                self.place(line, state)?;
                self.echo(operands.as_slice(), state)
            }
            StatementKind::Block(statements) => self.body(statements.as_slice(), state),
            StatementKind::Empty => Ok(Signal::Next),
            StatementKind::If { arms, otherwise } => {
                self.arms(arms.as_slice(), otherwise, state)
            }
            StatementKind::While { test, body } => {
                self.turns(
                    self.bound,
                    line,
                    slice::from_ref(test),
                    &[],
                    body.as_ref(),
                    state,
                )
            }
            StatementKind::DoWhile {
                body,
                line: end,
                test,
            } => self.do_turns(self.bound, *end, test, body.as_ref(), state),
            StatementKind::For {
                before,
                tests,
                after,
                body,
            } => {
                self.place(line, state)?;
                self.for_turns(
                    line,
                    before.as_slice(),
                    tests.as_slice(),
                    after.as_slice(),
                    body.as_ref(),
                    state,
                )
            }
            StatementKind::Foreach {
                subject,
                binding,
                body,
            } => {
                self.place(line, state)?;
                self.foreach(line, binding, subject, body.as_ref(), state)
            }
            StatementKind::Break(loops) => {
                then_signal(self.place(line, state), Signal::Break(*loops))
            }
            StatementKind::Continue(number) => {
                then_signal(self.place(line, state), Signal::Continue(*number))
            }
            StatementKind::Return(value) => {
                self.place(line, state)?;
                self.return_value(value, state)
            }
            StatementKind::Global(names) => {
                self.place(line, state)?;
                then_signal(bind_all(names.as_slice(), state), Signal::Next)
            }
            StatementKind::Unset(places) => {
                self.place(line, state)?;
                then_signal(self.unset(places.as_slice(), state), Signal::Next)
            }
            StatementKind::Constants(all) => {
                self.place(line, state)?;
                self.constants(all.as_slice(), state)
            }
            StatementKind::Exit(value) => {
                self.place(line, state)?;
                self.exit(value, state)
            }
        }
    }

    /// `echo`
    #[cycle(evaluate)]
    fn echo(&self, operands: &[Expression], state: &mut State) -> Result<Signal, Halt>
        ensures { Evaluates (O.rules self.now.outside.now) (echoes (map expression_run operands.now)
            (goes_by self.now) state.old) result state.new }
    {
        for operand in operands {
            then_print(self.alloc, self.expression(operand, state), state)?;
        }
        Ok(Signal::Next)
    }

    /// The arms of an `if`, and what is done where no test holds.
    #[cycle(evaluate)]
    fn arms(
        &self,
        arms: &[Arm],
        otherwise: &Option<Boxed<Statement>>,
        state: &mut State,
    ) -> Result<Signal, Halt>
        ensures { Evaluates (O.rules self.now.outside.now) (arms_run (map arm_run arms.now)
            (option_map statement_run otherwise.now) (goes_by self.now) state.old) result state.new }
    {
        for arm in arms {
            self.place(arm.line, state)?;
            let holds = self.holds(&arm.test, state)?;
            if holds {
                return self.statement(&arm.body, state);
            }
        }
        match otherwise {
            None => Ok(Signal::Next),
            Some(statement) => self.statement(statement.as_ref(), state),
        }
    }

    /// `return`
    #[cycle(evaluate)]
    fn return_value(&self, value: &Option<Expression>, state: &mut State) -> Result<Signal, Halt>
        ensures { Evaluates (O.rules self.now.outside.now) (return_run value.now (goes_by self.now) state.old) result
            state.new }
    {
        match value {
            None => Ok(Signal::Return(Value::Null)),
            Some(e) => then_return(self.value(e, state)),
        }
    }

    /// `unset`
    #[cycle(evaluate)]
    fn unset(&self, places: &[Place], state: &mut State) -> Result<(), Halt>
        ensures { Evaluates (O.rules self.now.outside.now) (unset_run (map place_run places.now)
            (goes_by self.now) state.old) result state.new }
    {
        for place in places {
            let indices = self.values(place.indices.as_slice(), state)?;
            unset_place(self.alloc, &place.name, indices.as_slice(), state)?;
        }
        Ok(())
    }

    /// `const`
    #[cycle(evaluate)]
    fn constants(&self, all: &[Definition], state: &mut State) -> Result<Signal, Halt>
        ensures { Evaluates (O.rules self.now.outside.now) (constants_run all.now (goes_by self.now) state.old) result
            state.new }
    {
        for definition in all {
            then_define(
                &definition.name,
                self.expression(&definition.value, state),
                state,
            )?;
        }
        Ok(Signal::Next)
    }

    /// `exit`
    #[cycle(evaluate)]
    fn exit(&self, value: &Option<Expression>, state: &mut State) -> Result<Signal, Halt>
        ensures { Evaluates (O.rules self.now.outside.now) (end_run value.now (goes_by self.now) state.old) result
            state.new }
    {
        match value {
            None => Err(Halt::Finished(Outcome::Exit(0))),
            Some(e) => then_exit(self.expression(e, state), state),
        }
    }
}
