//! Parts of a program that are run whole: nothing is written at their moments, and nothing stops them.

use crate::evaluator::Evaluator;
use crate::pure::Unwatched;
use dp_actions::{Halt, Signal};
use dp_bytes::Items;
use dp_state::State;
use dp_tree::{Binding, Bundle, Expression, Statement};
use dp_value::Value;
use std::alloc::Global;

/// What parts of a program go by that are run whole from a state: a run has at most `bound` moments, and at most
/// `depth` frames more can be on the stack.
#[derive(Clone, Copy)]
pub struct Whole<'a> {
    pub bundle: &'a Bundle,
    pub alloc: Global,
    pub bound: u64,
    pub depth: u64,
}

impl Whole<'_> {
    ghost use Rattle.std.specs.Prelude.{◌≡◌, drop};
    ghost use Rattle.dp_actions.specs.Expressions.{evaluation, evaluations};
    ghost use Rattle.dp_actions.specs.Loops.{do_turns, each_run, entries, turns};
    ghost use Rattle.dp_actions.specs.Statements.{statement_run};
    ghost use Rattle.dp_meaning.specs.Whole.{RunsWhole};

    /// Runs a statement.
    pub fn statement(&self, statement: &Statement, state: &mut State) -> Result<Signal, Halt>
        ensures { RunsWhole self.now (statement_run statement.now) result state.old state.new }
    {
        let unwatched = Unwatched { bound: self.bound };
        self.evaluator(&unwatched).statement(statement, state)
    }

    /// Runs at most `left` iterations of a `while` or a `for`: before each come its tests, and behind its body what
    /// comes between two of them.
    pub fn turns(
        &self,
        left: u64,
        line: u32,
        tests: &[Expression],
        after: &[Expression],
        body: &Statement,
        state: &mut State,
    ) -> Result<Signal, Halt>
        ensures { RunsWhole self.now (λ setting s. turns left line (evaluations tests.now setting)
            (evaluations after.now setting) (statement_run body.now setting) s) result state.old state.new }
    {
        let unwatched = Unwatched { bound: self.bound };
        self.evaluator(&unwatched)
            .turns(left, line, tests, after, body, state)
    }

    /// Runs at most `left` iterations of a `do`.
    pub fn do_turns(
        &self,
        left: u64,
        line: u32,
        test: &Expression,
        body: &Statement,
        state: &mut State,
    ) -> Result<Signal, Halt>
        ensures { RunsWhole self.now (λ setting s. do_turns left line (evaluation test.now setting)
            (statement_run body.now setting) s) result state.old state.new }
    {
        let unwatched = Unwatched { bound: self.bound };
        self.evaluator(&unwatched)
            .do_turns(left, line, test, body, state)
    }

    /// Runs a `foreach` from the entry at `from` on.
    pub fn entries(
        &self,
        from: usize,
        line: u32,
        binding: &Binding,
        subject: &Value,
        body: &Statement,
        state: &mut State,
    ) -> Result<Signal, Halt>
        ensures { RunsWhole self.now (λ setting s. each_run line binding.now (drop from (entries subject.now))
            (statement_run body.now setting) s) result state.old state.new }
    {
        let unwatched = Unwatched { bound: self.bound };
        self.evaluator(&unwatched)
            .each(from, line, binding, subject, body, state)
    }

    /// The evaluator that does it.
    fn evaluator<'b>(&'b self, unwatched: &'b Unwatched) -> Evaluator<'b, Unwatched>
        ensures by { (result.bundle.now ≡ self.now.bundle.now) × (result.bound ≡ self.now.bound)
            × (result.depth ≡ self.now.depth) }
        ensures unwatched { result.outside.now ≡ unwatched.now }
    {
        Evaluator {
            bundle: self.bundle,
            outside: unwatched,
            alloc: self.alloc,
            bound: self.bound,
            depth: self.depth,
        }
    }
}

impl Whole<'_> {
    ghost use Rattle.std.specs.Prelude.{◌≡◌, true};
    ghost use Rattle.std.specs.List.{list_all};
    ghost use Rattle.dp_actions.specs.AtOnce.{AtOnce};
    ghost use Rattle.dp_actions.specs.Expressions.{evaluation, evaluations};
    ghost use Rattle.dp_actions.specs.Loops.{last_holds};
    ghost use Rattle.dp_actions.specs.Run.{Done, and_then, given_up};
    ghost use Rattle.dp_analysis.specs.Still.{is_momentless};
    ghost use Rattle.dp_meaning.specs.Programs.{setting_of};

    /// The value of an expression in which no moment can come. It is evaluated at once.
    pub fn value(&self, e: &Expression, state: &mut State) -> Result<Value, Halt>
        requires { is_momentless e.now ≡ true }
        ensures { AtOnce (evaluation e.now (setting_of self.now.bundle.now self.now.bound self.now.depth) state.old)
            result state.new }
    {
        let unwatched = Unwatched { bound: self.bound };
        self.evaluator(&unwatched).expression(e, state)
    }

    /// The values of expressions in which no moment can come, one after another.
    pub fn values(&self, all: &[Expression], state: &mut State) -> Result<Items<Value>, Halt>
        requires { list_all is_momentless all.now ≡ true }
        ensures { AtOnce (evaluations all.now (setting_of self.now.bundle.now self.now.bound self.now.depth) state.old)
            result state.new }
    {
        let unwatched = Unwatched { bound: self.bound };
        self.evaluator(&unwatched).values(all, state)
    }

    /// Whether the last of the values of such expressions holds; true if there is none.
    pub fn test(&self, all: &[Expression], state: &mut State) -> Result<bool, Halt>
        requires { list_all is_momentless all.now ≡ true }
        ensures { AtOnce (and_then (evaluations all.now (setting_of self.now.bundle.now self.now.bound self.now.depth)
            state.old) (λ values t. Done (last_holds values) t)) result state.new }
    {
        let unwatched = Unwatched { bound: self.bound };
        self.evaluator(&unwatched).test(all, state)
    }

    /// Such an expression, whose value is given up.
    pub fn effect(&self, e: &Expression, state: &mut State) -> Result<(), Halt>
        requires { is_momentless e.now ≡ true }
        ensures { AtOnce (and_then (evaluation e.now (setting_of self.now.bundle.now self.now.bound self.now.depth)
            state.old) given_up) result state.new }
    {
        let unwatched = Unwatched { bound: self.bound };
        self.evaluator(&unwatched).effect(e, state)
    }

    /// Such expressions, one after another, whose values are given up.
    pub fn effects(&self, all: &[Expression], state: &mut State) -> Result<(), Halt>
        requires { list_all is_momentless all.now ≡ true }
        ensures { AtOnce (and_then (evaluations all.now (setting_of self.now.bundle.now self.now.bound self.now.depth)
            state.old) given_up) result state.new }
    {
        let unwatched = Unwatched { bound: self.bound };
        self.evaluator(&unwatched).effects(all, state)
    }
}
