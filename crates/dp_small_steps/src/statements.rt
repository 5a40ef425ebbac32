//! The beginning of a statement: what is done first, and what waits for it.

ghost use Rattle.std.specs.Prelude.{◌≡◌, drop, map};
ghost use Rattle.dp_state.specs.declared.state.State.{State as AnyState};
ghost use Rattle.dp_actions.specs.Expressions.{place_run};
ghost use Rattle.dp_actions.specs.Places.{unset_run};
ghost use Rattle.dp_actions.specs.Run.{and_then};
ghost use Rattle.dp_actions.specs.Setting.{Setting};
ghost use Rattle.dp_actions.specs.Statements.{constants_run, end_run, statement_run};
ghost use Rattle.dp_small_steps.specs.Rest.{branch_decided, next_rest, next_to, small_rest};
ghost use Rattle.dp_small_steps.specs.Parts.{Follows, to_signal};

use crate::next::{alone, evaluated, placed, signal, unplaced, values_first};
use crate::work::{
    AfterValue, AfterValues, DoTurns, EachTurns, Hand, Head, Next, Small, Turns, Work,
};
use dp_actions::Signal;
use dp_bytes::Items;
use dp_state::Outcome;
use dp_tree::{Arm, Boxed, Definition, Expression, Place, Statement, StatementKind};
use std::alloc::Global;

/// The beginning of a statement: its moment, if it has one, and what is done first. What a machine begins where it
/// stands stays in hand: an expression, a block, an empty statement, an `if`, an `echo`, and what leaves a body.
pub fn begin<'p>(alloc: Global, bound: u64, statement: &'p Statement) -> Small<'p>
    ensures { (setting : Setting) → setting.bound ≡ bound → (k : Follows) (s : AnyState)
        → small_rest setting result k s ≡ and_then (statement_run statement.now setting s) (to_signal k) }
{
    let line = statement.line;
    match &statement.kind {
        StatementKind::Global(names) => placed(line, alone(Hand::Global(names.as_slice()))),
        StatementKind::Unset(places) => placed(line, alone(Hand::Unset(places.as_slice()))),
        StatementKind::Constants(all) => placed(line, alone(Hand::Constants(all, 0))),
        StatementKind::Exit(value) => placed(line, exit(value)),
        _ => begin_loop(alloc, bound, statement),
    }
}

/// The beginning of a loop.
fn begin_loop<'p>(alloc: Global, bound: u64, statement: &'p Statement) -> Small<'p>
    ensures { (setting : Setting) → setting.bound ≡ bound → (k : Follows) (s : AnyState)
        → small_rest setting result k s ≡ and_then (statement_run statement.now setting s) (to_signal k) }
{
    let line = statement.line;
    match &statement.kind {
        StatementKind::While { test, body } => {
            let head = Head::While(test);
            unplaced(alone(Hand::Turn(Turns { line, head, body }, bound)))
        }
        StatementKind::DoWhile { body, line, test } => {
            let line = *line;
            unplaced(alone(Hand::DoTurn(DoTurns { line, test, body }, bound)))
        }
        StatementKind::For {
            before,
            tests,
            after,
            body,
        } => {
            let head = Head::For(tests, after);
            let turns = AfterValues::Turns(Turns { line, head, body }, bound);
            placed(line, values_first(alloc, before, Work::AfterValues(turns)))
        }
        StatementKind::Foreach {
            subject,
            binding,
            body,
        } => {
            let turns = EachTurns {
                line,
                binding,
                body,
            };
            placed(line, evaluated(subject, AfterValue::Subject(turns)))
        }
        _ => unplaced(alone(Hand::Run(statement))),
    }
}

/// `exit`
fn exit<'p>(value: &'p Option<Expression>) -> Next<'p>
    ensures { (setting : Setting) (k : Follows) (s : AnyState)
        → next_rest setting result k s ≡ and_then (end_run value.now setting s) (to_signal k) }
{
    match value {
        None => alone(Hand::Over(Outcome::Exit(0))),
        Some(e) => evaluated(e, AfterValue::ExitWith),
    }
}

/// The constants that a `const` defines from a position on.
pub(crate) fn constants<'p>(all: &'p Items<Definition>, at: usize) -> Next<'p>
    ensures { (setting : Setting) (k : Follows) (s : AnyState)
        → next_rest setting result k s ≡ and_then (constants_run (drop at all.now) setting s) (to_signal k) }
{
    match all.as_slice().get(at) {
        None => signal(Signal::Next),
        Some(first) => evaluated(&first.value, AfterValue::Defined(&first.name, all, at + 1)),
    }
}

/// An arm of an `if` whose test is evaluated.
pub(crate) fn branch<'p>(
    all: &'p Items<Arm>,
    at: usize,
    otherwise: &'p Option<Boxed<Statement>>,
    holds: bool,
) -> Next<'p>
    ensures { (setting : Setting) (k : Follows) (s : AnyState)
        → next_rest setting result k s ≡ and_then (branch_decided (drop at all.now) otherwise.now setting holds s)
        (to_signal k) }
{
    match all.as_slice().get(at) {
        None => signal(Signal::Next),
        Some(arm) => {
            if holds {
                alone(Hand::Run(&arm.body))
            } else {
                alone(Hand::Arms(all, at + 1, otherwise))
            }
        }
    }
}

/// The places of an `unset` that are left.
pub(crate) fn unset<'p>(alloc: Global, places: &'p [Place]) -> Next<'p>
    ensures { (setting : Setting) (k : Follows) (s : AnyState)
        → next_rest setting result k s ≡ and_then (unset_run (map place_run places.now) setting s) (next_to k) }
{
    match places.split_first() {
        None => signal(Signal::Next),
        Some((first, rest)) => values_first(
            alloc,
            &first.indices,
            Work::AfterValues(AfterValues::Unset(&first.name, rest)),
        ),
    }
}
