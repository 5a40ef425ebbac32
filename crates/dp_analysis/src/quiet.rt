//! Whether a statement is quiet: found by a walk that ends at the first part that is not.

ghost use Rattle.std.specs.Prelude.{◌≡◌, true};
ghost use Rattle.std.specs.Option.{option_copied, option_map_or};
ghost use Rattle.std.specs.List.{list_all};
ghost use Rattle.dp_analysis.specs.Quiet as quiet;
ghost use Rattle.dp_analysis.specs.Still.{calls_of, is_still as is_still_by};
ghost use Rattle.dp_analysis.specs.inner.Parts as parts;

use crate::names::DeepNames;
use crate::still::{all_still, is_still, places_are_still};
use dp_tree::{Arm, Boxed, Definition, Expression, Statement, StatementKind};

/// Whether a statement is quiet.
#[cycle(statements)]
pub fn statement_is_quiet<'p>(
    lines: &[u32],
    loud: Option<&DeepNames<'p>>,
    statement: &'p Statement,
) -> bool
    ensures { result ≡ quiet.is_quiet lines.now (calls_of (option_copied loud.entry)) statement.now }
{
    kind_is_quiet(lines, loud, &statement.kind, statement.line)
}

/// The same of a statement of this kind that begins on this line.
#[cycle(statements)]
#[tactic(auto, using(crate::proofs::TreeQuiet::block_quiet, crate::proofs::TreeQuiet::if_quiet))]
fn kind_is_quiet<'p>(
    lines: &[u32],
    loud: Option<&DeepNames<'p>>,
    kind: &'p StatementKind,
    line: u32,
) -> bool
    ensures { result ≡ parts.kind_is_quiet lines.now (calls_of (option_copied loud.entry)) kind.now line }
{
    match kind {
        StatementKind::Empty => true,
        StatementKind::Expression(e) => is_free(lines, line) && is_still(loud, e),
        StatementKind::Echo(operands) => is_free(lines, line)
            && all_still(loud, operands.as_slice()),
        StatementKind::Block(all) => all_quiet(lines, loud, all.as_slice()),
        StatementKind::If { arms, otherwise } => arms_are_quiet(lines, loud, arms.as_slice())
            && otherwise_is_quiet(lines, loud, otherwise),
        StatementKind::While { test, body } => {
            is_free(lines, line)
                && is_still(loud, test)
                && statement_is_quiet(lines, loud, body.as_ref())
        }
        StatementKind::DoWhile {
            body,
            line: end,
            test,
        } => is_free(lines, *end)
            && is_still(loud, test)
            && statement_is_quiet(lines, loud, body.as_ref()),
        StatementKind::For {
            before,
            tests,
            after,
            body,
        } => {
            is_free(lines, line)
                && all_still(loud, before.as_slice())
                && all_still(loud, tests.as_slice())
                && all_still(loud, after.as_slice())
                && statement_is_quiet(lines, loud, body.as_ref())
        }
        StatementKind::Foreach {
            subject,
            binding: _,
            body,
        } => {
            is_free(lines, line)
                && is_still(loud, subject)
                && statement_is_quiet(lines, loud, body.as_ref())
        }
        StatementKind::Break(_) | StatementKind::Continue(_) => is_free(lines, line),
        StatementKind::Return(value) => is_free(lines, line) && is_still_if_any(loud, value),
        StatementKind::Global(_) => is_free(lines, line),
        StatementKind::Unset(places) => is_free(lines, line)
            && places_are_still(loud, places.as_slice()),
        StatementKind::Constants(all) => is_free(lines, line)
            && constants_are_still(loud, all.as_slice()),
        StatementKind::Exit(value) => is_free(lines, line) && is_still_if_any(loud, value),
    }
}

/// Whether each of these statements is quiet.
#[cycle(statements)]
pub(crate) fn all_quiet<'p>(
    lines: &[u32],
    loud: Option<&DeepNames<'p>>,
    all: &'p [Statement],
) -> bool
    ensures { result ≡ list_all (quiet.is_quiet lines.now (calls_of (option_copied loud.entry))) all.now }
{
    for statement in all {
        if !statement_is_quiet(lines, loud, statement) {
            return false;
        }
    }
    true
}

/// Whether the test and the body of each of these arms are quiet.
#[cycle(statements)]
fn arms_are_quiet<'p>(lines: &[u32], loud: Option<&DeepNames<'p>>, all: &'p [Arm]) -> bool
    ensures { result ≡ list_all (parts.arm_is_quiet lines.now (calls_of (option_copied loud.entry))) all.now }
{
    for arm in all {
        if !arm_is_quiet(lines, loud, arm) {
            return false;
        }
    }
    true
}

/// Whether the test and the body of an arm are quiet.
#[cycle(statements)]
fn arm_is_quiet<'p>(lines: &[u32], loud: Option<&DeepNames<'p>>, arm: &'p Arm) -> bool
    ensures { result ≡ parts.arm_is_quiet lines.now (calls_of (option_copied loud.entry)) arm.now }
{
    is_free(lines, arm.line)
        && is_still(loud, &arm.test)
        && statement_is_quiet(lines, loud, &arm.body)
}

/// Whether there is no `else`, or one that is quiet.
#[cycle(statements)]
fn otherwise_is_quiet<'p>(
    lines: &[u32],
    loud: Option<&DeepNames<'p>>,
    otherwise: &'p Option<Boxed<Statement>>,
) -> bool
    ensures { result ≡ option_map_or (quiet.is_quiet lines.now (calls_of (option_copied loud.entry)))
        otherwise.now true }
{
    match otherwise {
        Some(statement) => statement_is_quiet(lines, loud, statement.as_ref()),
        None => true,
    }
}

/// Whether there is no expression, or one that is still.
fn is_still_if_any<'p>(loud: Option<&DeepNames<'p>>, e: &'p Option<Expression>) -> bool
    ensures { result ≡ option_map_or (is_still_by (calls_of (option_copied loud.entry))) e.now true }
{
    match e {
        Some(e) => is_still(loud, e),
        None => true,
    }
}

/// Whether the value of each of these constants is still.
fn constants_are_still<'p>(loud: Option<&DeepNames<'p>>, all: &'p [Definition]) -> bool
    ensures { result ≡ list_all (λ d. is_still_by (calls_of (option_copied loud.entry)) d.value) all.now }
{
    for definition in all {
        if !is_still(loud, &definition.value) {
            return false;
        }
    }
    true
}

/// Whether a line is none of these.
pub fn is_free(lines: &[u32], line: u32) -> bool
    ensures { result ≡ quiet.is_free lines.now line }
{
    for other in lines {
        if *other == line {
            return false;
        }
    }
    true
}
