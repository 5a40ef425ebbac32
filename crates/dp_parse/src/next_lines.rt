//! The next line of a file on which a breakpoint may stand: one walk over its tree, that keeps the least line not
//! before the one that is asked for.

ghost use Rattle.std.specs.Prelude.{◌≡◌, ◌∷◌, []};
ghost use Rattle.std.specs.Option.{option_map_or};
ghost use Rattle.std.specs.List.{flat_map};
ghost use Rattle.dp_tree.specs.CodeLines as lines;
ghost use Rattle.dp_tree.specs.declared.tree.Function.{Function};
ghost use Rattle.dp_tree.specs.inner.Parts as parts;
ghost use Rattle.dp_parse.specs.NextCode as spec;

use dp_tree::{Arm, Boxed, File, Function, Statement, StatementKind};

/// The least line that is at least this one, at most the last of the file, and has code, by the tree alone: also where
/// the program never comes there. Takes no memory.
#[tactic(auto, using(crate::proofs::LeastLines::between_both))]
pub fn next_code(file: &File, line: u32) -> Option<u32>
    ensures { result ≡ spec.next_code file.now line }
{
    lesser(
        body_next(file.body.as_slice(), line, file.lines),
        functions_next(file.functions.as_slice(), line, file.lines),
    )
}

/// The lesser of two lines, each of which may be missing.
fn lesser(one: Option<u32>, other: Option<u32>) -> Option<u32>
    ensures { result ≡ spec.lesser one other }
{
    match (one, other) {
        (None, other) => other,
        (Some(line), None) => Some(line),
        (Some(line), Some(more)) => Some(if line < more { line } else { more }),
    }
}

/// The line, if it is neither before `from` nor behind `to`.
#[tactic(auto, unfolding(crate::specs::NextCode::least_between))]
fn line_next(line: u32, from: u32, to: u32) -> Option<u32>
    ensures { result ≡ spec.least_between from to (line ∷ []) }
{
    if from <= line && line <= to {
        Some(line)
    } else {
        None
    }
}

/// The next line in one of these functions.
fn functions_next(functions: &[Function], from: u32, to: u32) -> Option<u32>
    ensures { result ≡
        spec.least_between from to (flat_map (λ (f : Function). lines.body_lines f.body) functions.now) }
{
    let mut next = None;
    for function in functions {
        next = lesser(next, body_next(function.body.as_slice(), from, to));
    }
    next
}

/// The next line of one of these statements, or of one inside them.
#[cycle(next_lines)]
fn body_next(all: &[Statement], from: u32, to: u32) -> Option<u32>
    ensures { result ≡ spec.least_between from to (lines.body_lines all.now) }
{
    let mut next = None;
    for statement in all {
        next = lesser(next, statement_next(statement, from, to));
    }
    next
}

/// The next line of a statement, or of one inside it.
#[cycle(next_lines)]
fn statement_next(statement: &Statement, from: u32, to: u32) -> Option<u32>
    ensures { result ≡ spec.least_between from to (lines.lines_of statement.now) }
{
    kind_next(&statement.kind, statement.line, from, to)
}

/// The next line of a statement of this kind that begins on `first`, or of one inside it.
#[cycle(next_lines)]
#[tactic(auto, using(crate::proofs::LeastLines::between_both, crate::proofs::LeastLines::between_more, crate::proofs::LeastLines::between_none, dp_tree::proofs::TreeLines::block_lines, dp_tree::proofs::TreeLines::if_lines, dp_tree::proofs::TreeLines::do_lines))]
fn kind_next(kind: &StatementKind, first: u32, from: u32, to: u32) -> Option<u32>
    ensures { result ≡ spec.least_between from to (parts.kind_lines kind.now first) }
{
    match kind {
        StatementKind::Empty => None,
        StatementKind::Block(all) => body_next(all.as_slice(), from, to),
        StatementKind::If { arms, otherwise } => lesser(
            arms_next(arms.as_slice(), from, to),
            otherwise_next(otherwise, from, to),
        ),
        StatementKind::DoWhile {
            body,
            line: end,
            test: _,
        } => lesser(
            statement_next(body.as_ref(), from, to),
            line_next(*end, from, to),
        ),
        StatementKind::While { test: _, body } => loop_next(body, first, from, to),
        StatementKind::For {
            before: _,
            tests: _,
            after: _,
            body,
        } => loop_next(body, first, from, to),
        StatementKind::Foreach {
            subject: _,
            binding: _,
            body,
        } => loop_next(body, first, from, to),
        StatementKind::Expression(_)
        | StatementKind::Echo(_)
        | StatementKind::Break(_)
        | StatementKind::Continue(_)
        | StatementKind::Return(_)
        | StatementKind::Global(_)
        | StatementKind::Unset(_)
        | StatementKind::Constants(_)
        | StatementKind::Exit(_) => line_next(first, from, to),
    }
}

/// The next line of a loop whose test, or what it goes through, stands on `first`, or of its body.
#[cycle(next_lines)]
#[tactic(auto, using(crate::proofs::LeastLines::between_more))]
fn loop_next(body: &Boxed<Statement>, first: u32, from: u32, to: u32) -> Option<u32>
    ensures { result ≡ spec.least_between from to (first ∷ lines.lines_of body.now) }
{
    lesser(
        line_next(first, from, to),
        statement_next(body.as_ref(), from, to),
    )
}

/// The next line in an `else`, where there is one.
#[cycle(next_lines)]
#[tactic(auto, using(crate::proofs::LeastLines::between_none))]
fn otherwise_next(otherwise: &Option<Boxed<Statement>>, from: u32, to: u32) -> Option<u32>
    ensures { result ≡ spec.least_between from to (option_map_or lines.lines_of otherwise.now []) }
{
    match otherwise {
        Some(statement) => statement_next(statement.as_ref(), from, to),
        None => None,
    }
}

/// The next line of the test of one of these arms, or in its body.
#[cycle(next_lines)]
fn arms_next(arms: &[Arm], from: u32, to: u32) -> Option<u32>
    ensures { result ≡ spec.least_between from to (flat_map parts.arm_lines arms.now) }
{
    let mut next = None;
    for arm in arms {
        next = lesser(next, arm_next(arm, from, to));
    }
    next
}

/// The next line of the test of an arm, or in its body.
#[cycle(next_lines)]
#[tactic(auto, using(crate::proofs::LeastLines::between_more))]
fn arm_next(arm: &Arm, from: u32, to: u32) -> Option<u32>
    ensures { result ≡ spec.least_between from to (parts.arm_lines arm.now) }
{
    lesser(
        line_next(arm.line, from, to),
        statement_next(&arm.body, from, to),
    )
}
