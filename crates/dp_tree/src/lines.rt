//! The lines on which a moment may stand.

ghost use Rattle.std.specs.Prelude.{◌≡◌, []};
ghost use Rattle.std.specs.Option.{option_map_or};
ghost use Rattle.std.specs.List.{flat_map};
ghost use Rattle.dp_tree.specs.declared.tree.Function.{Function};
ghost use Rattle.dp_tree.specs.CodeLines as lines;
ghost use Rattle.dp_tree.specs.inner.Parts as parts;

use crate::boxed::Boxed;
use crate::tree::{Arm, File, Function, Statement, StatementKind};

/// Whether a moment before a statement, a test or a binding may stand on the line, by the tree alone: also where the
/// program never comes there. Takes no memory.
#[tactic(auto, using(crate::proofs::TreeLines::has_both))]
pub fn has_code(file: &File, line: u32) -> bool
    ensures { result ≡ lines.has_line (lines.file_lines file.now) line }
{
    if body_has(file.body.as_slice(), line) {
        return true;
    }
    functions_have(file.functions.as_slice(), line)
}

/// Whether the line is in one of these functions.
#[tactic(auto, using(crate::proofs::TreeLines::has_both))]
fn functions_have(functions: &[Function], line: u32) -> bool
    ensures { result ≡ lines.has_line (flat_map (λ (f : Function). lines.body_lines f.body) functions.now) line }
{
    for function in functions {
        if body_has(function.body.as_slice(), line) {
            return true;
        }
    }
    false
}

/// Whether the line is that of one of these statements, or of one inside them.
#[cycle(lines)]
#[tactic(auto, using(crate::proofs::TreeLines::has_both))]
fn body_has(all: &[Statement], line: u32) -> bool
    ensures { result ≡ lines.has_line (lines.body_lines all.now) line }
{
    for statement in all {
        if statement_has(statement, line) {
            return true;
        }
    }
    false
}

/// Whether the line is that of a statement, or of one inside it.
#[cycle(lines)]
fn statement_has(statement: &Statement, line: u32) -> bool
    ensures { result ≡ lines.has_line (lines.lines_of statement.now) line }
{
    kind_has(&statement.kind, statement.line, line)
}

/// Whether the line is that of a statement of this kind that begins on `first`, or of one inside it.
#[cycle(lines)]
#[tactic(auto, using(crate::proofs::TreeLines::has_both, crate::proofs::TreeLines::block_lines, crate::proofs::TreeLines::if_lines, crate::proofs::TreeLines::do_lines))]
fn kind_has(kind: &StatementKind, first: u32, line: u32) -> bool
    ensures { result ≡ lines.has_line (parts.kind_lines kind.now first) line }
{
    match kind {
        StatementKind::Empty => false,
        StatementKind::Block(all) => body_has(all.as_slice(), line),
        StatementKind::If { arms, otherwise } => {
            arms_have(arms.as_slice(), line) || otherwise_has(otherwise, line)
        }
        StatementKind::While { test: _, body } => first == line
            || statement_has(body.as_ref(), line),
        StatementKind::DoWhile {
            body,
            line: end,
            test: _,
        } => { statement_has(body.as_ref(), line) || *end == line }
        StatementKind::For {
            before: _,
            tests: _,
            after: _,
            body,
        } => { first == line || statement_has(body.as_ref(), line) }
        StatementKind::Foreach {
            subject: _,
            binding: _,
            body,
        } => { first == line || statement_has(body.as_ref(), line) }
        StatementKind::Expression(_)
        | StatementKind::Echo(_)
        | StatementKind::Break(_)
        | StatementKind::Continue(_)
        | StatementKind::Return(_)
        | StatementKind::Global(_)
        | StatementKind::Unset(_)
        | StatementKind::Constants(_)
        | StatementKind::Exit(_) => first == line,
    }
}

/// Whether there is an `else`, and the line is in it.
#[cycle(lines)]
fn otherwise_has(otherwise: &Option<Boxed<Statement>>, line: u32) -> bool
    ensures { result ≡ lines.has_line (option_map_or lines.lines_of otherwise.now []) line }
{
    match otherwise {
        Some(statement) => statement_has(statement.as_ref(), line),
        None => false,
    }
}

/// Whether the line is that of the test of one of these arms, or is in its body.
#[cycle(lines)]
#[tactic(auto, using(crate::proofs::TreeLines::has_both))]
fn arms_have(arms: &[Arm], line: u32) -> bool
    ensures { result ≡ lines.has_line (flat_map parts.arm_lines arms.now) line }
{
    for arm in arms {
        if arm.line == line {
            return true;
        }
        if statement_has(&arm.body, line) {
            return true;
        }
    }
    false
}
