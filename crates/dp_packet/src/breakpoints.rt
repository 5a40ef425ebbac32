//! The texts of breakpoints.
ghost use Rattle.std.specs.Prelude.{◌≡◌, map, OnOk};
ghost use Rattle.dp_markup.specs.Outputs.{behind};
ghost use Rattle.dp_markup.specs.Texts.{node_text, nodes_text};
ghost use Rattle.dp_packet.specs.Breakpoints as spec;

use crate::attributes::{Attribute, flag};
use crate::elements::{put_start, put_words};
use crate::packet::{BreakKind, BreakLine, HitRule};
use dp_bytes::Bytes;
use dp_markup::{Output, put_close};

/// The name of a kind of breakpoint, as the attribute `type` has it.
pub(crate) fn kind_name(kind: BreakKind) -> &'static [u8]
    ensures { result.now ≡ spec.kind_name kind }
{
    match kind {
        BreakKind::Line => b"line",
        BreakKind::Call => b"call",
        BreakKind::Return => b"return",
        BreakKind::Conditional => b"conditional",
    }
}

/// The sign of a hit rule, as the attribute `hit_condition` has it.
pub(crate) fn rule_name(rule: HitRule) -> &'static [u8]
    ensures { result.now ≡ spec.rule_name rule }
{
    match rule {
        HitRule::AtLeast => b">=",
        HitRule::Exactly => b"==",
        HitRule::Multiple => b"%",
    }
}

/// The name of a breakpoint's state, `enabled` or `disabled`.
pub(crate) fn state_name(enabled: bool) -> &'static [u8]
    ensures { result.now ≡ spec.state_name enabled }
{
    if enabled { b"enabled" } else { b"disabled" }
}

/// Puts the element of a breakpoint's expression, and nothing where it has none.
fn put_expression<O: Output>(out: &mut O, expression: &Option<Bytes>) -> Result<(), O::Error>
    ensures { OnOk result (O.seen out.new ≡ behind (O.seen out.old)
        (nodes_text (spec.expression_nodes expression.now))) }
{
    match expression {
        None => Ok(()),
        Some(text) => put_words(out, b"expression", text.as_slice()),
    }
}

/// Puts the element of a breakpoint.
pub(crate) fn put_breakpoint<O: Output>(out: &mut O, line: &BreakLine) -> Result<(), O::Error>
    ensures { OnOk result (O.seen out.new ≡ behind (O.seen out.old) (node_text (spec.breakpoint_node line.now))) }
{
    let attributes = [
        Attribute::Number(b"id", line.id as u64),
        Attribute::Text(b"type", kind_name(line.kind)),
        Attribute::Text(b"state", state_name(line.enabled)),
        Attribute::Given(b"filename", &line.uri),
        Attribute::GivenNumber(b"lineno", line.line),
        Attribute::Given(b"function", &line.function),
        Attribute::Number(b"hit_count", line.hits),
        Attribute::Number(b"hit_value", line.hit_value as u64),
        Attribute::Text(b"hit_condition", rule_name(line.hit_rule)),
        Attribute::Text(b"temporary", flag(line.temporary)),
        Attribute::Mark(b"resolved", line.resolved),
    ];
    put_start(out, b"breakpoint", &attributes)?;
    put_expression(out, &line.expression)?;
    put_close(out, b"breakpoint")
}

/// Puts the elements of breakpoints.
pub(crate) fn put_breakpoints<O: Output>(out: &mut O, lines: &[BreakLine]) -> Result<(), O::Error>
    ensures { OnOk result (O.seen out.new ≡ behind (O.seen out.old) (nodes_text (map spec.breakpoint_node lines.now))) }
{
    for line in lines {
        put_breakpoint(out, line)?;
    }
    Ok(())
}
