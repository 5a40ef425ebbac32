//! What a response of the session has, and how it tells that the program ended.

ghost use Rattle.std.specs.Prelude.{◌≡◌, IfOk};
ghost use Rattle.dp_engine.specs.Responses.{fault_in};
ghost use Rattle.dp_packet.specs.declared.property.Shape.TheViews.{out-Shape};
ghost use Rattle.dp_view.specs.Children.{entries_in};
ghost use Rattle.dp_dap.specs.Answers as spec;

use dp_bytes::{Bytes, Memory};
use dp_dap_messages::{Place, shown};
use dp_engine::{Phase, SessionEnd};
use dp_packet::{Body, Property, Shape, StackLine};
use dp_state::Outcome;
use std::alloc::Global;

/// The code of the error that a response tells.
pub(crate) fn fault_of(body: &Body) -> Option<u16>
    ensures { result ≡ fault_in body.now }
{
    match body {
        Body::Fault(code) => Some(*code),
        _ => None,
    }
}

/// The frames in a response.
pub(crate) fn stacks_in(body: &Body) -> &[StackLine]
    ensures { result.now ≡ spec.stacks_in body.now }
{
    match body {
        Body::Stacks(lines) => lines.as_slice(),
        _ => &[],
    }
}

/// The contexts in a response.
pub(crate) fn contexts_in(body: &Body) -> &[(Bytes, u32)]
    ensures { result.now ≡ spec.contexts_in body.now }
{
    match body {
        Body::Contexts(contexts) => contexts.as_slice(),
        _ => &[],
    }
}

/// The properties in a response.
pub(crate) fn shown_in(body: &Body) -> &[Property]
    ensures { result.now ≡ spec.shown_in body.now }
{
    match body {
        Body::Properties(properties) => properties.as_slice(),
        _ => &[],
    }
}

/// The entries of an array; none of another value.
fn entries_of(shape: &Shape) -> &[Property]
    ensures { result.now ≡ entries_in (out-Shape shape.now) }
{
    match shape {
        Shape::Array {
            count: _,
            page: _,
            pagesize: _,
            nested,
        } => nested.as_slice(),
        _ => &[],
    }
}

/// What a place holds, of the properties in its response.
pub(crate) fn held_at<'p>(place: &Place, properties: &'p [Property]) -> &'p [Property]
    ensures { result.now ≡ spec.held_at place.now.name properties.now }
{
    match (&place.name, properties.first()) {
        (None, _) => properties,
        (Some(_), Some(property)) => entries_of(&property.shape),
        (Some(_), None) => &[],
    }
}

/// The text of the value of an expression.
pub(crate) fn result_in(alloc: Global, properties: &[Property]) -> Result<Bytes, Memory>
    ensures { IfOk result (λ text. text ≡ spec.result_in properties.now) }
{
    match properties.first() {
        Some(property) => shown::value_text(alloc, &property.shape),
        None => Ok(Bytes::of(Vec::new(alloc))),
    }
}

/// The number that the end of a program is told with.
fn exit_code(outcome: Outcome) -> u8
    ensures { result ≡ spec.exit_code outcome }
{
    match outcome {
        Outcome::Done => 0,
        Outcome::Exit(code) => code,
        Outcome::Fatal {
            kind: _,
            file: _,
            line: _,
        } => 255,
        Outcome::Bound => 255,
    }
}

/// The same of how the session ended.
pub(crate) fn code_of(ended: Option<SessionEnd>) -> u8
    ensures { result ≡ spec.code_of ended }
{
    match ended {
        Some(SessionEnd::Finished(outcome)) => exit_code(outcome),
        _ => 255,
    }
}

/// Whether the program has come to its end.
pub(crate) fn has_ended(phase: Phase) -> bool
    ensures { result ≡ spec.has_ended phase }
{
    match phase {
        Phase::Stopping => true,
        Phase::Starting | Phase::Break => false,
    }
}
