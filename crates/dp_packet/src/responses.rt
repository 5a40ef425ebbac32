//! The texts of responses.

ghost use Rattle.std.specs.Prelude.{◌≡◌, map, OnOk};
ghost use Rattle.dp_markup.specs.Outputs.{behind};
ghost use Rattle.dp_markup.specs.Texts.{node_text, nodes_text, written};
ghost use Rattle.dp_packet.specs.Packets as spec;

use crate::attributes::{Attribute, NAMESPACE};
use crate::breakpoints::put_breakpoints;
use crate::elements::{put_leaf, put_start};
use crate::faults::put_error;
use crate::outputs::PacketOutput;
use crate::packet::{Body, Response, StackLine};
use crate::properties::put_properties;
use dp_bytes::Bytes;
use dp_markup::{Output, put_close, put_escaped};

/// Puts the element of a frame of the stack.
fn put_stack<O: Output>(out: &mut O, line: &StackLine) -> Result<(), O::Error>
    ensures { OnOk result (O.seen out.new ≡ behind (O.seen out.old) (node_text (spec.stack_node line.now))) }
{
    let attributes = [
        Attribute::Number(b"level", line.level as u64),
        Attribute::Text(b"type", b"file"),
        Attribute::Value(b"filename", &line.uri),
        Attribute::Number(b"lineno", line.line as u64),
        Attribute::Value(b"where", &line.place),
    ];
    put_leaf(out, b"stack", &attributes)
}

/// Puts the elements of frames of the stack.
fn put_stacks<O: Output>(out: &mut O, lines: &[StackLine]) -> Result<(), O::Error>
    ensures { OnOk result (O.seen out.new ≡ behind (O.seen out.old) (nodes_text (map spec.stack_node lines.now))) }
{
    for line in lines {
        put_stack(out, line)?;
    }
    Ok(())
}

/// Puts the element of a context, which has a name and an id.
fn put_context<O: Output>(out: &mut O, name: &Bytes, id: u32) -> Result<(), O::Error>
    ensures { OnOk result (O.seen out.new ≡ behind (O.seen out.old) (node_text (spec.context_node (name.now, id)))) }
{
    let attributes = [
        Attribute::Value(b"name", name),
        Attribute::Number(b"id", id as u64),
    ];
    put_leaf(out, b"context", &attributes)
}

/// Puts the elements of contexts.
fn put_contexts<O: Output>(out: &mut O, contexts: &[(Bytes, u32)]) -> Result<(), O::Error>
    ensures { OnOk result (O.seen out.new ≡ behind (O.seen out.old) (nodes_text (map spec.context_node contexts.now))) }
{
    for context in contexts {
        put_context(out, &context.0, context.1)?;
    }
    Ok(())
}

/// Puts what a body has between the tags of its response.
#[tactic(auto, using(crate::proofs::OutLaws::alone_text, crate::proofs::OutLaws::words_text))]
fn put_body<O: PacketOutput>(out: &mut O, body: &Body) -> Result<(), O::Error>
    ensures { OnOk result (O.Output.seen out.new ≡ behind (O.Output.seen out.old)
        (nodes_text (spec.body_nodes body.now))) }
{
    match body {
        Body::Nothing => Ok(()),
        Body::Plain(text) => put_escaped(out, text.as_slice()),
        Body::Fault(code) => put_error(out, *code),
        Body::Stacks(lines) => put_stacks(out, lines.as_slice()),
        Body::Contexts(contexts) => put_contexts(out, contexts.as_slice()),
        Body::Properties(properties) => put_properties(out, properties.as_slice()),
        Body::Breakpoints(lines) => put_breakpoints(out, lines.as_slice()),
    }
}

/// Puts the element of a response.
pub(crate) fn put_response<O: PacketOutput>(
    out: &mut O,
    response: &Response,
) -> Result<(), O::Error>
    ensures { OnOk result (O.Output.seen out.new ≡ behind (O.Output.seen out.old)
        (written (spec.response_element response.now))) }
{
    let attributes = [
        NAMESPACE,
        Attribute::Value(b"command", &response.command),
        Attribute::Value(b"transaction_id", &response.id),
        Attribute::Pairs(response.attributes.as_slice()),
    ];
    put_start(out, b"response", &attributes)?;
    put_body(out, &response.body)?;
    put_close(out, b"response")
}
