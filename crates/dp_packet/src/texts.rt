//! The texts of packets.

ghost use Rattle.std.specs.Prelude.{◌≡◌, ◌↔◌, true, IfOk, OnOk};
ghost use Rattle.dp_markup.specs.Outputs.{behind};
ghost use Rattle.dp_markup.specs.Texts.{nodes_text, written};
ghost use Rattle.dp_packet.specs.Packets as spec;
ghost use Rattle.dp_packet.specs.declared.packet.ProxyReply.TheVariants.{Refused, Started, Stopped};
ghost use Rattle.dp_packet.specs.Text.{text};

use crate::Memory;
use crate::attributes::{Attribute, NAMESPACE};
use crate::breakpoints::put_breakpoint;
use crate::elements::{put_empty, put_start};
use crate::error_codes::message;
use crate::faults::{put_refusal, reason};
use crate::outputs::PacketOutput;
use crate::packet::{Body, BreakLine, Init, Notify, Packet, ProxyReply};
use crate::responses::put_response;
use dp_bytes::Bytes;
use dp_markup::{Output, TextOutput, put_close};
use std::alloc::Global;

/// Whether [`text_of`] takes the packet: an error has a code with a message, a proxy's refusal one of its reasons.
/// Takes no memory.
pub fn has_message(packet: &Packet) -> bool
    ensures { (result ≡ true) ↔ spec.HasMessage packet.now }
{
    match packet {
        Packet::Response(response) => match &response.body {
            Body::Fault(code) => !message(*code).is_empty(),
            _ => true,
        },
        Packet::Proxy(ProxyReply::Refused { stopping: _, id }) => !reason(*id).is_empty(),
        _ => true,
    }
}

/// Puts the element of a session's first packet.
fn put_init<O: Output>(out: &mut O, init: &Init) -> Result<(), O::Error>
    ensures { OnOk result (O.seen out.new ≡ behind (O.seen out.old) (written (spec.init_element init.now))) }
{
    let attributes = [
        NAMESPACE,
        Attribute::Text(b"appid", b"dbgp"),
        Attribute::Value(b"idekey", &init.idekey),
        Attribute::Text(b"session", b""),
        Attribute::Text(b"thread", b"1"),
        Attribute::Text(b"parent", b""),
        Attribute::Text(b"language", b"PHP"),
        Attribute::Text(b"protocol_version", b"1.0"),
        Attribute::Value(b"fileuri", &init.fileuri),
    ];
    put_empty(out, b"init", &attributes)
}

/// Puts the element of the program's output, which stands in it in base64.
fn put_stream<O: PacketOutput>(out: &mut O, bytes: &[u8]) -> Result<(), O::Error>
    ensures { OnOk result (O.Output.seen out.new ≡ behind (O.Output.seen out.old)
        (written (spec.stream_element bytes.now))) }
{
    let attributes = [
        NAMESPACE,
        Attribute::Text(b"type", b"stdout"),
        Attribute::Text(b"encoding", b"base64"),
    ];
    put_start(out, b"stream", &attributes)?;
    out.put_base64(bytes)?;
    put_close(out, b"stream")
}

/// Puts the element of the breakpoint that a notification tells of, and nothing where it tells of none.
#[tactic(auto, using(crate::proofs::OutLaws::alone_text))]
fn put_notified<O: Output>(out: &mut O, told: &Option<BreakLine>) -> Result<(), O::Error>
    ensures { OnOk result (O.seen out.new ≡ behind (O.seen out.old) (nodes_text (spec.notified_nodes told.now))) }
{
    match told {
        None => Ok(()),
        Some(line) => put_breakpoint(out, line),
    }
}

/// Puts the element of a notification.
fn put_notify<O: Output>(out: &mut O, notify: &Notify) -> Result<(), O::Error>
    ensures { OnOk result (O.seen out.new ≡ behind (O.seen out.old) (written (spec.notify_element notify.now))) }
{
    let attributes = [NAMESPACE, Attribute::Value(b"name", &notify.name)];
    put_start(out, b"notify", &attributes)?;
    put_notified(out, &notify.breakpoint)?;
    put_close(out, b"notify")
}

/// The name of the element of a proxy's refusal: `proxystop` where it was asked to stop, else `proxyinit`.
pub(crate) fn refusal_name(stopping: bool) -> &'static [u8]
    ensures { result.now ≡ spec.refusal_name stopping }
{
    if stopping { b"proxystop" } else { b"proxyinit" }
}

/// Puts the element that tells that a key is held for the IDE at an address.
fn put_started<'a, O: Output>(
    out: &mut O,
    key: &'a Bytes,
    host: &'a Bytes,
    port: u16,
) -> Result<(), O::Error>
    ensures { OnOk result (O.seen out.new ≡ behind (O.seen out.old)
        (written (spec.proxy_element (Started key.now host.now port)))) }
{
    let attributes = [
        Attribute::Text(b"success", b"1"),
        Attribute::Value(b"idekey", key),
        Attribute::Value(b"address", host),
        Attribute::Number(b"port", port as u64),
    ];
    put_empty(out, b"proxyinit", &attributes)
}

/// Puts the element that tells that a key is no longer held.
fn put_stopped<O: Output>(out: &mut O, key: &Bytes) -> Result<(), O::Error>
    ensures { OnOk result (O.seen out.new ≡ behind (O.seen out.old) (written (spec.proxy_element (Stopped key.now)))) }
{
    let attributes = [
        Attribute::Text(b"success", b"1"),
        Attribute::Value(b"idekey", key),
    ];
    put_empty(out, b"proxystop", &attributes)
}

/// Puts the element that tells why a proxy refused.
fn put_refused<O: Output>(out: &mut O, stopping: bool, id: u8) -> Result<(), O::Error>
    ensures { OnOk result (O.seen out.new ≡ behind (O.seen out.old)
        (written (spec.proxy_element (Refused stopping id)))) }
{
    let name = refusal_name(stopping);
    put_start(out, name, &[Attribute::Text(b"success", b"0")])?;
    put_refusal(out, id)?;
    put_close(out, name)
}

/// Puts the element of a proxy's reply.
fn put_reply<O: Output>(out: &mut O, reply: &ProxyReply) -> Result<(), O::Error>
    ensures { OnOk result (O.seen out.new ≡ behind (O.seen out.old) (written (spec.proxy_element reply.now))) }
{
    match reply {
        ProxyReply::Started { key, host, port } => put_started(out, key, host, *port),
        ProxyReply::Stopped { key } => put_stopped(out, key),
        ProxyReply::Refused { stopping, id } => put_refused(out, *stopping, *id),
    }
}

/// Puts the element of a packet.
fn put_element<O: PacketOutput>(out: &mut O, packet: &Packet) -> Result<(), O::Error>
    ensures { OnOk result (O.Output.seen out.new ≡ behind (O.Output.seen out.old)
        (written (spec.element_of packet.now))) }
{
    match packet {
        Packet::Init(init) => put_init(out, init),
        Packet::Response(response) => put_response(out, response),
        Packet::Stream(bytes) => put_stream(out, bytes.as_slice()),
        Packet::Notify(notify) => put_notify(out, notify),
        Packet::Proxy(reply) => put_reply(out, reply),
    }
}

/// Puts the text of a packet: the declaration and its element.
pub(crate) fn put_packet<O: PacketOutput>(out: &mut O, packet: &Packet) -> Result<(), O::Error>
    ensures { OnOk result (O.Output.seen out.new ≡ behind (O.Output.seen out.old) (text packet.now)) }
{
    out.put(b"<?xml version=\"1.0\" encoding=\"iso-8859-1\"?>\n")?;
    put_element(out, packet)
}

/// The text of a packet: the declaration and the canonical text of its element, without the frame.
/// An error has a code that has a message, and a proxy's refusal a number from 1 to 5.
pub fn text_of(alloc: Global, packet: &Packet) -> Result<Bytes, Memory>
    requires known { spec.HasMessage packet.now }
    ensures { IfOk result (λ bytes. bytes ≡ text packet.now) }
{
    let mut out = TextOutput {
        alloc,
        text: Vec::new(alloc),
    };
    put_packet(&mut out, packet)?;
    Ok(Bytes::of(out.text))
}
