//! Packets as they are read.

ghost use Rattle.std.specs.Prelude.{◌≡◌, Err, None, IfOk, MatchResult};
ghost use Rattle.dp_markup.specs.declared.tree.Element.{Element as Tree};
ghost use Rattle.dp_markup.specs.Grammar.{IsMarkup};
ghost use Rattle.dp_packet.specs.declared.packet.Packet.{Packet as AnyPacket};
ghost use Rattle.dp_reply.specs.Norm.{IsRereadable, norm};
ghost use Rattle.dp_reply.specs.Readings as spec;
ghost use Rattle.dp_reply.specs.Verdict.{Finds};

use crate::contents::{attribute, bytes, flag, is_named, number_at, only_element, text, text_in};
use crate::errors::ReplyError;
use crate::read_breakpoints::breakpoint_in;
use crate::read_responses::{error_in, response_in};
use dp_bytes::Bytes;
use dp_markup::{Element, read};
use dp_packet::{BreakLine, Init, Notify, Packet, ProxyReply, text_of};
use std::alloc::Global;

/// Reads a session's first packet: the key and the file; refuses an element without one of them.
#[tactic(auto, unfolding(crate::specs::Readings::init_in))]
fn init_in(alloc: Global, e: &Element) -> Result<Init, ReplyError>
    ensures { Finds (λ init. init) result (spec.init_in e.now) }
{
    let idekey = text(alloc, e, b"idekey")?;
    let fileuri = text(alloc, e, b"fileuri")?;
    Ok(Init { idekey, fileuri })
}

/// Reads the program's output from base64; refuses any other text, and an element beside it.
#[tactic(auto, unfolding(crate::specs::Readings::stream_in))]
fn stream_in(alloc: Global, e: &Element) -> Result<Bytes, ReplyError>
    ensures { Finds (λ output. output) result (spec.stream_in e.now) }
{
    let text = text_in(alloc, e)?;
    bytes(alloc, text.as_slice())
}

/// Reads the breakpoint that a notification tells of, if it tells of one; refuses anything else in it.
fn notified_in(alloc: Global, e: &Element) -> Result<Option<BreakLine>, ReplyError>
    ensures { Finds (λ told. told) result (spec.notified_in e.now) }
{
    match only_element(e)? {
        None => Ok(None),
        Some(only) => Ok(Some(breakpoint_in(alloc, only)?)),
    }
}

/// Reads a notification: its name, and the breakpoint that it tells of; refuses an element without a name.
#[tactic(auto, unfolding(crate::specs::Readings::notify_in))]
fn notify_in(alloc: Global, e: &Element) -> Result<Notify, ReplyError>
    ensures { Finds (λ notify. notify) result (spec.notify_in e.now) }
{
    let name = text(alloc, e, b"name")?;
    let breakpoint = notified_in(alloc, e)?;
    Ok(Notify { name, breakpoint })
}

/// Reads a proxy's reply that the key is held: key, address and port; refuses an element without one of them.
#[tactic(auto, unfolding(crate::specs::Readings::started_in))]
fn started_in(alloc: Global, e: &Element) -> Result<ProxyReply, ReplyError>
    ensures { Finds (λ reply. reply) result (spec.started_in e.now) }
{
    let key = text(alloc, e, b"idekey")?;
    let host = text(alloc, e, b"address")?;
    let port = number_at(e, b"port", u16::MAX as u64)?;
    Ok(ProxyReply::Started {
        key,
        host,
        port: port as u16,
    })
}

/// Reads a proxy's reply that the key is no longer held; refuses an element without the key.
#[tactic(auto, unfolding(crate::specs::Readings::stopped_in))]
fn stopped_in(alloc: Global, e: &Element) -> Result<ProxyReply, ReplyError>
    ensures { Finds (λ reply. reply) result (spec.stopped_in e.now) }
{
    let key = text(alloc, e, b"idekey")?;
    Ok(ProxyReply::Stopped { key })
}

/// Reads a proxy's refusal, for its number; refuses where its only element is no error with one.
#[tactic(auto, unfolding(crate::specs::Readings::refused_in))]
fn refused_in(stopping: bool, e: &Element) -> Result<ProxyReply, ReplyError>
    ensures { Finds (λ reply. reply) result (spec.refused_in stopping e.now) }
{
    let id = error_in(only_element(e)?, b"id", u8::MAX as u64)?;
    Ok(ProxyReply::Refused {
        stopping,
        id: id as u8,
    })
}

/// Reads a proxy's reply to a call to register or to stop; refuses an element that tells no success or failure.
#[tactic(auto, unfolding(crate::specs::Readings::proxy_in))]
fn proxy_in(alloc: Global, stopping: bool, e: &Element) -> Result<ProxyReply, ReplyError>
    ensures { Finds (λ reply. reply) result (spec.proxy_in stopping e.now) }
{
    if !flag(attribute(e, b"success")?)? {
        refused_in(stopping, e)
    } else if stopping {
        stopped_in(alloc, e)
    } else {
        started_in(alloc, e)
    }
}

/// The packet that an element is. Its texts are copies; takes time and memory linear in the element.
#[tactic(auto, unfolding(crate::specs::Readings::packet_in))]
pub fn packet_in(alloc: Global, e: &Element) -> Result<Packet, ReplyError>
    ensures { Finds (λ packet. packet) result (spec.packet_in e.now) }
{
    if is_named(e, b"init") {
        Ok(Packet::Init(init_in(alloc, e)?))
    } else if is_named(e, b"response") {
        Ok(Packet::Response(response_in(alloc, e)?))
    } else if is_named(e, b"stream") {
        Ok(Packet::Stream(stream_in(alloc, e)?))
    } else if is_named(e, b"notify") {
        Ok(Packet::Notify(notify_in(alloc, e)?))
    } else if is_named(e, b"proxyinit") {
        Ok(Packet::Proxy(proxy_in(alloc, false, e)?))
    } else if is_named(e, b"proxystop") {
        Ok(Packet::Proxy(proxy_in(alloc, true, e)?))
    } else {
        Err(ReplyError::NotDbgp)
    }
}

/// The packet whose text this is, with or without a declaration.
///
/// What is read need not be written as `text_of` writes it: attributes stand in any order, and more
/// of them may stand there. Those that declare namespaces, and elements whose names hold a `:`, are
/// passed over. White space between elements is a text, and makes it no packet.
pub fn packet_of(alloc: Global, text: &[u8]) -> Result<Packet, ReplyError>
    // What is read is the packet that the text's element is.
    ensures found { IfOk result (λ p. (e : Tree) × IsMarkup text.now e × spec.IsPacket e p) }
    // Each packet is read, unless memory fails.
    ensures only { (e : Tree) → (p : AnyPacket) → IsMarkup text.now e → spec.IsPacket e p →
        MatchResult result (λ q. q ≡ p) (λ x. x ≡ ReplyError.Memory) }
    // A text is refused only where it is no markup, or its element is no packet.
    ensures refused { result ≡ Err ReplyError.NotDbgp → (e : Tree) → IsMarkup text.now e →
        spec.packet_in e ≡ None }
{
    let e = read(alloc, text)?;
    packet_in(alloc, &e)
}

/// A packet that is written and read again is the same, but for an empty body.
pub fn reread(alloc: Global, packet: &Packet) -> Result<Packet, ReplyError>
    requires { IsRereadable packet.now }
    ensures { MatchResult result (λ p. p ≡ norm packet.now) (λ e. e ≡ ReplyError.Memory) }
{
    let text = text_of(alloc, packet)?;
    packet_of(alloc, text.as_slice())
}
