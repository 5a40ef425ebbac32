//! An IDE asks over a live link.
ghost use Rattle.std.specs.Prelude.{◌≡◌, true, IfOk, OnErr};
ghost use Rattle.dp_outside.specs.Names.{IsHost};
ghost use Rattle.dp_packet.specs.declared.packet.Packet.TheVariants as packet_of;
ghost use Rattle.dp_packet.specs.Packets.{has_reason};
ghost use Rattle.dp_packet.specs.Text.{text as text_in};
ghost use Rattle.dp_registry.specs.Verdicts.{reply_of as number_of};
ghost use Rattle.dp_desk.specs.Desks.{Called};
ghost use Rattle.dp_wire.specs.Frames.{IsPacketText};
ghost use Rattle.dp_proxy.specs.Replies.{IsKeyed, verdict_on, entry_of};
ghost use Rattle.dp_relay.specs.Ends.{ends};
ghost use Rattle.dp_relay.specs.Registrations.{Answered, MadeOne, Registered, Replied, Unanswered};
ghost use Rattle.dp_relay.specs.Registrations.{frame_of};
ghost use Rattle.dp_relay.specs.inner.Replying.{Puts, sink_end};

use crate::commands::{READ_LIMIT, read_command};
use crate::errors::RelayError;
use dp_bytes::{Bytes, Memory};
use dp_desk::{Clerk, Desk};
use dp_outside::{Host, Sink, Source};
use dp_packet::{Packet, ProxyReply, text_of};
use dp_proxy::{Call, call_of, reply_of};
use dp_registry::Refusal;
use dp_wire::packet_bytes;
use std::alloc::Global;
use std::sync::Wait;
use std::sync::ledger::Ledger;

/// Makes the call of a host on the registry.
fn make_call<R: Wait, A: Ledger, B: Ledger, C: Ledger>(
    rt: &R,
    desk: &Desk<A, B, C>,
    clerk: &mut Clerk<A, B, C>,
    host: &[u8],
    call: &Call,
) -> Result<(), Refusal>
    requires desk { clerk.old.desk ≡ desk.now }
    requires host { IsHost host.now }
    requires key { IsKeyed call.now }
    ensures { Called clerk.old clerk.new (λ journal. verdict_on journal host.now call.now)
        (entry_of host.now call.now) number_of result }
{
    match call {
        Call::Register {
            port,
            key,
            multiple,
        } => desk.register(rt, clerk, host, *port, key.as_slice(), *multiple),
        Call::Stop { key } => desk.stop(rt, clerk, host, key.as_slice()),
    }
}

/// Makes the call that the command of a host names, and gives the reply.
fn answer<R: Wait, A: Ledger, B: Ledger, C: Ledger>(
    rt: &R,
    alloc: Global,
    desk: &Desk<A, B, C>,
    clerk: &mut Clerk<A, B, C>,
    host: &[u8],
    command: &[u8],
) -> Result<ProxyReply, Memory>
    requires desk { clerk.old.desk ≡ desk.now }
    requires host { IsHost host.now }
    ensures answered { IfOk result (Answered clerk.old clerk.new host.now command.now) }
    ensures reason { IfOk result (λ reply. has_reason reply ≡ true) }
    ensures memory { OnErr result (Unanswered clerk.old clerk.new host.now command.now) }
{
    let Some(call) = call_of(alloc, command)? else {
        return reply_of(alloc, host, command, &Ok(()));
    };
    match make_call(rt, desk, clerk, host, &call) {
        Err(Refusal::Memory) => Err(Memory),
        verdict => reply_of(alloc, host, command, &verdict),
    }
}

/// The frame of a reply, and the reply.
fn framed(alloc: Global, reply: ProxyReply) -> Result<(Bytes, ProxyReply), Memory>
    requires reason { has_reason reply ≡ true }
    requires fits { IsPacketText (text_in (packet_of.Proxy reply)) }
    ensures { IfOk result (λ two. (two.0 ≡ frame_of reply) × (two.1 ≡ reply)) }
{
    let packet = Packet::Proxy(reply);
    let text = text_of(alloc, &packet)?;
    let frame = packet_bytes(alloc, text.as_slice())?;
    match packet {
        Packet::Proxy(reply) => Ok((frame, reply)),
        Packet::Init(_init) => unreachable!(),
        Packet::Response(_response) => unreachable!(),
        Packet::Stream(_output) => unreachable!(),
        Packet::Notify(_news) => unreachable!(),
    }
}

/// Puts the frame of a reply.
fn put_reply<K: Sink>(
    alloc: Global,
    sink: &mut K,
    reply: ProxyReply,
) -> Result<ProxyReply, RelayError>
    requires reason { has_reason reply ≡ true }
    requires fits { IsPacketText (text_in (packet_of.Proxy reply)) }
    ensures { Puts (sink_end K.Sink sink.old) (sink_end K.Sink sink.new) reply result }
{
    let (frame, reply) = framed(alloc, reply)?;
    match sink.put(frame.as_slice()) {
        Ok(()) => Ok(reply),
        Err(_) => Err(RelayError::WriteFault),
    }
}

/// Answers the command of a host, and puts the reply.
fn serve_command<R: Wait, A: Ledger, B: Ledger, C: Ledger, K: Sink>(
    rt: &R,
    alloc: Global,
    desk: &Desk<A, B, C>,
    clerk: &mut Clerk<A, B, C>,
    host: &[u8],
    command: &[u8],
    sink: &mut K,
) -> Result<ProxyReply, RelayError>
    requires desk { clerk.old.desk ≡ desk.now }
    requires host { IsHost host.now }
    ensures { Replied clerk.old clerk.new host.now command.now (sink_end K.Sink sink.old)
        (sink_end K.Sink sink.new) result }
{
    let reply = answer(rt, alloc, desk, clerk, host, command)?;
    put_reply(alloc, sink, reply)
}

/// Reads a command, answers it and puts the reply.
fn serve_asked<R: Wait, A: Ledger, B: Ledger, C: Ledger, S: Source, K: Sink>(
    rt: &R,
    alloc: Global,
    desk: &Desk<A, B, C>,
    clerk: &mut Clerk<A, B, C>,
    host: &[u8],
    source: &mut S,
    sink: &mut K,
) -> Result<ProxyReply, RelayError>
    requires desk { clerk.old.desk ≡ desk.now }
    requires host { IsHost host.now }
    ensures { Registered clerk.old clerk.new host.now (ends S.Source K.Sink source.old sink.old)
        (ends S.Source K.Sink source.new sink.new) result }
{
    let mut buffer = [0; READ_LIMIT];
    match read_command(source, &mut buffer) {
        Ok(length) => serve_command(rt, alloc, desk, clerk, host, &buffer[..length], sink),
        Err(why) => Err(why),
    }
}

/// Reads one command of an IDE, ended by a NUL or by the end of the input, makes the call on the registry that it
/// names, and puts the reply. Then the link is ended. It waits.
///
/// At most 4,097 bytes are read. Nothing is asked of the registry where they hold no NUL, nor where the source fails;
/// where the sink fails what was asked stands.
pub fn serve_registration<R: Wait, A: Ledger, B: Ledger, C: Ledger, S: Source, K: Sink>(
    rt: &R,
    alloc: Global,
    desk: &Desk<A, B, C>,
    clerk: &mut Clerk<A, B, C>,
    host: &Host,
    source: &mut S,
    sink: &mut K,
) -> Result<ProxyReply, RelayError>
    requires desk { clerk.old.desk ≡ desk.now }
    ensures registered { Registered clerk.old clerk.new host.now (ends S.Source K.Sink source.old sink.old)
        (ends S.Source K.Sink source.new sink.new) result }
    ensures one { MadeOne clerk.old clerk.new }
{
    let ended = serve_asked(rt, alloc, desk, clerk, host.text(), source, sink);
    sink.finish();
    ended
}
