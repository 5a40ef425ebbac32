//! What an IDE is answered.
ghost use Rattle.std.specs.Prelude.{◌≡◌, ◌⊎◌, true, Some, Ok, Err, IfOk, OnOk, OnErr};
ghost use Rattle.dp_packet.specs.Packets.{has_reason};
ghost use Rattle.dp_registry.specs.declared.refusal.Refusal.TheVariants as refusal;
ghost use Rattle.dp_outside.specs.Names.{IsHost};
ghost use Rattle.dp_proxy.specs.Replies as spec;

use crate::calls::{Call, call_of, is_stopping};
use dp_bytes::{Bytes, Memory};
use dp_packet::ProxyReply;
use dp_registry::{Refusal, Registry};
use std::alloc::Global;

/// The number of a refusal. Takes no memory.
fn id_of(why: &Refusal) -> u8
    ensures { result ≡ spec.id_of why.now }
{
    match why {
        Refusal::Taken { host: _, port: _ } => 1,
        Refusal::Unknown => 2,
        Refusal::NotYours => 3,
        Refusal::Full { events: _, live: _ } => 5,
        Refusal::Busy { session: _ } => 0,
        Refusal::Memory => 0,
    }
}

/// What the registry answers to the call of a host.
fn verdict_on(registry: &mut Registry, host: &[u8], call: &Call) -> Result<(), Refusal>
    requires host { IsHost host.now }
    requires key { spec.IsKeyed call.now }
    ensures verdict { (result ≡ Err refusal.Memory) ⊎ (result ≡ spec.verdict_on registry.old host.now call.now) }
    ensures memory { result ≡ Err refusal.Memory → registry.new ≡ registry.old }
    ensures entry { (result ≡ spec.verdict_on registry.old host.now call.now)
        → registry.new ≡ spec.registered_by registry.old host.now (Some call.now) }
{
    match call {
        Call::Register {
            port,
            key,
            multiple,
        } => registry.register(host, *port, key.as_slice(), *multiple),
        Call::Stop { key } => registry.stop(host, key.as_slice()),
    }
}

/// The reply to a command of a host for this verdict on its call; the one with number 4 where it names none.
pub fn reply_of(
    alloc: Global,
    host: &[u8],
    command: &[u8],
    verdict: &Result<(), Refusal>,
) -> Result<ProxyReply, Memory>
    requires host { IsHost host.now }
    requires verdict { spec.IsAnswerable verdict.now }
    ensures reply { IfOk result (λ reply. reply ≡ spec.reply_for host.now command.now verdict.now) }
    ensures reason { IfOk result (λ reply. has_reason reply ≡ true) }
{
    let Some(call) = call_of(alloc, command)? else {
        return Ok(ProxyReply::Refused {
            stopping: is_stopping(alloc, command)?,
            id: 4,
        });
    };
    match verdict {
        Err(why) => Ok(ProxyReply::Refused {
            stopping: is_stopping(alloc, command)?,
            id: id_of(why),
        }),
        Ok(_) => accepted(alloc, host, call),
    }
}

/// The reply to a call of a host that the registry accepted.
fn accepted(alloc: Global, host: &[u8], call: Call) -> Result<ProxyReply, Memory>
    ensures { IfOk result (λ reply. reply ≡ spec.accepted host.now call) }
{
    match call {
        Call::Register {
            port,
            key,
            multiple: _,
        } => Ok(ProxyReply::Started {
            key,
            host: Bytes::from_slice(alloc, host)?,
            port,
        }),
        Call::Stop { key } => Ok(ProxyReply::Stopped { key }),
    }
}

/// Answers one command of a host, without its NUL: makes the call that it names, and replies.
///
/// Once memory ran out the registry is as before, or the call was made.
pub fn registration(
    alloc: Global,
    registry: &mut Registry,
    host: &[u8],
    command: &[u8],
) -> Result<ProxyReply, Memory>
    requires host { IsHost host.now }
    ensures reply { IfOk result (λ reply. reply ≡ spec.reply registry.old host.now command.now) }
    ensures reason { IfOk result (λ reply. has_reason reply ≡ true) }
    ensures journal { OnOk result (registry.new ≡ spec.registered registry.old host.now command.now) }
    ensures memory { OnErr result ((registry.new ≡ registry.old)
        ⊎ (registry.new ≡ spec.registered registry.old host.now command.now)) }
{
    let Some(call) = call_of(alloc, command)? else {
        return reply_of(alloc, host, command, &Ok(()));
    };
    match verdict_on(registry, host, &call) {
        Err(Refusal::Memory) => Err(Memory),
        verdict => reply_of(alloc, host, command, &verdict),
    }
}
