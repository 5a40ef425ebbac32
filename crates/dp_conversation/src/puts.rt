//! Putting bytes and packets.
ghost use Rattle.std.specs.Prelude.{◌≡◌, ◌≤◌, ◌++◌, [], IsErrOf, OnOk};
ghost use Rattle.std.specs.List.{flat_map, AllByRecursion};
ghost use Rattle.dp_outside.specs.Causes.{HasCause, Rose};
ghost use Rattle.dp_outside.specs.Streams.{PutAppends};
ghost use Rattle.dp_wire.specs.Frames.{IsPacketText, packet_frame};

use dp_bytes::{Bytes, Memory};
use dp_outside::{Failed, Sink};
use dp_wire::packet_bytes;
use std::alloc::{AllocError, Global};

/// Why a packet was not sent.
#[derive(Clone, Copy, Debug, PartialEq, Eq)]
pub(crate) enum Unsent {
    /// The link's sink failed.
    Failed,
    /// Out of memory.
    Memory,
}

impl From<AllocError> for Unsent {
    ghost use Rattle.std.specs.Prelude.{◌≡◌};
    ghost use Rattle.dp_conversation.specs.declared.puts.Unsent.TheVariants.{Memory};

    ghost from_gives = { λ _ e. e ≡ Memory };

    fn from(_: AllocError) -> Self {
        Unsent::Memory
    }
}

/// Puts the bytes, if there are any, or answers `Failed` after a front of them was taken. For no
/// bytes the sink is not asked.
pub fn put_unless_empty<E: Sink>(out: &mut E, bytes: &[u8]) -> Result<(), Failed>
    ensures taken { PutAppends (E.taken out.old) (E.taken out.new) result bytes.now }
    ensures cause { HasCause (E.faults out.old) (E.faults out.new) result }
    ensures empty { bytes.now ≡ [] → out.new ≡ out.old }
{
    if bytes.is_empty() {
        return Ok(());
    }
    out.put(bytes)
}

/// Appends the packets of these texts, each copied twice. Where memory runs out nothing is said of what was appended.
pub fn append_packets(alloc: Global, texts: &[Bytes], sent: &mut Vec<u8>) -> Result<(), Memory>
    requires { AllByRecursion IsPacketText texts.now }
    ensures { OnOk result (sent.new.items ≡ sent.old.items ++ flat_map packet_frame texts.now) }
{
    for text in texts {
        let frame = packet_bytes(alloc, text.as_slice())?;
        sent.extend_from_slice(frame.as_slice())?;
    }
    Ok(())
}

/// Sends the packets of these texts. Where that fails, a front of them was taken.
pub(crate) fn send_all<K: Sink>(alloc: Global, texts: &[Bytes], sink: &mut K) -> Result<(), Unsent>
    requires { AllByRecursion IsPacketText texts.now }
    ensures taken { PutAppends (K.taken sink.old) (K.taken sink.new) result (flat_map packet_frame texts.now) }
    ensures write { IsErrOf result Unsent.Failed → Rose (K.faults sink.old) (K.faults sink.new) }
    ensures later { K.faults sink.old ≤ K.faults sink.new }
{
    for text in texts {
        send_packet(alloc, text.as_slice(), sink)?;
    }
    Ok(())
}

/// Sends the packet of this text. Where that fails, a front of it was taken.
pub(crate) fn send_packet<K: Sink>(alloc: Global, text: &[u8], sink: &mut K) -> Result<(), Unsent>
    requires { IsPacketText text.now }
    ensures taken { PutAppends (K.taken sink.old) (K.taken sink.new) result (packet_frame text.now) }
    ensures write { IsErrOf result Unsent.Failed → Rose (K.faults sink.old) (K.faults sink.new) }
    ensures later { K.faults sink.old ≤ K.faults sink.new }
{
    let frame = packet_bytes(alloc, text)?;
    match sink.put(frame.as_slice()) {
        Ok(()) => Ok(()),
        Err(_) => Err(Unsent::Failed),
    }
}
