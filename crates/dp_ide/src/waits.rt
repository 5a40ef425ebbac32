//! Packets are awaited.
ghost use Rattle.std.specs.Prelude.{◌≡◌, ◌<◌, ◌≤◌, ℕ, List, length, IfOk, IfErr, IfSome, IfNone, OnErr, OnOk};
ghost use Rattle.std.specs.Io.KnownBytes.{Consumes, IsAtEnd};
ghost use Rattle.dp_outside.specs.Changes.{change};
ghost use Rattle.dp_ide.specs.Messages.{IsMessage};
ghost use Rattle.dp_ide.specs.declared.heard.Message.{Message as AnyMessage};
ghost use Rattle.dp_ide.specs.inner.Progress.{AnswerFails, Hears, HoldsMore, HoldsNext, NextFails, PieceFails};
ghost use Rattle.dp_ide.specs.inner.Progress.{TakesAnswer, TakesNext};

use crate::contents::{answers, output_in};
use crate::errors::IdeError;
use crate::heard::{Heard, Message};
use dp_bytes::Memory;
use dp_markup::{MarkupError, read};
use dp_outside::Source;
use dp_reply::{ReplyError, packet_in};
use dp_wire::Packets;
use std::alloc::Global;
use std::mem;
use std::ops::Range;

/// The most bytes that are read at once.
const PIECE: usize = 65_536;

/// The message of a packet's text, and `None` where it has none.
fn message_of(alloc: Global, text: &[u8]) -> Result<Option<Message>, Memory>
    ensures some { IfOk result (λ found. IfSome found (λ message. IsMessage text.now message)) }
    ensures none { IfOk result (λ found. IfNone found ((message : AnyMessage) → IsMessage text.now message → ⊥)) }
{
    let root = match read(alloc, text) {
        Ok(root) => root,
        Err(MarkupError::Memory) => return Err(Memory),
        Err(MarkupError::BadMarkup { offset: _ }) => return Ok(None),
        Err(MarkupError::TooDeep) => return Ok(None),
    };
    match packet_in(alloc, &root) {
        Ok(packet) => Ok(Some(Message { root, packet })),
        Err(ReplyError::NotDbgp) => Ok(None),
        Err(ReplyError::Memory) => Err(Memory),
    }
}

/// Reads one piece, which follows what is held, and answers its length: 0 at the end of the input.
fn read_piece<S: Source>(
    source: &mut S,
    packets: &mut Packets,
    buffer: &mut [u8],
) -> Result<usize, IdeError>
    requires { 0 < length buffer.old }
    ensures room { length buffer.new ≡ length buffer.old }
    ensures ok { IfOk result (λ count. (piece : List ℕ) × Consumes (S.left source.old) (S.left source.new) piece
        × HoldsMore packets.old packets.new piece × (count ≡ length piece) × (count ≤ length buffer.old)) }
    ensures end { IfOk result (λ count. count ≡ 0 → IsAtEnd (S.left source.new)) }
    ensures err { IfErr result (λ why. PieceFails why (change S.left S.faults source.old source.new)) }
    ensures kept { OnErr result (packets.new ≡ packets.old) }
    ensures later { S.faults source.old ≤ S.faults source.new }
{
    match source.take(buffer) {
        Ok(count) => {
            packets.feed(&buffer[..count])?;
            Ok(count)
        }
        Err(_) => Err(IdeError::ReadFault),
    }
}

/// Reads until a whole packet is held, and answers the range of its text.
fn next_range<S: Source>(source: &mut S, packets: &mut Packets) -> Result<Range<usize>, IdeError>
    ensures ok { IfOk result (λ range. HoldsNext packets.old packets.new range.start range.end
        (change S.left S.faults source.old source.new)) }
    ensures err { IfErr result (λ why. NextFails why packets.old (change S.left S.faults source.old source.new)) }
    ensures later { S.faults source.old ≤ S.faults source.new }
{
    let mut buffer = [0; PIECE];
    'pieces: for _ in 0..u64::MAX {
        match packets.next() {
            Ok(Some(range)) => return Ok(range),
            Ok(None) => {}
            Err(why) => {
                return Err(IdeError::BadPacket {
                    offset: why.place(packets.dropped()),
                });
            }
        }
        match read_piece(source, packets, &mut buffer) {
            Ok(0) => return Err(IdeError::PeerEnd),
            Ok(_) => {}
            Err(why) => return Err(why),
        }
    }
    Err(IdeError::Memory)
}

/// The next packet, which is taken.
pub(crate) fn next_message<S: Source>(
    alloc: Global,
    source: &mut S,
    packets: &mut Packets,
) -> Result<Message, IdeError>
    ensures ok { IfOk result (TakesNext packets.old packets.new (change S.left S.faults source.old source.new)) }
    ensures err { IfErr result (λ why. NextFails why packets.old (change S.left S.faults source.old source.new)) }
    ensures later { S.faults source.old ≤ S.faults source.new }
{
    let range = match next_range(source, packets) {
        Ok(range) => range,
        Err(why) => return Err(why),
    };
    match message_of(alloc, &packets.bytes()[range]) {
        Ok(Some(message)) => {
            packets.drop_front();
            Ok(message)
        }
        Ok(None) => Err(IdeError::BadPacket {
            offset: packets.dropped(),
        }),
        Err(_) => Err(IdeError::Memory),
    }
}

/// Hears a message: whether it is the response to the command with this id, which is the last message then. The output
/// of another is kept.
fn hear(id: &[u8], message: Message, heard: &mut Heard) -> Result<bool, Memory>
    ensures { IfOk result (Hears id.now message heard.old heard.new) }
{
    if answers(id, &message.packet) {
        drop(mem::replace(&mut heard.last, message));
        return Ok(true);
    }
    let kept = heard.output.extend_from_slice(output_in(&message.packet));
    drop(message);
    kept?;
    Ok(false)
}

/// Reads packets up to the response to the command with this id. Others are passed over, and their output is kept.
pub(crate) fn await_answer<S: Source>(
    alloc: Global,
    id: &[u8],
    source: &mut S,
    packets: &mut Packets,
    heard: &mut Heard,
) -> Result<(), IdeError>
    ensures ok { OnOk result (TakesAnswer id.now heard.old heard.new packets.old packets.new
        (change S.left S.faults source.old source.new)) }
    ensures err { IfErr result (λ why. AnswerFails id.now why packets.old
        (change S.left S.faults source.old source.new)) }
    ensures later { S.faults source.old ≤ S.faults source.new }
{
    'packets: for _ in 0..u64::MAX {
        match next_message(alloc, source, packets) {
            Ok(message) => match hear(id, message, heard) {
                Ok(true) => return Ok(()),
                Ok(false) => {}
                Err(_) => return Err(IdeError::Memory),
            },
            Err(why) => return Err(why),
        }
    }
    Err(IdeError::Memory)
}
