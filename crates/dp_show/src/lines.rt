//! Packets are read, and the text of each is written as a line.

ghost use Rattle.std.specs.Prelude.{◌≡◌, ◌<◌, ◌≤◌, ◌++◌, ℕ, List, length, IfOk, IfErr, OnOk, OnErr};
ghost use Rattle.std.specs.Io.KnownBytes.{Appends, Consumes, IsAtEnd};
ghost use Rattle.dp_outside.specs.Changes.{change};
ghost use Rattle.dp_wire.specs.Frames.{IsPartialPacket};
ghost use Rattle.dp_show.specs.Shows.{Ends};
ghost use Rattle.dp_show.specs.inner.Progress.{LineOf, IsLine, ShowsOn, TextFails, HeldFails, PieceFails};

use crate::errors::ShowError;
use dp_bytes::{Bytes, Memory};
use dp_markup::{MarkupError, read, write};
use dp_outside::{Sink, Source};
use dp_wire::Packets;
use std::alloc::Global;

/// The most bytes that are read at once.
const PIECE: usize = 65_536;

/// The line of a packet's text: the canonical text of its element, and a line feed. `None` where the text is no markup.
fn line_of(alloc: Global, text: &[u8]) -> Result<Option<Bytes>, Memory>
    ensures { IfOk result (λ line. LineOf text.now line) }
{
    match read(alloc, text) {
        Ok(element) => {
            let mut line = write(alloc, &element)?.into_vec();
            line.push(b'\n')?;
            Ok(Some(Bytes::of(line)))
        }
        Err(MarkupError::Memory) => Err(Memory),
        Err(MarkupError::BadMarkup { offset: _ }) => Ok(None),
        Err(MarkupError::TooDeep) => Ok(None),
    }
}

/// Shows a packet's text, whose frame begins at this offset.
fn show_text<K: Sink>(alloc: Global, text: &[u8], offset: u64, out: &mut K) -> Result<(), ShowError>
    ensures ok { OnOk result ((line : List ℕ) × IsLine text.now line
        × Appends (K.taken out.old) (K.taken out.new) line) }
    ensures err { IfErr result (λ why. TextFails why text.now offset (change K.taken K.faults out.old out.new)) }
    ensures later { K.faults out.old ≤ K.faults out.new }
{
    let Some(line) = line_of(alloc, text)? else {
        return Err(ShowError::BadPacket { offset });
    };
    match out.put(line.as_slice()) {
        Ok(()) => Ok(()),
        Err(_) => Err(ShowError::OutFault),
    }
}

/// Shows each whole packet that is held, and drops it.
fn show_held<K: Sink>(alloc: Global, packets: &mut Packets, out: &mut K) -> Result<(), ShowError>
    ensures shown { OnOk result (ShowsOn packets.old packets.new (K.taken out.old) (K.taken out.new)) }
    ensures partial { OnOk result (IsPartialPacket packets.new.held) }
    ensures err { IfErr result (λ why. HeldFails why packets.old packets.new
        (change K.taken K.faults out.old out.new)) }
    ensures later { K.faults out.old ≤ K.faults out.new }
{
    'packets: loop {
        let start = packets.dropped();
        let range = match packets.next() {
            Ok(Some(range)) => range,
            Ok(None) => return Ok(()),
            Err(why) => {
                let offset = why.place(start);
                return Err(ShowError::BadPacket { offset });
            }
        };
        match show_text(alloc, &packets.bytes()[range], start, out) {
            Ok(()) => packets.drop_front(),
            Err(why) => return Err(why),
        }
    }
}

/// Reads one piece, which follows what is held, and answers its length: 0 at the end of the input.
fn read_piece<S: Source>(
    input: &mut S,
    packets: &mut Packets,
    buffer: &mut [u8],
) -> Result<usize, ShowError>
    requires { 0 < length buffer.old }
    ensures ok { IfOk result (λ count. (piece : List ℕ) × Consumes (S.left input.old) (S.left input.new) piece
        × (packets.new.held ≡ packets.old.held ++ piece) × (count ≡ length piece)) }
    ensures end { IfOk result (λ count. count ≡ 0 → IsAtEnd (S.left input.new)) }
    ensures dropped { packets.new.dropped ≡ packets.old.dropped }
    ensures err { IfErr result (λ why. PieceFails why (change S.left S.faults input.old input.new)) }
    ensures kept { OnErr result (packets.new ≡ packets.old) }
    ensures later { S.faults input.old ≤ S.faults input.new }
{
    match input.take(buffer) {
        Ok(count) => {
            packets.feed(&buffer[..count])?;
            Ok(count)
        }
        Err(_) => Err(ShowError::ReadFault),
    }
}

/// Reads packets to the end of the input, and prints the element of each in canonical text with a line feed.
///
/// A packet is shown as soon as it is read, and nothing behind the first bytes that are no packet. It waits in the
/// calls of its input and output alone.
pub fn show<S: Source, K: Sink>(alloc: Global, input: &mut S, out: &mut K) -> Result<(), ShowError>
    ensures ends { Ends result (change S.left S.faults input.old input.new) (change K.taken K.faults out.old out.new) }
    ensures input_later { S.faults input.old ≤ S.faults input.new }
    ensures out_later { K.faults out.old ≤ K.faults out.new }
{
    let mut packets = Packets::new(alloc);
    let mut buffer = [0; PIECE];
    'pieces: for _ in 0..u64::MAX {
        match read_piece(input, &mut packets, &mut buffer) {
            Ok(0) if packets.bytes().is_empty() => return Ok(()),
            Ok(0) => return Err(ShowError::PeerEnd),
            Ok(_) => {}
            Err(why) => return Err(why),
        }
        match show_held(alloc, &mut packets, out) {
            Ok(()) => {}
            Err(why) => return Err(why),
        }
    }
    Err(ShowError::Memory)
}
