//! A script is played.
ghost use Rattle.std.specs.Prelude.{◌≡◌, ◌≤◌, [], ◌∷◌, ℕ, List, Some, IsOk, IsTrue, ◌↔◌, IfOk, IfErr, OnOk, decimal};
ghost use Rattle.std.specs.Io.KnownBytes.{Appends, Consumes};
ghost use Rattle.std.specs.List.{All};
ghost use Rattle.std.specs.Option.{option_copied};
ghost use Rattle.dp_outside.specs.Changes.{change};
ghost use Rattle.dp_wire.specs.Frames.{IsCommand, command_frame};
ghost use Rattle.dp_ide.specs.Messages as spec;
ghost use Rattle.dp_ide.specs.Plays.{Ends};
ghost use Rattle.dp_ide.specs.Instructions.{wants};
ghost use Rattle.dp_ide.specs.inner.Progress.{EndsFrom, OpenFails, PerformFails, ExchangeFails, IsPlayable, Performs};
ghost use Rattle.dp_ide.specs.inner.Progress.{PrintFails, Refuses, SendFails, StoodUpTo, TakesAnswer, printed_line};

use crate::contents::{attribute, code_in, content_in, is_init};
use crate::errors::IdeError;
use crate::heard::{Heard, Message};
use crate::instruction::{Act, Instruction};
use crate::script::Script;
use crate::waits::{await_answer, next_message};
use dp_bytes::Bytes;
use dp_markup::write;
use dp_outside::{Sink, Source};
use dp_wire::{Packets, command_bytes};
use std::alloc::Global;
use std::sync::Wait;

/// Tells what was found in place of what was wanted, where these differ.
fn compare(alloc: Global, line: u64, wanted: &[u8], found: Option<&[u8]>) -> Result<(), IdeError>
    ensures ok { OnOk result (option_copied found.entry ≡ Some wanted.now) }
    ensures err { IfErr result (λ why. Refuses why line (wants wanted.now (option_copied found.entry))) }
{
    match found {
        Some(found) if found == wanted => Ok(()),
        Some(found) => Err(IdeError::Differs {
            line,
            wanted: Bytes::from_slice(alloc, wanted)?,
            found: Some(Bytes::from_slice(alloc, found)?),
        }),
        None => Err(IdeError::Differs {
            line,
            wanted: Bytes::from_slice(alloc, wanted)?,
            found: None,
        }),
    }
}

/// Compares codes.
fn compare_code(alloc: Global, line: u64, wanted: u16, found: u16) -> Result<(), IdeError>
    ensures ok { OnOk result (found ≡ wanted) }
    ensures err { IfErr result (λ why. Refuses why line (wants (decimal wanted) (Some (decimal found)))) }
{
    if found == wanted {
        return Ok(());
    }
    let wanted = wanted.to_string(alloc)?;
    let found = found.to_string(alloc)?;
    compare(alloc, line, wanted.as_bytes(), Some(found.as_bytes()))
}

/// Looks for the content of a property.
fn compare_content(
    alloc: Global,
    line: u64,
    name: &[u8],
    wanted: &[u8],
    heard: &Heard,
) -> Result<(), IdeError>
    ensures ok { OnOk result (spec.content_in name.now heard.now.last.packet ≡ Some wanted.now) }
    ensures err { IfErr result (λ why. Refuses why line (wants wanted.now
        (spec.content_in name.now heard.now.last.packet))) }
{
    match content_in(alloc, name, &heard.last.packet)? {
        Some(found) => compare(alloc, line, wanted, Some(found.as_slice())),
        None => compare(alloc, line, wanted, None),
    }
}

/// Compares the output since the last time, which is forgotten where it is what was wanted.
fn take_output(alloc: Global, line: u64, wanted: &[u8], heard: &mut Heard) -> Result<(), IdeError>
    ensures ok { OnOk result (heard.old.output.items ≡ wanted.now) }
    ensures last { heard.new.last ≡ heard.old.last }
    ensures forgotten { OnOk result (heard.new.output.items ≡ []) }
    ensures err { IfErr result (λ why. Refuses why line (wants wanted.now (Some heard.old.output.items))) }
{
    match compare(alloc, line, wanted, Some(heard.output.as_slice())) {
        Ok(()) => {
            heard.output.clear();
            Ok(())
        }
        Err(why) => Err(why),
    }
}

/// Writes the element of the last message, and a line feed, by one put.
fn print<O: Sink>(alloc: Global, heard: &Heard, out: &mut O) -> Result<(), IdeError>
    ensures ok { OnOk result (Appends (O.taken out.old) (O.taken out.new) (printed_line heard.now)) }
    ensures err { IfErr result (λ why. PrintFails why heard.now (change O.taken O.faults out.old out.new)) }
    ensures later { O.faults out.old ≤ O.faults out.new }
{
    let mut line = write(alloc, &heard.last.root)?.into_vec();
    line.push(b'\n')?;
    match out.put(line.as_slice()) {
        Ok(()) => Ok(()),
        Err(_) => Err(IdeError::OutFault),
    }
}

/// Sends a command, by one put.
fn send<K: Sink>(alloc: Global, line: &[u8], sink: &mut K) -> Result<(), IdeError>
    requires { IsCommand line.now }
    ensures ok { OnOk result (Appends (K.taken sink.old) (K.taken sink.new) (command_frame line.now)) }
    ensures err { IfErr result (λ why. SendFails why line.now (change K.taken K.faults sink.old sink.new)) }
    ensures later { K.faults sink.old ≤ K.faults sink.new }
{
    let frame = command_bytes(alloc, line)?;
    match sink.put(frame.as_slice()) {
        Ok(()) => Ok(()),
        Err(_) => Err(IdeError::WriteFault),
    }
}

/// Sends a command, and reads packets up to the response to it.
fn exchange<S: Source, K: Sink>(
    alloc: Global,
    line: &[u8],
    id: &[u8],
    source: &mut S,
    sink: &mut K,
    packets: &mut Packets,
    heard: &mut Heard,
) -> Result<(), IdeError>
    requires { IsCommand line.now }
    ensures sent { OnOk result (Appends (K.taken sink.old) (K.taken sink.new) (command_frame line.now)) }
    ensures answered { OnOk result (TakesAnswer id.now heard.old heard.new packets.old packets.new
        (change S.left S.faults source.old source.new)) }
    ensures err { IfErr result (λ why. ExchangeFails why line.now id.now packets.old
        (change S.left S.faults source.old source.new) (change K.taken K.faults sink.old sink.new)) }
    ensures source_later { S.faults source.old ≤ S.faults source.new }
    ensures sink_later { K.faults sink.old ≤ K.faults sink.new }
{
    match send(alloc, line, sink) {
        Ok(()) => await_answer(alloc, id, source, packets, heard),
        Err(why) => Err(why),
    }
}

/// Plays one instruction.
fn perform<S: Source, K: Sink, O: Sink>(
    alloc: Global,
    one: &Instruction,
    source: &mut S,
    sink: &mut K,
    out: &mut O,
    packets: &mut Packets,
    heard: &mut Heard,
) -> Result<(), IdeError>
    requires { IsPlayable one.now }
    ensures ok { OnOk result (Performs (one.now ∷ []) packets.old packets.new heard.old heard.new
        (change S.left S.faults source.old source.new) (change K.taken K.faults sink.old sink.new)
        (change O.taken O.faults out.old out.new)) }
    ensures err { IfErr result (λ why. PerformFails why one.now packets.old heard.old
        (change S.left S.faults source.old source.new) (change K.taken K.faults sink.old sink.new)
        (change O.taken O.faults out.old out.new)) }
    ensures source_later { S.faults source.old ≤ S.faults source.new }
    ensures sink_later { K.faults sink.old ≤ K.faults sink.new }
    ensures out_later { O.faults out.old ≤ O.faults out.new }
{
    match &one.act {
        Act::Send { line, id } => exchange(
            alloc,
            line.as_slice(),
            id.as_slice(),
            source,
            sink,
            packets,
            heard,
        ),
        Act::Attr { name, text } => {
            let found = attribute(&heard.last.root, name.as_slice());
            compare(alloc, one.line, text.as_slice(), found)
        }
        Act::Code(code) => compare_code(alloc, one.line, *code, code_in(&heard.last.packet)),
        Act::Prop { name, text } => {
            compare_content(alloc, one.line, name.as_slice(), text.as_slice(), heard)
        }
        Act::Out(text) => take_output(alloc, one.line, text.as_slice(), heard),
        Act::Print => print(alloc, heard, out),
    }
}

/// The first message, which is an init.
fn hear_init(alloc: Global, last: Message) -> Result<Heard, IdeError>
    ensures init { IsOk result ↔ IsTrue (spec.is_init last.packet) }
    ensures heard { IfOk result (λ heard. (heard.last ≡ last) × (heard.output.items ≡ [])) }
    ensures refused { IfErr result (λ why. why ≡ IdeError.BadPacket 0) }
{
    if is_init(&last.packet) {
        Ok(Heard {
            last,
            output: Vec::new(alloc),
        })
    } else {
        drop(last);
        Err(IdeError::BadPacket { offset: 0 })
    }
}

/// Reads the first packet, which is an init.
fn open<S: Source>(alloc: Global, source: &mut S, packets: &mut Packets) -> Result<Heard, IdeError>
    requires nothing { packets.old.held ≡ [] }
    requires first { packets.old.dropped ≡ 0 }
    ensures ok { IfOk result (λ heard. (read : List ℕ) × Consumes (S.left source.old) (S.left source.new) read
        × StoodUpTo read [] packets.new heard []) }
    ensures err { IfErr result (λ why. OpenFails why (change S.left S.faults source.old source.new)) }
    ensures later { S.faults source.old ≤ S.faults source.new }
{
    match next_message(alloc, source, packets) {
        Ok(last) => hear_init(alloc, last),
        Err(why) => Err(why),
    }
}

/// Plays the instructions of a script, in order.
fn perform_each<S: Source, K: Sink, O: Sink>(
    alloc: Global,
    script: &[Instruction],
    source: &mut S,
    sink: &mut K,
    out: &mut O,
    packets: &mut Packets,
    heard: &mut Heard,
) -> Result<(), IdeError>
    requires { All IsPlayable script.now }
    ensures ends { EndsFrom script.now packets.old heard.old result (change S.left S.faults source.old source.new)
        (change K.taken K.faults sink.old sink.new) (change O.taken O.faults out.old out.new) }
    ensures source_later { S.faults source.old ≤ S.faults source.new }
    ensures sink_later { K.faults sink.old ≤ K.faults sink.new }
    ensures out_later { O.faults out.old ≤ O.faults out.new }
{
    for one in script {
        match perform(alloc, one, source, sink, out, packets, heard) {
            Ok(()) => {}
            Err(why) => return Err(why),
        }
    }
    Ok(())
}

/// Plays a script over the link of an engine: its first packet is awaited, then each instruction is played in order.
///
/// Commands are sent on `sink`, each by one put, and what a `print` writes goes to `out`. It reads pieces of at most
/// 65,536 bytes while a packet is awaited, so behind the last one that it awaits it has read fewer. It waits in the
/// calls of `source`, `sink` and `out` alone.
pub fn play<R: Wait + Sync, S: Source, K: Sink, O: Sink>(
    _rt: &R,
    alloc: Global,
    script: &Script,
    source: &mut S,
    sink: &mut K,
    out: &mut O,
) -> Result<(), IdeError>
    ensures ends { Ends script.now result (change S.left S.faults source.old source.new)
        (change K.taken K.faults sink.old sink.new) (change O.taken O.faults out.old out.new) }
    ensures source_later { S.faults source.old ≤ S.faults source.new }
    ensures sink_later { K.faults sink.old ≤ K.faults sink.new }
    ensures out_later { O.faults out.old ≤ O.faults out.new }
{
    let mut packets = Packets::new(alloc);
    match open(alloc, source, &mut packets) {
        Ok(mut heard) => {
            let end = perform_each(
                alloc,
                script.instructions(),
                source,
                sink,
                out,
                &mut packets,
                &mut heard,
            );
            drop(heard);
            end
        }
        Err(why) => Err(why),
    }
}
