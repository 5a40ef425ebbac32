//! Where the program's output goes.
ghost use Rattle.std.specs.Prelude.{◌≡◌, ◌∷◌, ◌++◌, [], drop, option_to_list, take, IfOk, OnOk};
ghost use Rattle.std.specs.List.{AllByRecursion};
ghost use Rattle.dp_packet.specs.declared.packet.Packet.TheVariants as packet;
ghost use Rattle.dp_packet.specs.Text.{text as text_for};
ghost use Rattle.dp_wire.specs.Frames.{IsPacketText};
ghost use Rattle.dp_engine.specs.Answers as spec;
ghost use Rattle.dp_engine.specs.Responses.{stream_size, streams};

use dp_bytes::{Bytes, Items, Memory};
use dp_command::StreamMode;
use dp_packet::{Packet, text_of};
use std::alloc::Global;

/// So many bytes of output stand in one packet.
const STREAM_SIZE: usize = 4096;

/// The packet in which a piece of output goes to the IDE.
fn stream_text(alloc: Global, piece: &[u8]) -> Result<Bytes, Memory>
    ensures { IfOk result (λ made. made ≡ text_for (packet.Stream piece.now)) }
{
    let piece = Bytes::from_slice(alloc, piece)?;
    text_of(alloc, &Packet::Stream(piece))
}

/// The first piece of output, and what follows it.
fn first_piece(output: &[u8]) -> (&[u8], &[u8])
    ensures piece { result.0.now ≡ take stream_size output.now }
    ensures rest { result.1.now ≡ drop stream_size output.now }
{
    if output.len() <= STREAM_SIZE {
        (output, &[])
    } else {
        output.split_at(STREAM_SIZE)
    }
}

/// Puts the packets in which output goes to the IDE behind others.
#[tactic(auto, using(crate::proofs::StreamPackets::streams_on))]
fn put_streams(alloc: Global, texts: &mut Vec<Bytes>, output: &[u8]) -> Result<(), Memory>
    ensures { OnOk result (texts.new.items ≡ texts.old.items ++ streams output.now) }
{
    let mut rest = output;
    while !rest.is_empty() {
        let (piece, more) = first_piece(rest);
        texts.push(stream_text(alloc, piece)?)?;
        rest = more;
    }
    Ok(())
}

/// The output that goes to the IDE, then a text, if there is one, and this text last.
fn gather(
    alloc: Global,
    mode: StreamMode,
    output: &[u8],
    before: Option<Bytes>,
    text: Bytes,
) -> Result<Items<Bytes>, Memory>
    ensures { IfOk result (λ texts. texts ≡
        spec.to_ide mode output.now ++ option_to_list before ++ text ∷ []) }
{
    let mut texts = Vec::new(alloc);
    match mode {
        StreamMode::Disable => {}
        StreamMode::Copy => put_streams(alloc, &mut texts, output)?,
        StreamMode::Redirect => put_streams(alloc, &mut texts, output)?,
    }
    match before {
        Some(news) => texts.push(news)?,
        None => {}
    }
    texts.push(text)?;
    Ok(Items::of(texts))
}

/// What goes to the IDE: the output that goes there, then news, if there are any, and the text of a response last.
pub(crate) fn to_ide(
    alloc: Global,
    mode: StreamMode,
    output: &[u8],
    before: Option<Bytes>,
    text: Bytes,
) -> Result<Items<Bytes>, Memory>
    requires text { IsPacketText text }
    requires before { AllByRecursion IsPacketText (option_to_list before) }
    ensures packets { IfOk result (λ texts. texts ≡
        spec.to_ide mode output.now ++ option_to_list before ++ text ∷ []) }
    ensures are_texts { IfOk result (λ texts. AllByRecursion IsPacketText texts) }
{
    gather(alloc, mode, output, before, text)
}

/// What goes to the program's own output.
pub(crate) fn to_program(alloc: Global, mode: StreamMode, output: &[u8]) -> Result<Bytes, Memory>
    ensures { IfOk result (λ own. own ≡ spec.to_program mode output.now) }
{
    match mode {
        StreamMode::Disable => Bytes::from_slice(alloc, output),
        StreamMode::Copy => Bytes::from_slice(alloc, output),
        StreamMode::Redirect => Ok(Bytes::of(Vec::new(alloc))),
    }
}
