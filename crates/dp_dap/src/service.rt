//! Serving the gateway over a link.

ghost use Rattle.std.specs.Prelude.{◌≡◌, ◌≤◌, ◌+◌, ℕ, List, length, IfErr, IfOk, None, OnErr};
ghost use Rattle.std.specs.List.{flat_map};
ghost use Rattle.std.specs.Io.KnownBytes.{Consumes};
ghost use Rattle.dp_bodies.specs.Frames.{BeginsBody, BeginsNoBody, body_frame};
ghost use Rattle.dp_bodies.specs.Received.{IsCause, refused_at};
ghost use Rattle.dp_bodies.specs.declared.errors.BodyError.{BodyError};
ghost use Rattle.dp_outside.specs.Changes.{change};
ghost use Rattle.dp_outside.specs.Streams.{PutAppends};
ghost use Rattle.dp_dap.specs.inner.Exchanges.{AnswersHeld, Cut, CutsHeld, Exchanged, ReadsPiece, SendsNot};
ghost use Rattle.dp_dap.specs.Known.{opening};
ghost use Rattle.dp_conversation.specs.Service.{byte_limit};
ghost use Rattle.dp_dap.specs.Service.{Serves};

use crate::effects::DapAnswer;
use crate::gateway::Gateway;
use dp_bodies::{Bodies, DapError, body_bytes};
use dp_bytes::{Bytes, Memory};
use dp_conversation::{BYTE_LIMIT, Fault, SessionOver};
use dp_engine::{Served, SessionEnd, Steps, close, close_cut};
use dp_outside::{Sink, Source};
use std::alloc::Global;
use std::sync::ledger::Ledger;

/// The most bytes that are read at once.
const PIECE: usize = 8192;

/// Why no further request is answered.
#[derive(Clone, Copy, Debug, PartialEq, Eq)]
enum Pause {
    /// A request ended the gateway.
    Ended(SessionEnd),
    /// More of a body has to come.
    Partial,
    /// The body at the front is no request, or no frame begins what is held.
    Bad,
}

/// What one read brings.
#[derive(Clone, Copy, Debug, PartialEq, Eq)]
enum Piece {
    /// So many bytes.
    Came(usize),
    /// The end of the source.
    End,
    /// A fault of the source.
    Failed,
}

/// Sends the frame of a message of an answer with this end. Where that fails, a front of it was taken.
fn send<K: Sink>(
    alloc: Global,
    text: &[u8],
    ended: Option<SessionEnd>,
    sink: &mut K,
) -> Result<(), Fault<SessionEnd>>
    ensures taken { PutAppends (K.taken sink.old) (K.taken sink.new) result (body_frame text.now) }
    ensures cause { IfErr result (λ fault. SendsNot fault ended (K.faults sink.old) (K.faults sink.new)) }
    ensures sink_later { K.faults sink.old ≤ K.faults sink.new }
{
    let frame = body_bytes(alloc, text)?;
    match sink.put(frame.as_slice()) {
        Ok(()) => Ok(()),
        Err(_) => Err(Fault::Write(ended)),
    }
}

/// Sends the frames of messages. Where that fails, a front of them was taken.
fn send_all<K: Sink>(
    alloc: Global,
    texts: &[Bytes],
    ended: Option<SessionEnd>,
    sink: &mut K,
) -> Result<(), Fault<SessionEnd>>
    ensures taken { PutAppends (K.taken sink.old) (K.taken sink.new) result (flat_map body_frame texts.now) }
    ensures cause { IfErr result (λ fault. SendsNot fault ended (K.faults sink.old) (K.faults sink.new)) }
    ensures sink_later { K.faults sink.old ≤ K.faults sink.new }
{
    for text in texts {
        send(alloc, text.as_slice(), ended, sink)?;
    }
    Ok(())
}

/// Sends an answer, and tells how the gateway has ended, if it has.
fn deliver<K: Sink>(
    alloc: Global,
    answer: DapAnswer,
    sink: &mut K,
) -> Result<Option<SessionEnd>, Fault<SessionEnd>>
    ensures ended { IfOk result (λ ended. ended ≡ answer.ended) }
    ensures taken { PutAppends (K.taken sink.old) (K.taken sink.new) result (flat_map body_frame answer.messages) }
    ensures cause { IfErr result (λ fault. SendsNot fault answer.ended (K.faults sink.old) (K.faults sink.new)) }
    ensures sink_later { K.faults sink.old ≤ K.faults sink.new }
{
    let DapAnswer {
        messages,
        ended,
        program: _,
    } = answer;
    send_all(alloc, messages.as_slice(), ended, sink)?;
    Ok(ended)
}

/// Answers each whole body that is held, up to one that is no request or ends the gateway.
fn answer_held<K: Sink, L: Ledger>(
    alloc: Global,
    gateway: &mut Gateway<'_>,
    bodies: &mut Bodies,
    sink: &mut K,
    steps: &mut Steps<L>,
) -> Result<Pause, Fault<SessionEnd>>
    requires fits { bodies.old.dropped + length bodies.old.held ≤ byte_limit }
    ensures place { bodies.new.dropped + length bodies.new.held ≡ bodies.old.dropped + length bodies.old.held }
    ensures ok { IfOk result (λ pause. AnswersHeld gateway.old gateway.new bodies.old.held bodies.new.held pause
        (change K.taken K.faults sink.old sink.new)) }
    ensures cut { IfErr result (λ fault. CutsHeld gateway.old gateway.new bodies.old.held fault
        (change K.taken K.faults sink.old sink.new)) }
    ensures sink_later { K.faults sink.old ≤ K.faults sink.new }
{
    'bodies: loop {
        let range = match bodies.next() {
            Ok(Some(range)) => range,
            Ok(None) => return Ok(Pause::Partial),
            Err(_) => return Ok(Pause::Bad),
        };
        let answer = match gateway.answer(&bodies.bytes()[range.start..range.end], steps) {
            Ok(answer) => answer,
            Err(DapError::NotRequest) => return Ok(Pause::Bad),
            Err(DapError::Memory) => return Err(Fault::Memory),
        };
        bodies.drop_front();
        if let Some(end) = deliver(alloc, answer, sink)? {
            return Ok(Pause::Ended(end));
        }
    }
}

/// The place in the stream of a body that is no request, or where no frame begins.
fn bad_place(bodies: &Bodies) -> u64
    ensures body { (text rest : List ℕ) → BeginsBody bodies.now.held text rest → result ≡ bodies.now.dropped }
    ensures rest { BeginsNoBody bodies.now.held → (why : BodyError)
        × IsCause bodies.now why × (result ≡ refused_at why bodies.now.dropped) }
{
    let start = bodies.dropped();
    match bodies.next() {
        Ok(_) => start,
        Err(why) => why.place(start),
    }
}

/// Reads a piece, and feeds what came.
fn read_piece<S: Source>(
    source: &mut S,
    bodies: &mut Bodies,
    buffer: &mut [u8],
) -> Result<Piece, Memory>
    requires some { 1 ≤ length buffer.old }
    ensures ok { IfOk result (λ piece. ReadsPiece piece (length buffer.old)
        (change S.left S.faults source.old source.new) bodies.old bodies.new) }
    ensures err { OnErr result ((piece : List ℕ) × Consumes (S.left source.old) (S.left source.new) piece
        × (length piece ≤ length buffer.old)) }
    ensures source_later { S.faults source.old ≤ S.faults source.new }
{
    match source.take(buffer) {
        Err(_) => Ok(Piece::Failed),
        Ok(0) => Ok(Piece::End),
        Ok(count) => {
            bodies.feed(&buffer[..count])?;
            Ok(Piece::Came(count))
        }
    }
}

/// Answers each request that comes, until the gateway is over or a fault cuts it short.
fn exchange<S: Source, K: Sink, L: Ledger>(
    alloc: Global,
    gateway: &mut Gateway<'_>,
    source: &mut S,
    sink: &mut K,
    steps: &mut Steps<L>,
) -> Result<SessionOver<SessionEnd>, Fault<SessionEnd>>
    ensures ok { IfOk result (λ over. Exchanged gateway.old gateway.new over
        (change S.left S.faults source.old source.new) (change K.taken K.faults sink.old sink.new)) }
    ensures cut { IfErr result (λ fault. Cut gateway.old gateway.new fault
        (change S.left S.faults source.old source.new) (change K.taken K.faults sink.old sink.new)) }
    ensures source_later { S.faults source.old ≤ S.faults source.new }
    ensures sink_later { K.faults sink.old ≤ K.faults sink.new }
{
    let mut bodies = Bodies::new(alloc);
    let mut buffer = [0; PIECE];
    let mut count = 0;
    'pieces: while count < BYTE_LIMIT {
        let room = PIECE.min(BYTE_LIMIT - count);
        let more = match read_piece(source, &mut bodies, &mut buffer[..room])? {
            Piece::Failed => return Ok(SessionOver::ReadFault),
            Piece::End => return Ok(SessionOver::LinkEnd),
            Piece::Came(more) => more,
        };
        count += more;
        match answer_held(alloc, gateway, &mut bodies, sink, steps)? {
            Pause::Ended(end) => return Ok(SessionOver::Ended(end)),
            Pause::Bad => {
                return Ok(SessionOver::BadCommandFrame {
                    offset: bad_place(&bodies),
                });
            }
            Pause::Partial => {}
        }
    }
    Ok(SessionOver::ByteLimit)
}

/// Serves the gateway over a link: answers each request that comes, up to an end.
///
/// The gateway is as `Gateway::begin` answered it. The program's output behind the end of the session goes to `out`: if
/// the link ends or fails first, or a body is no request, the program runs on to its end, unless a request has killed
/// it. The link is ended as soon as the gateway is over, before the program runs on. It waits in the calls of the link
/// alone.
pub fn serve_dap<S: Source, K: Sink, E: Sink, L: Ledger>(
    alloc: Global,
    gateway: Gateway<'_>,
    source: &mut S,
    sink: &mut K,
    out: &mut E,
    steps: &mut Steps<L>,
) -> Served
    requires opening { gateway ≡ opening gateway.session.bundle gateway.session.bound }
    ensures serves { Serves result gateway.entry.session.bundle gateway.entry.session.bound
        (change S.left S.faults source.old source.new) (change K.taken K.faults sink.old sink.new)
        (change E.taken E.faults out.old out.new) }
    ensures source_later { S.faults source.old ≤ S.faults source.new }
    ensures sink_later { K.faults sink.old ≤ K.faults sink.new }
    ensures out_later { E.faults out.old ≤ E.faults out.new }
{
    let mut gateway = gateway;
    let over = exchange(alloc, &mut gateway, source, sink, steps);
    sink.finish();
    match over {
        Ok(over) => close(gateway.into_session(), over, out, steps),
        Err(fault) => close_cut(gateway.into_session(), fault, out, steps),
    }
}
