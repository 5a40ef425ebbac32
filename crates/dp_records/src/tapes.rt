//! A session is served, and its record is written.
ghost use Rattle.std.specs.Prelude.{◌≡◌, ◌≤◌, [], ◌++◌, ℕ, List, length, Some, None, if◌then◌else◌};
ghost use Rattle.std.specs.Prelude.{IfErr, IfOk, IsErrOf, OnErr, OnOk};
ghost use Rattle.std.specs.declared.option.Option.{Option};
ghost use Rattle.std.specs.List.{flat_map};
ghost use Rattle.dp_outside.specs.Causes.{Rose};
ghost use Rattle.dp_outside.specs.Changes.{Change, change};
ghost use Rattle.dp_outside.specs.Streams.{PutAppends};
ghost use Rattle.dp_wire.specs.Frames.{IsPacketText, packet_frame};
ghost use Rattle.dp_conversation.specs.Growth.{served};
ghost use Rattle.dp_conversation.specs.Service.{byte_limit};
ghost use Rattle.dp_records.specs.Behaviours.{behaviour_of};
ghost use Rattle.dp_records.specs.Records.{IsPiece, line_of, piece_limit};
ghost use Rattle.dp_records.specs.Tapes.{EndsTape, IsEnded, Tapes};
ghost use Rattle.dp_records.specs.inner.Tapings.{FrontOn, IsCut, IsCutShort, IsTaped, IsTaping, PutFront, PutOn};
ghost use Rattle.dp_records.specs.inner.Tapings.{PutSome, StopsReading, Unputs, over_at};
ghost use Rattle.dp_records.specs.inner.Turns.{AnswersAll};

use crate::entry::Stream;
use crate::lines::PIECE_LIMIT;
use crate::sessions::{Over, Recorded, Turn, answer_next, parts_of};
use crate::statuses::status_of;
use crate::tape_end::{Ended, TapeEnd};
use crate::texts::{end_text, line_text};
use dp_conversation::{BYTE_LIMIT, Conversation, Responder};
use dp_outside::{Sink, Source};
use dp_wire::packet_bytes;
use std::alloc::{AllocError, Global};

/// A session that is taped, and what it has told of which no line was put yet.
#[derive(Debug, Drop)]
pub(crate) struct Taping<A> {
    talk: Conversation<A>,
    sent: Vec<u8>,
    own: Vec<u8>,
}

/// Why lines were not put.
#[derive(Clone, Copy, Debug, PartialEq, Eq)]
enum Unput {
    /// The sink failed.
    Failed,
    /// Out of memory.
    Memory,
}

impl From<AllocError> for Unput {
    ghost use Rattle.std.specs.Prelude.{◌≡◌};
    ghost use Rattle.dp_records.specs.declared.tapes.Unput.TheVariants.{Memory};

    ghost from_gives = { λ _ e. e ≡ Memory };

    fn from(_: AllocError) -> Self {
        Unput::Memory
    }
}

/// Why no more is read.
#[derive(Debug, Drop)]
pub(crate) enum Stop<E> {
    /// The session is over, or the source gave its end, after so many bytes.
    Finished { over: Over<E>, count: u64 },
    /// The source failed.
    Failed,
    /// As many bytes were read as may be.
    Full,
}

/// The end that a failed put is.
fn end_of(why: Unput) -> TapeEnd
    ensures failed { why ≡ Unput.Failed → result ≡ TapeEnd.WriteFault }
    ensures memory { why ≡ Unput.Memory → result ≡ TapeEnd.Memory }
{
    match why {
        Unput::Failed => TapeEnd::WriteFault,
        Unput::Memory => TapeEnd::Memory,
    }
}

/// Puts bytes, or answers `Failed` after a front of them was taken.
fn put<K: Sink>(text: &[u8], sink: &mut K) -> Result<(), Unput>
    ensures taken { PutAppends (K.taken sink.old) (K.taken sink.new) result text.now }
    ensures failed { IfErr result (λ why. why ≡ Unput.Failed) }
    ensures cause { IsErrOf result Unput.Failed → Rose (K.faults sink.old) (K.faults sink.new) }
    ensures later { K.faults sink.old ≤ K.faults sink.new }
{
    match sink.put(text) {
        Ok(()) => Ok(()),
        Err(_) => Err(Unput::Failed),
    }
}

/// Puts the line that tells these bytes.
fn put_line<K: Sink>(alloc: Global, stream: Stream, bytes: &[u8], sink: &mut K) -> Result<(), Unput>
    ensures taken { PutAppends (K.taken sink.old) (K.taken sink.new) result
        (line_of (record { stream = stream; bytes = bytes.now })) }
    ensures cause { IsErrOf result Unput.Failed → Rose (K.faults sink.old) (K.faults sink.new) }
    ensures later { K.faults sink.old ≤ K.faults sink.new }
{
    let line = line_text(alloc, stream, bytes)?;
    put(line.as_slice(), sink)
}

/// The first bytes, as many as a line tells, and those behind them.
fn first_piece(bytes: &[u8]) -> (&[u8], &[u8])
    requires { 1 ≤ length bytes.now }
    ensures whole { bytes.now ≡ result.0.now ++ result.1.now }
    ensures piece { IsPiece result.0.now }
{
    if bytes.len() <= PIECE_LIMIT {
        (bytes, &[])
    } else {
        bytes.split_at(PIECE_LIMIT)
    }
}

/// Puts lines that tell these bytes.
fn put_lines<K: Sink>(
    alloc: Global,
    stream: Stream,
    bytes: &[u8],
    sink: &mut K,
) -> Result<(), Unput>
    ensures all { OnOk result (PutOn stream bytes.now (K.taken sink.old) (K.taken sink.new)) }
    ensures front { OnErr result (FrontOn stream bytes.now (K.taken sink.old) (K.taken sink.new)) }
    ensures cause { IsErrOf result Unput.Failed → Rose (K.faults sink.old) (K.faults sink.new) }
    ensures later { K.faults sink.old ≤ K.faults sink.new }
{
    let mut rest = bytes;
    'lines: while !rest.is_empty() {
        let (piece, more) = first_piece(rest);
        put_line(alloc, stream, piece, sink)?;
        rest = more;
    }
    Ok(())
}

/// Puts lines for what was sent, and then for what went to the program's own output.
fn put_both<K: Sink>(alloc: Global, sent: &[u8], own: &[u8], sink: &mut K) -> Result<(), Unput>
    ensures all { OnOk result (PutSome sent.now own.now [] [] (K.taken sink.old) (K.taken sink.new)) }
    ensures front { OnErr result (PutFront sent.now own.now (K.taken sink.old) (K.taken sink.new)) }
    ensures cause { IsErrOf result Unput.Failed → Rose (K.faults sink.old) (K.faults sink.new) }
    ensures later { K.faults sink.old ≤ K.faults sink.new }
{
    put_lines(alloc, Stream::Out, sent, sink)?;
    put_lines(alloc, Stream::Own, own, sink)?;
    Ok(())
}

impl<A> Taping<A> {
    /// Puts lines for all that was sent.
    fn put_sent<K: Sink>(&mut self, alloc: Global, sink: &mut K) -> Result<(), Unput>
        ensures talk { self.new.talk ≡ self.old.talk }
        ensures all { OnOk result (PutSome self.old.sent.items self.old.own.items self.new.sent.items self.new.own.items
            (K.taken sink.old) (K.taken sink.new)) }
        ensures front { OnErr result (PutFront self.old.sent.items self.old.own.items
            (K.taken sink.old) (K.taken sink.new)) }
        ensures cause { IsErrOf result Unput.Failed → Rose (K.faults sink.old) (K.faults sink.new) }
        ensures later { K.faults sink.old ≤ K.faults sink.new }
    {
        put_lines(alloc, Stream::Out, self.sent.as_slice(), sink)?;
        self.sent.clear();
        Ok(())
    }

    /// Puts lines for all that went to the program's own output.
    fn put_own<K: Sink>(&mut self, alloc: Global, sink: &mut K) -> Result<(), Unput>
        ensures talk { self.new.talk ≡ self.old.talk }
        ensures all { OnOk result (PutSome self.old.sent.items self.old.own.items self.new.sent.items self.new.own.items
            (K.taken sink.old) (K.taken sink.new)) }
        ensures front { OnErr result (PutFront self.old.sent.items self.old.own.items
            (K.taken sink.old) (K.taken sink.new)) }
        ensures cause { IsErrOf result Unput.Failed → Rose (K.faults sink.old) (K.faults sink.new) }
        ensures later { K.faults sink.old ≤ K.faults sink.new }
    {
        put_lines(alloc, Stream::Own, self.own.as_slice(), sink)?;
        self.own.clear();
        Ok(())
    }

    /// Puts lines for all that there is.
    fn put_all<K: Sink>(&mut self, alloc: Global, sink: &mut K) -> Result<(), Unput>
        ensures talk { self.new.talk ≡ self.old.talk }
        ensures all { OnOk result (PutSome self.old.sent.items self.old.own.items self.new.sent.items self.new.own.items
            (K.taken sink.old) (K.taken sink.new)) }
        ensures front { OnErr result (PutFront self.old.sent.items self.old.own.items
            (K.taken sink.old) (K.taken sink.new)) }
        ensures sent { OnOk result (self.new.sent.items ≡ []) }
        ensures own { OnOk result (self.new.own.items ≡ []) }
        ensures cause { IsErrOf result Unput.Failed → Rose (K.faults sink.old) (K.faults sink.new) }
        ensures later { K.faults sink.old ≤ K.faults sink.new }
    {
        put_both(alloc, self.sent.as_slice(), self.own.as_slice(), sink)?;
        self.sent.clear();
        self.own.clear();
        Ok(())
    }

    /// Puts lines for all that there is, once a line is full.
    fn put_full<K: Sink>(&mut self, alloc: Global, sink: &mut K) -> Result<(), Unput>
        ensures talk { self.new.talk ≡ self.old.talk }
        ensures all { OnOk result (PutSome self.old.sent.items self.old.own.items self.new.sent.items self.new.own.items
            (K.taken sink.old) (K.taken sink.new)) }
        ensures front { OnErr result (PutFront self.old.sent.items self.old.own.items
            (K.taken sink.old) (K.taken sink.new)) }
        ensures cause { IsErrOf result Unput.Failed → Rose (K.faults sink.old) (K.faults sink.new) }
        ensures later { K.faults sink.old ≤ K.faults sink.new }
    {
        if self.sent.len() >= PIECE_LIMIT || self.own.len() >= PIECE_LIMIT {
            return self.put_all(alloc, sink);
        }
        Ok(())
    }
}

impl<A: Responder> Taping<A> {
    /// Answers each whole command that is held, up to one that ends the session.
    fn answer_held<K: Sink>(&mut self, alloc: Global, sink: &mut K) -> Result<Over<A::End>, Unput>
        ensures answers { IfOk result (λ over. AnswersAll A.step self.old.talk.session self.new.talk.session over
            self.old.talk.held.held self.new.talk.held.held) }
        ensures all { OnOk result (PutSome
            (self.old.sent.items
            ++ flat_map packet_frame (served A.step self.old.talk.session self.old.talk.held.held).packets)
            (self.old.own.items ++ (served A.step self.old.talk.session self.old.talk.held.held).program)
            self.new.sent.items self.new.own.items (K.taken sink.old) (K.taken sink.new)) }
        ensures front { OnErr result (PutFront
            (self.old.sent.items
            ++ flat_map packet_frame (served A.step self.old.talk.session self.old.talk.held.held).packets)
            (self.old.own.items ++ (served A.step self.old.talk.session self.old.talk.held.held).program)
            (K.taken sink.old) (K.taken sink.new)) }
        ensures cause { IsErrOf result Unput.Failed → Rose (K.faults sink.old) (K.faults sink.new) }
        ensures later { K.faults sink.old ≤ K.faults sink.new }
    {
        'commands: loop {
            let turn = answer_next(alloc, &mut self.talk, &mut self.sent, &mut self.own)?;
            self.put_full(alloc, sink)?;
            match turn {
                Turn::Answered(None) => {}
                Turn::Answered(Some(end)) => return Ok(Over::Ended(end)),
                Turn::Partial => return Ok(Over::Open),
                Turn::TooLong => return Ok(Over::Bad),
            }
        }
    }

    /// Takes a piece that was read: its line comes behind what went to the program's own output before, and then what
    /// is sent for it.
    fn take_piece<K: Sink>(
        &mut self,
        alloc: Global,
        piece: &[u8],
        sink: &mut K,
    ) -> Result<Over<A::End>, Unput>
        requires some { 1 ≤ length piece.now }
        requires fits { length piece.now ≤ piece_limit }
        ensures taped { IfOk result (λ over. (start : A) (init read : List ℕ) (before : Option (List ℕ))
            → length (read ++ piece.now) ≤ byte_limit
            → IsTaping A.step start init Over.Open (read) self.old before (K.taken sink.old)
            → IsTaping A.step start init over (read ++ piece.now) self.new before (K.taken sink.new)) }
        ensures cut { OnErr result ((start : A) (init read : List ℕ) (before : Option (List ℕ))
            → length (read ++ piece.now) ≤ byte_limit
            → IsTaping A.step start init Over.Open (read) self.old before (K.taken sink.old)
            → IsCut A.step start init (read ++ piece.now) before (K.taken sink.new)) }
        ensures cause { IsErrOf result Unput.Failed → Rose (K.faults sink.old) (K.faults sink.new) }
        ensures later { K.faults sink.old ≤ K.faults sink.new }
    {
        self.put_own(alloc, sink)?;
        put_line(alloc, Stream::In, piece, sink)?;
        self.talk.feed(piece)?;
        let over = self.answer_held(alloc, sink)?;
        self.put_sent(alloc, sink)?;
        Ok(over)
    }

    /// Reads pieces until the session is over.
    fn take_pieces<S: Source, K: Sink>(
        &mut self,
        alloc: Global,
        source: &mut S,
        sink: &mut K,
    ) -> Result<Stop<A::End>, Unput>
        ensures taped { IfOk result (λ stop. (start : A) (init : List ℕ) (before : Option (List ℕ))
            → IsTaping A.step start init Over.Open [] self.old before (K.taken sink.old)
            → IsTaped A.step start init stop self.new (change S.left S.faults source.old source.new) before
            (K.taken sink.new)) }
        ensures cut { OnErr result ((start : A) (init : List ℕ) (before : Option (List ℕ))
            → IsTaping A.step start init Over.Open [] self.old before (K.taken sink.old)
            → IsCutShort A.step start init (change S.left S.faults source.old source.new) before (K.taken sink.new)) }
        ensures cause { IsErrOf result Unput.Failed → Rose (K.faults sink.old) (K.faults sink.new) }
        ensures source_later { S.faults source.old ≤ S.faults source.new }
        ensures sink_later { K.faults sink.old ≤ K.faults sink.new }
    {
        let mut buffer = [0; PIECE_LIMIT];
        let mut count = 0;
        'pieces: while count < BYTE_LIMIT {
            let room = PIECE_LIMIT.min(BYTE_LIMIT - count);
            let piece = &mut buffer[..room];
            let more = match source.take(piece) {
                Err(_) => return Ok(Stop::Failed),
                Ok(more) => more,
            };
            if more == 0 {
                return Ok(Stop::Finished {
                    over: Over::Open,
                    count: count as u64,
                });
            }
            count += more;
            match self.take_piece(alloc, &piece[..more], sink)? {
                Over::Open => {}
                over => {
                    return Ok(Stop::Finished {
                        over,
                        count: count as u64,
                    });
                }
            }
        }
        Ok(Stop::Full)
    }
}

/// Where bytes stand in no command's place: the offset, if they do.
fn bad_at(bad: bool, offset: u64) -> Option<u64>
    ensures { result ≡ if bad then Some offset else None }
{
    if bad { Some(offset) } else { None }
}

/// Puts what is left of a session that is over, and the last line.
fn close<A: Recorded + Drop, K: Sink>(
    alloc: Global,
    tape: Taping<A>,
    over: Over<A::End>,
    count: u64,
    sink: &mut K,
) -> Result<Ended, Unput>
    ensures ended { IfOk result (λ ended. (start : A) (init read : List ℕ) (before : K) (from : Change)
        → IsTaping A.step start init over read tape (K.taken before) (K.taken sink.old)
        → StopsReading A.step start init (Stop.Finished over count) read from
        → IsEnded (behaviour_of A.step A.rest_after A.ending_after start init) (served A.step start read) ended read
        from (change K.taken K.faults before sink.new)) }
    ensures unput { IfErr result (λ why. (start : A) (init read : List ℕ) (before : K)
        → IsTaping A.step start init over read tape (K.taken before) (K.taken sink.old)
        → Unputs why (behaviour_of A.step A.rest_after A.ending_after start init) read
        (change K.taken K.faults before sink.new)) }
    ensures cause { IsErrOf result Unput.Failed → Rose (K.faults sink.old) (K.faults sink.new) }
    ensures later { K.faults sink.old ≤ K.faults sink.new }
{
    let Taping {
        talk,
        sent,
        mut own,
    } = tape;
    let Conversation { session, held } = talk;
    let offset = count.saturating_sub(held.bytes().len() as u64);
    let (bad, ended) = parts_of(over);
    let (rest, outcome) = session.close(alloc, ended)?;
    own.extend_from_slice(rest.as_slice())?;
    let status = status_of(bad, outcome);
    let line = end_text(alloc, status)?;
    put_both(alloc, sent.as_slice(), own.as_slice(), sink)?;
    put(line.as_slice(), sink)?;
    Ok(Ended {
        status,
        bad: bad_at(bad, offset),
        outcome,
    })
}

/// Puts what is left, and the last line where the record is whole.
fn end<A: Recorded + Drop, K: Sink>(
    alloc: Global,
    mut tape: Taping<A>,
    stop: Stop<A::End>,
    sink: &mut K,
) -> TapeEnd
    ensures ends { (start : A) (init read : List ℕ) (before : K) (from : Change)
        → IsTaping A.step start init (over_at A.step start init stop) read tape (K.taken before) (K.taken sink.old)
        → StopsReading A.step start init stop read from → K.faults before ≤ K.faults sink.old
        → EndsTape result (behaviour_of A.step A.rest_after A.ending_after start init) (served A.step start read) read
        from (change K.taken K.faults before sink.new) }
    ensures later { K.faults sink.old ≤ K.faults sink.new }
{
    match stop {
        Stop::Finished { over, count } => match close(alloc, tape, over, count, sink) {
            Ok(ended) => TapeEnd::Ended(ended),
            Err(why) => end_of(why),
        },
        Stop::Failed => match tape.put_all(alloc, sink) {
            Ok(()) => TapeEnd::ReadFault,
            Err(why) => end_of(why),
        },
        Stop::Full => match tape.put_all(alloc, sink) {
            Ok(()) => TapeEnd::ByteLimit,
            Err(why) => end_of(why),
        },
    }
}

/// Serves a session, and writes the record of it: a line for each piece that was read, then lines for what was sent in
/// answer to it, and for what went to the program's own output; and once the session is over its rest and the last
/// line. Where the source or the sink fails, or too much was read, no last line is written.
///
/// `init` is the text of the session's first packet, and the session was asked nothing yet. It waits in the calls of
/// the source and the sink alone.
pub fn tape<A: Recorded + Drop, S: Source, K: Sink>(
    alloc: Global,
    session: A,
    init: &[u8],
    source: &mut S,
    sink: &mut K,
) -> TapeEnd
    requires { IsPacketText init.now }
    ensures tapes { Tapes A.step session (behaviour_of A.step A.rest_after A.ending_after session init.now) result
        (change S.left S.faults source.old source.new) (change K.taken K.faults sink.old sink.new) }
    ensures source_later { S.faults source.old ≤ S.faults source.new }
    ensures sink_later { K.faults sink.old ≤ K.faults sink.new }
{
    let Ok(frame) = packet_bytes(alloc, init) else {
        drop(session);
        return TapeEnd::Memory;
    };
    let mut tape = Taping {
        talk: Conversation::begin(alloc, session),
        sent: frame.into_vec(),
        own: Vec::new(alloc),
    };
    match tape.take_pieces(alloc, source, sink) {
        Ok(stop) => end(alloc, tape, stop, sink),
        Err(why) => end_of(why),
    }
}
