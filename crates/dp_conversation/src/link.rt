//! A session over a link, from its first packet to its end.
ghost use Rattle.std.specs.Prelude.{◌≡◌, ◌<◌, ◌≤◌, [], ℕ, List, length, OnOk, OnErr, IfOk, IfErr};
ghost use Rattle.dp_outside.specs.Changes.{change};
ghost use Rattle.dp_outside.specs.Streams.{PutAppends};
ghost use Rattle.std.specs.Io.KnownBytes.{Consumes};
ghost use Rattle.std.specs.List.{AllByRecursion};
ghost use Rattle.dp_wire.specs.Frames.{IsPacketText, commands_in, packet_frame};
ghost use Rattle.dp_conversation.specs.Deliveries.{CutsAnswer, DeliversAnswer, SendFault};
ghost use Rattle.dp_conversation.specs.inner.Exchanges.{AnswersHeld, CutsShort, ReadsPiece};
ghost use Rattle.dp_conversation.specs.Service.{IsConversed, IsConversationCut};

use crate::conversation::{Conversation, Next};
use crate::puts::{Unsent, put_unless_empty, send_all, send_packet};
use crate::responder::{Answer, Responder};
use dp_bytes::Memory;
use dp_outside::{Sink, Source};
use std::alloc::{AllocError, Global};

/// The most bytes that one session reads.
pub const BYTE_LIMIT: usize = 4_294_967_295;

/// The most bytes that are read at once.
const PIECE: usize = 8192;

/// Why a session that no sink has failed is over.
#[derive(Debug, Drop)]
pub enum SessionOver<E> {
    /// A command ended it.
    Ended(E),
    /// The source gave its end.
    LinkEnd,
    /// The source failed.
    ReadFault,
    /// No command begins at this offset from the first byte read.
    BadCommandFrame { offset: u64 },
    /// The most bytes of a session were read.
    ByteLimit,
}

/// What cuts a session short.
#[derive(Debug, Drop)]
pub enum Fault<E> {
    /// The link's sink failed. The command whose packet was cut may have ended the session.
    Write(Option<E>),
    /// The program's own output failed.
    Out,
    /// Out of memory.
    Memory,
}

impl<E: Drop> From<AllocError> for Fault<E> {
    ghost use Rattle.std.specs.Prelude.{◌≡◌};
    ghost use Rattle.dp_conversation.specs.declared.link.Fault.TheVariants.{Memory};

    ghost from_gives = { λ _ e. e ≡ Memory };

    fn from(_: AllocError) -> Self {
        Fault::Memory
    }
}

/// Why no further command is answered.
#[derive(Debug, Drop)]
enum Pause<E> {
    /// A command ended the session.
    Ended(E),
    /// More of a command has to come.
    Partial,
    /// No command begins what is held.
    TooLong,
}

/// What one read brings.
#[derive(Clone, Copy, Debug, PartialEq, Eq)]
enum Piece {
    /// So many bytes.
    Came(usize),
    /// The end of the source.
    End,
    /// A fault of the source.
    Failed,
}

/// Prints what the program wrote, then sends the packets, each copied once; answers how the session has ended. Where
/// the output fails nothing is sent; where link or memory do, all was printed, and a front of the packets was sent.
pub fn deliver<T: Drop, K: Sink, E: Sink>(
    alloc: Global,
    answer: Answer<T>,
    sink: &mut K,
    out: &mut E,
) -> Result<Option<T>, Fault<T>>
    requires { AllByRecursion IsPacketText answer.packets }
    ensures ended { IfOk result (λ ended. ended ≡ answer.ended) }
    ensures delivers { OnOk result (DeliversAnswer answer
        (change K.taken K.faults sink.old sink.new) (change E.taken E.faults out.old out.new)) }
    ensures cut { IfErr result (λ fault. CutsAnswer answer fault
        (change K.taken K.faults sink.old sink.new) (change E.taken E.faults out.old out.new)) }
    ensures sink_later { K.faults sink.old ≤ K.faults sink.new }
    ensures out_later { E.faults out.old ≤ E.faults out.new }
{
    let Answer {
        packets,
        program,
        ended,
    } = answer;
    if put_unless_empty(out, program.as_slice()).is_err() {
        return Err(Fault::Out);
    }
    match send_all(alloc, packets.as_slice(), sink) {
        Ok(()) => Ok(ended),
        Err(Unsent::Failed) => Err(Fault::Write(ended)),
        Err(Unsent::Memory) => Err(Fault::Memory),
    }
}

/// Answers each whole command that is held, up to one that ends the session.
fn answer_held<A: Responder, K: Sink, E: Sink>(
    alloc: Global,
    talk: &mut Conversation<A>,
    sink: &mut K,
    out: &mut E,
) -> Result<Pause<A::End>, Fault<A::End>>
    ensures ok { IfOk result (λ held. AnswersHeld A.step talk.old.session talk.new.session
        talk.old.held.held talk.new.held.held held
        (change K.taken K.faults sink.old sink.new) (change E.taken E.faults out.old out.new)) }
    ensures cut { IfErr result (λ fault. CutsShort A.step talk.old.session talk.new.session
        (commands_in talk.old.held.held) fault
        (change K.taken K.faults sink.old sink.new) (change E.taken E.faults out.old out.new)) }
    ensures sink_later { K.faults sink.old ≤ K.faults sink.new }
    ensures out_later { E.faults out.old ≤ E.faults out.new }
{
    'commands: loop {
        let answer = match talk.next(alloc)? {
            Next::Answered(answer) => answer,
            Next::Partial => return Ok(Pause::Partial),
            Next::TooLong => return Ok(Pause::TooLong),
        };
        if let Some(end) = deliver(alloc, answer, sink, out)? {
            return Ok(Pause::Ended(end));
        }
    }
}

/// Reads one piece, which follows what is held. Where memory runs out it was read and is not held.
fn read_piece<A: Responder, S: Source>(
    source: &mut S,
    talk: &mut Conversation<A>,
    buffer: &mut [u8],
) -> Result<Piece, Memory>
    requires { 0 < length buffer.old }
    ensures session { talk.new.session ≡ talk.old.session }
    ensures ok { IfOk result (λ piece. ReadsPiece piece (length buffer.old)
        (change S.left S.faults source.old source.new) talk.old.held.held talk.new.held.held) }
    ensures err { OnErr result ((piece : List ℕ) × Consumes (S.left source.old) (S.left source.new) piece
        × (length piece ≤ length buffer.old)) }
    ensures later { S.faults source.old ≤ S.faults source.new }
{
    match source.take(buffer) {
        Err(_) => Ok(Piece::Failed),
        Ok(0) => Ok(Piece::End),
        Ok(count) => {
            talk.feed(&buffer[..count])?;
            Ok(Piece::Came(count))
        }
    }
}

/// Sends a copy of the packet of this text, which answers no command. Where sink or memory fail, a front was taken.
pub fn send<T: Drop, K: Sink>(alloc: Global, text: &[u8], sink: &mut K) -> Result<(), Fault<T>>
    requires { IsPacketText text.now }
    ensures taken { PutAppends (K.taken sink.old) (K.taken sink.new) result (packet_frame text.now) }
    ensures cause { IfErr result (λ fault. SendFault fault (change K.taken K.faults sink.old sink.new)) }
    ensures later { K.faults sink.old ≤ K.faults sink.new }
{
    match send_packet(alloc, text, sink) {
        Ok(()) => Ok(()),
        Err(Unsent::Failed) => Err(Fault::Write(None)),
        Err(Unsent::Memory) => Err(Fault::Memory),
    }
}

/// Sends the first packet of a session that was fed nothing, and answers each command that comes.
fn exchange<A: Responder, S: Source, K: Sink, E: Sink>(
    alloc: Global,
    talk: &mut Conversation<A>,
    init: &[u8],
    source: &mut S,
    sink: &mut K,
    out: &mut E,
) -> Result<SessionOver<A::End>, Fault<A::End>>
    requires text { IsPacketText init.now }
    requires fed { talk.old.held.held ≡ [] }
    ensures ok { IfOk result (λ over. IsConversed A.step talk.old.session talk.new.session init.now over
        (change S.left S.faults source.old source.new) (change K.taken K.faults sink.old sink.new)
        (change E.taken E.faults out.old out.new)) }
    ensures cut { IfErr result (λ fault. IsConversationCut A.step talk.old.session talk.new.session init.now fault
        (change S.left S.faults source.old source.new) (change K.taken K.faults sink.old sink.new)
        (change E.taken E.faults out.old out.new)) }
    ensures source_later { S.faults source.old ≤ S.faults source.new }
    ensures sink_later { K.faults sink.old ≤ K.faults sink.new }
    ensures out_later { E.faults out.old ≤ E.faults out.new }
{
    send(alloc, init, sink)?;
    let mut buffer = [0; PIECE];
    let mut count = 0;
    'pieces: while count < BYTE_LIMIT {
        let room = PIECE.min(BYTE_LIMIT - count);
        let more = match read_piece(source, talk, &mut buffer[..room])? {
            Piece::Failed => return Ok(SessionOver::ReadFault),
            Piece::End => return Ok(SessionOver::LinkEnd),
            Piece::Came(more) => more,
        };
        count += more;
        match answer_held(alloc, talk, sink, out)? {
            Pause::Ended(end) => return Ok(SessionOver::Ended(end)),
            Pause::TooLong => {
                let offset = (count - talk.held.bytes().len()) as u64;
                return Ok(SessionOver::BadCommandFrame { offset });
            }
            Pause::Partial => {}
        }
    }
    Ok(SessionOver::ByteLimit)
}

/// Sends the first packet of a session and answers each command that comes, until the session is over or a fault of a
/// sink cuts it short. It waits in the calls of the link alone. What was read ends with one piece of at most 8,192
/// bytes, before which no command had ended the session. The session is handed back with how it ended; unless memory
/// ran out it knows what the commands that were obeyed lead to.
pub fn converse<A: Responder + Drop, S: Source, K: Sink, E: Sink>(
    alloc: Global,
    session: A,
    init: &[u8],
    source: &mut S,
    sink: &mut K,
    out: &mut E,
) -> (Result<SessionOver<A::End>, Fault<A::End>>, A)
    requires { IsPacketText init.now }
    ensures ok { IfOk result.0 (λ over. IsConversed A.step session result.1 init.now over
        (change S.left S.faults source.old source.new) (change K.taken K.faults sink.old sink.new)
        (change E.taken E.faults out.old out.new)) }
    ensures cut { IfErr result.0 (λ fault. IsConversationCut A.step session result.1 init.now fault
        (change S.left S.faults source.old source.new) (change K.taken K.faults sink.old sink.new)
        (change E.taken E.faults out.old out.new)) }
    ensures source_later { S.faults source.old ≤ S.faults source.new }
    ensures sink_later { K.faults sink.old ≤ K.faults sink.new }
    ensures out_later { E.faults out.old ≤ E.faults out.new }
{
    let mut talk = Conversation::begin(alloc, session);
    let over = exchange(alloc, &mut talk, init, source, sink, out);
    let Conversation { session, held: _ } = talk;
    (over, session)
}
