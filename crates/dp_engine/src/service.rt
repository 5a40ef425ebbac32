//! Serving one session over a link.
ghost use Rattle.std.specs.Prelude.{◌≡◌, ◌≤◌, ℕ, List, None, Some};
ghost use Rattle.dp_outside.specs.Changes.{change};
ghost use Rattle.dp_wire.specs.Frames.{IsPacketText};
ghost use Rattle.dp_engine.specs.Responses.{init_text};
ghost use Rattle.dp_engine.specs.RestOfRun.{CanRunOn, Closes, ClosesCut, RanOn};
ghost use Rattle.dp_engine.specs.Service.{Serves};
ghost use Rattle.dp_engine.specs.Session.{opening};

use crate::metered::Metered;
use crate::session::{Session, SessionEnd};
use dp_bytes::Bytes;
use dp_conversation::{Fault, SessionOver, converse, put_unless_empty};
use dp_outside::{Sink, Source};
use dp_state::Outcome;
use dp_step::Steps;
use std::alloc::Global;
use std::sync::ledger::Ledger;

/// How a session over a link ended.
#[derive(Clone, Copy, Debug, PartialEq, Eq)]
pub enum ServeEnd {
    /// A command ended the session: the program had come to its end, or was killed.
    Stopped,
    /// A command ended the session, and the program ran on by itself.
    Detached,
    /// The source gave its end.
    LinkEnd,
    /// The source failed.
    ReadFault,
    /// The link's sink failed.
    WriteFault,
    /// No command begins at this offset from the first byte read: more than 1,048,576 bytes came without a NUL.
    BadCommandFrame { offset: u64 },
    /// The program's own output failed.
    OutFault,
    /// The most bytes of a session were read: 4,294,967,295.
    ByteLimit,
    /// Out of memory.
    Memory,
}

/// A session that was served, and how its program ended: not at all where it was killed, and unknown where its output
/// or memory failed.
#[derive(Clone, Copy, Debug, PartialEq, Eq)]
pub struct Served {
    pub end: ServeEnd,
    pub outcome: Option<Outcome>,
}

/// A session whose program did not run to its end.
fn cut_short(end: ServeEnd) -> Served
    ensures { result ≡ record { end = end; outcome = None } }
{
    Served { end, outcome: None }
}

/// Leaves the program where it stands.
fn left(session: Session<'_>, end: ServeEnd) -> Served
    ensures { result ≡ record { end = end; outcome = None } }
{
    drop(session);
    cut_short(end)
}

/// Runs the program on to its end, once the session is over, and puts what it still writes.
fn settle<E: Sink, L: Ledger>(
    session: Session<'_>,
    end: ServeEnd,
    out: &mut E,
    steps: &mut Steps<L>,
) -> Served
    requires { CanRunOn end }
    ensures ran { RanOn end result session.entry (change E.taken E.faults out.old out.new) }
    ensures out_later { E.faults out.old ≤ E.faults out.new }
{
    let Ok((rest, outcome)) = session.finish(steps) else {
        return cut_short(ServeEnd::Memory);
    };
    match put_unless_empty(out, rest.as_slice()) {
        Ok(()) => Served {
            end,
            outcome: Some(outcome),
        },
        Err(_) => cut_short(ServeEnd::OutFault),
    }
}

/// What becomes of the program once the session is over: one that was killed is left where it stands, and each other
/// one runs on to its end. What it still writes is put to `out`, and its outcome is told with the end of the session.
///
/// `session` is the one that is over, and nothing was answered since; the link is the caller's to end, best before
/// this call. Where the program's output fails, or memory runs out, that is the end told, without an outcome, and a
/// front of what it still writes was put.
///
/// It takes what the rest of the program's run takes, and a copy of what it writes there: nothing is put before its
/// end. A step is counted for each moment that comes on the way; no clause says so.
pub fn close<E: Sink, L: Ledger>(
    session: Session<'_>,
    over: SessionOver<SessionEnd>,
    out: &mut E,
    steps: &mut Steps<L>,
) -> Served
    ensures closes { Closes over result session.entry (change E.taken E.faults out.old out.new) }
    ensures out_later { E.faults out.old ≤ E.faults out.new }
{
    match over {
        SessionOver::Ended(SessionEnd::Killed) => left(session, ServeEnd::Stopped),
        SessionOver::Ended(SessionEnd::Detached) => settle(session, ServeEnd::Detached, out, steps),
        SessionOver::Ended(SessionEnd::Finished(_)) => settle(
            session,
            ServeEnd::Stopped,
            out,
            steps,
        ),
        SessionOver::LinkEnd => settle(session, ServeEnd::LinkEnd, out, steps),
        SessionOver::ReadFault => settle(session, ServeEnd::ReadFault, out, steps),
        SessionOver::BadCommandFrame { offset } => {
            settle(session, ServeEnd::BadCommandFrame { offset }, out, steps)
        }
        SessionOver::ByteLimit => settle(session, ServeEnd::ByteLimit, out, steps),
    }
}

/// What becomes of the program once a fault has cut the session short. Where the link's sink failed the program runs
/// on as in `close`, unless the last command had killed it; where the program's own output failed, or memory ran out,
/// it is left where it stands, and `out` takes nothing.
///
/// `session` is the one that was cut short, and nothing was answered since. Limits, errors and cost are those of
/// `close`.
pub fn close_cut<E: Sink, L: Ledger>(
    session: Session<'_>,
    fault: Fault<SessionEnd>,
    out: &mut E,
    steps: &mut Steps<L>,
) -> Served
    ensures closes { ClosesCut fault result session.entry (change E.taken E.faults out.old out.new) }
    ensures out_later { E.faults out.old ≤ E.faults out.new }
{
    match fault {
        Fault::Write(Some(SessionEnd::Killed)) => left(session, ServeEnd::WriteFault),
        Fault::Write(_) => settle(session, ServeEnd::WriteFault, out, steps),
        Fault::Out => left(session, ServeEnd::OutFault),
        Fault::Memory => left(session, ServeEnd::Memory),
    }
}

/// Serves a session over a link: sends its first packet and answers each command that comes, up to an end.
///
/// `session` and `init` are what `Session::begin` answered together, and nothing was answered since; of another `init`
/// nothing is said but that no count falls. The program's own output goes to `out`. If the link ends or fails first,
/// the program runs on to its end, unless a command has killed it. The link is ended as soon as the session is over,
/// before the program runs on. It waits in the calls of the link alone.
///
/// The steps that it takes are counted; no clause says how many these are.
pub fn serve<S: Source, K: Sink, E: Sink, L: Ledger>(
    alloc: Global,
    session: Session<'_>,
    init: Bytes,
    source: &mut S,
    sink: &mut K,
    out: &mut E,
    steps: &mut Steps<L>,
) -> Served
    requires opening { session ≡ opening session.bundle session.bound }
    requires text { IsPacketText init }

    ensures serves { (key : List ℕ) → init ≡ init_text session.entry.bundle key
        → Serves result session.entry.bundle session.entry.bound key
        (change S.left S.faults source.old source.new) (change K.taken K.faults sink.old sink.new)
        (change E.taken E.faults out.old out.new) }

    ensures source_later { S.faults source.old ≤ S.faults source.new }
    ensures sink_later { K.faults sink.old ≤ K.faults sink.new }
    ensures out_later { E.faults out.old ≤ E.faults out.new }
{
    let metered = Metered { session, steps };
    let (over, metered) = converse(alloc, metered, init.as_slice(), source, sink, out);
    let Metered { session, steps } = metered;
    sink.finish();
    match over {
        Ok(over) => close(session, over, out, steps),
        Err(fault) => close_cut(session, fault, out, steps),
    }
}
