//! Sessions that are recorded.
ghost use Rattle.std.specs.Prelude.{◌≡◌, ◌++◌, ℕ, List, IfOk};
ghost use Rattle.dp_records.specs.inner.Turns.{Takes, end_of, is_bad};

use dp_bytes::{Bytes, Memory};
use dp_conversation::{Answer, Conversation, Next, Responder, append_packets};
use dp_state::Outcome;
use std::alloc::Global;

/// A session that can be recorded: it answers commands, and its program runs on once it is over.
pub trait Recorded: Responder {
    ghost use Rattle.std.specs.Prelude.{◌≡◌, ℕ, true, List, IfOk, Option};
    ghost use Rattle.dp_state.specs.Statuses.{status};
    ghost use Rattle.dp_records.specs.Statuses.{is_status};
    ghost use Rattle.dp_state.specs.declared.moments.Outcome.{Outcome as Ending};

    /// What the program writes once the session is over.
    ghost rest_after: { Option Self.End → Self → List ℕ };

    /// How the program ends, if it does.
    ghost ending_after: { Option Self.End → Self → Option Ending };

    /// The session is over, by this command if one has ended it: what the program writes then, and how it ends.
    fn close(
        self,
        alloc: Global,
        ended: Option<Self::End>,
    ) -> Result<(Bytes, Option<Outcome>), Memory>
        ensures rest { IfOk result (λ end. end.0 ≡ rest_after ended self) }
        ensures outcome { IfOk result (λ end. end.1 ≡ ending_after ended self) }
        ensures status { IfOk result (λ end. is_status (status end.1) ≡ true) };
}

/// Why a session answers no further command.
#[derive(Debug, Drop)]
pub(crate) enum Over<E> {
    /// More of a command has to come.
    Open,
    /// A command ended it.
    Ended(E),
    /// No command begins what is held.
    Bad,
}

/// What came of the next command.
#[derive(Debug, Drop)]
pub(crate) enum Turn<E> {
    /// It was answered, and may have ended the session.
    Answered(Option<E>),
    /// More of it has to come.
    Partial,
    /// No command begins what is held.
    TooLong,
}

/// Answers the first command that is held, and puts what it sends and what its program writes behind these.
pub(crate) fn answer_next<A: Responder>(
    alloc: Global,
    talk: &mut Conversation<A>,
    sent: &mut Vec<u8>,
    own: &mut Vec<u8>,
) -> Result<Turn<A::End>, Memory>
    ensures { IfOk result (λ turn. (frames program : List ℕ) × (sent.new.items ≡ sent.old.items ++ frames)
        × (own.new.items ≡ own.old.items ++ program)
        × Takes A.step talk.old.session talk.new.session turn talk.old.held.held talk.new.held.held frames program) }
{
    match talk.next(alloc)? {
        Next::Answered(answer) => {
            let Answer {
                packets,
                program,
                ended,
            } = answer;
            append_packets(alloc, packets.as_slice(), sent)?;
            own.extend_from_slice(program.as_slice())?;
            Ok(Turn::Answered(ended))
        }
        Next::Partial => Ok(Turn::Partial),
        Next::TooLong => Ok(Turn::TooLong),
    }
}

/// Whether no command begins what is held, and the command that ended the session, if one has.
pub(crate) fn parts_of<E>(over: Over<E>) -> (bool, Option<E>)
    ensures bad { result.0 ≡ is_bad over }
    ensures end { result.1 ≡ end_of over }
{
    match over {
        Over::Open => (false, None),
        Over::Ended(end) => (false, Some(end)),
        Over::Bad => (true, None),
    }
}
