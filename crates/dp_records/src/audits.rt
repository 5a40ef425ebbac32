//! A session that follows a record of it.
ghost use Rattle.std.specs.Prelude.{◌↔◌, [], ◌∷◌, ◌++◌, ℕ, List, IfOk, IsTrue, OnOk};
ghost use Rattle.std.specs.List.{flat_map};
ghost use Rattle.dp_wire.specs.Frames.{IsPacketText, packet_frame};
ghost use Rattle.dp_conversation.specs.Growth.{served};
ghost use Rattle.dp_records.specs.declared.entry.Entry.{Entry as Told};
ghost use Rattle.dp_records.specs.Behaviours.{behaviour_of};
ghost use Rattle.dp_records.specs.Records.{IsPiece};
ghost use Rattle.dp_records.specs.Verdicts.{EndsRight};
ghost use Rattle.dp_records.specs.inner.Audits.{FitsSo, IsAudit};
ghost use Rattle.dp_records.specs.inner.Balances.{SessionReports};
ghost use Rattle.dp_records.specs.inner.Turns.{AnswersAll};

use crate::balances::Balance;
use crate::entry::{Entry, Stream};
use crate::sessions::{Over, Recorded, Turn, answer_next, parts_of};
use crate::statuses::status_of;
use dp_bytes::Memory;
use dp_conversation::{BYTE_LIMIT, Conversation, Responder};
use dp_wire::packet_bytes;
use std::alloc::Global;

/// A session that is sent what a record gives, and what it and the record have told.
#[derive(Debug, Drop)]
pub(crate) struct Audit<A, E> {
    talk: Conversation<A>,
    over: Over<E>,
    /// How many bytes it was given.
    given: u64,
    sent: Balance,
    own: Balance,
}

/// What comes of one line more.
#[derive(Clone, Copy, Debug, PartialEq, Eq)]
pub(crate) enum Fit {
    /// It agrees with the session.
    Fits,
    /// It tells more than the session sends.
    Differs,
    /// The session would be given more than it reads.
    TooMuch,
}

/// Answers each whole command that is held, up to one that ends the session.
fn answer_held<A: Responder>(
    alloc: Global,
    talk: &mut Conversation<A>,
    sent: &mut Balance,
    own: &mut Balance,
) -> Result<Over<A::End>, Memory>
    ensures answers { IfOk result (λ over. AnswersAll A.step talk.old.session talk.new.session over
        talk.old.held.held talk.new.held.held) }
    ensures sent { OnOk result (SessionReports sent.old sent.new
        (flat_map packet_frame (served A.step talk.old.session talk.old.held.held).packets)) }
    ensures own { OnOk result (SessionReports own.old own.new
        (served A.step talk.old.session talk.old.held.held).program) }
{
    'commands: loop {
        let mut frames = Vec::new(alloc);
        let mut program = Vec::new(alloc);
        let turn = answer_next(alloc, talk, &mut frames, &mut program)?;
        sent.session_reports(frames.as_slice())?;
        own.session_reports(program.as_slice())?;
        match turn {
            Turn::Answered(None) => {}
            Turn::Answered(Some(end)) => return Ok(Over::Ended(end)),
            Turn::Partial => return Ok(Over::Open),
            Turn::TooLong => return Ok(Over::Bad),
        }
    }
}

impl<A: Responder + Drop> Audit<A, A::End> {
    /// A session that has sent its first packet, and that was given nothing.
    pub(crate) fn begin(alloc: Global, session: A, init: &[u8]) -> Result<Self, Memory>
        requires { IsPacketText init.now }
        ensures { IfOk result (λ audit. IsAudit A.step session init.now [] audit) }
    {
        let mut sent = Balance::new(alloc);
        let frame = packet_bytes(alloc, init)?;
        sent.session_reports(frame.as_slice())?;
        Ok(Audit {
            talk: Conversation::begin(alloc, session),
            over: Over::Open,
            given: 0,
            sent,
            own: Balance::new(alloc),
        })
    }

    /// Gives the session these bytes, unless it is over, and answers whether it may be given so many.
    fn give(&mut self, alloc: Global, bytes: &[u8]) -> Result<Fit, Memory>
        requires { IsPiece bytes.now }
        ensures { IfOk result (λ fit. (start : A) (init : List ℕ) (entries : List Told)
            → IsAudit A.step start init entries self.old
            → FitsSo A.step start init fit (entries ++ record { stream = Stream.In; bytes = bytes.now } ∷ [])
            self.new) }
    {
        let count = bytes.len() as u64;
        if count > (BYTE_LIMIT as u64).saturating_sub(self.given) {
            return Ok(Fit::TooMuch);
        }
        self.given += count;
        match self.over {
            Over::Open => {}
            _ => return Ok(Fit::Fits),
        }
        self.talk.feed(bytes)?;
        self.over = answer_held(alloc, &mut self.talk, &mut self.sent, &mut self.own)?;
        Ok(Fit::Fits)
    }

    /// Takes one line more.
    pub(crate) fn take(&mut self, alloc: Global, entry: Entry) -> Result<Fit, Memory>
        requires { IsPiece entry.bytes }
        ensures { IfOk result (λ fit. (start : A) (init : List ℕ) (entries : List Told)
            → IsAudit A.step start init entries self.old
            → FitsSo A.step start init fit (entries ++ entry ∷ []) self.new) }
    {
        let Entry { stream, bytes } = entry;
        match stream {
            Stream::In => self.give(alloc, bytes.as_slice()),
            Stream::Out => {
                self.sent.record_reports(bytes.as_slice())?;
                if self.sent.is_front() {
                    Ok(Fit::Fits)
                } else {
                    Ok(Fit::Differs)
                }
            }
            Stream::Own => {
                self.own.record_reports(bytes.as_slice())?;
                Ok(Fit::Fits)
            }
        }
    }
}

impl<A: Recorded + Drop> Audit<A, A::End> {
    /// Whether the record has told all that the session does, which is over then, and tells its status.
    pub(crate) fn is_right(self, alloc: Global, told: u8) -> Result<bool, Memory>
        ensures { IfOk result (λ right. (start : A) (init : List ℕ) (entries : List Told)
            → IsAudit A.step start init entries self
            → IsTrue right ↔ EndsRight (behaviour_of A.step A.rest_after A.ending_after start init)
            (record { entries = entries; status = told })) }
    {
        let Audit {
            talk,
            over,
            given: _,
            sent,
            mut own,
        } = self;
        let Conversation { session, held: _ } = talk;
        let (bad, ended) = parts_of(over);
        let (rest, outcome) = session.close(alloc, ended)?;
        own.session_reports(rest.as_slice())?;
        Ok(sent.is_even() & own.is_even() & (told == status_of(bad, outcome)))
    }
}
