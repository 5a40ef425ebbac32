//! A session that is fed its commands in whatever pieces they come.
ghost use Rattle.std.specs.Prelude.{◌≡◌, ◌⊎◌, ◌++◌, [], None, IfOk, OnErr, OnOk, false, true};
ghost use Rattle.std.specs.List.{AllByRecursion};
ghost use Rattle.dp_wire.specs.Frames.{IsPacketText, commands_in, rest_of};
ghost use Rattle.dp_conversation.specs.Folds.{reply_of};
ghost use Rattle.dp_conversation.specs.Growth.{served};
ghost use Rattle.dp_conversation.specs.NextAnswer.{AreTextsNext, ComesNext, ComesUnfailed};

use crate::responder::{Answer, Responder};
use dp_bytes::{Bytes, Items, Memory};
use dp_wire::Commands;
use std::alloc::Global;

/// A session, and what it was fed of which no whole command was answered yet.
#[derive(Debug, Drop)]
pub struct Conversation<A> {
    pub session: A,
    pub held: Commands,
}

/// What comes next of a session that is fed.
#[derive(Debug, Drop)]
pub enum Next<E> {
    /// The answer to the first command that was held.
    Answered(Answer<E>),
    /// More of a command has to come.
    Partial,
    /// However the bytes go on, no command begins those that are held.
    TooLong,
}

impl<A: Responder> Conversation<A> {
    /// A session that was fed nothing yet. Takes no memory.
    pub fn begin(alloc: Global, session: A) -> Self
        ensures session { result.session ≡ session }
        ensures held { result.held.held ≡ [] }
    {
        let held = Commands::new(alloc);
        Conversation { session, held }
    }

    /// Appends a piece of what the session is fed. If memory runs out nothing has changed.
    pub fn feed(&mut self, piece: &[u8]) -> Result<(), Memory>
        ensures session { self.new.session ≡ self.old.session }
        ensures ok { OnOk result (self.new.held.held ≡ self.old.held.held ++ piece.now) }
        ensures err { OnErr result (self.new ≡ self.old) }
    {
        self.held.feed(piece)
    }

    /// Answers the first whole command that is held, if there is one. A caller stops once an answer has ended the
    /// session.
    ///
    /// Where memory runs out the session has failed for good: no later call answers a command.
    pub fn next(&mut self, alloc: Global) -> Result<Next<A::End>, Memory>
        ensures comes { IfOk result (λ next. ComesNext A.step self.old.session self.new.session
            self.old.held.held self.new.held.held next) }
        ensures are_texts { IfOk result AreTextsNext }
        ensures fails { OnErr result (A.failed self.new.session ≡ true) }
        ensures stays { IfOk result (ComesUnfailed (A.failed self.old.session)) }
    {
        let range = match self.held.next() {
            Ok(Some(range)) => range,
            Ok(None) => return Ok(Next::Partial),
            Err(_) => return Ok(Next::TooLong),
        };
        let answer = self.session.answer(alloc, &self.held.bytes()[..range.end])?;
        self.held.drop_front();
        Ok(Next::Answered(answer))
    }

    /// Answers each whole command that is held, up to one that ends the session, and gives what they lead to together.
    ///
    /// Where memory runs out nothing is said of the session: commands may have been answered whose answers are lost. A
    /// session that has failed answers no command: none was held whole then.
    pub fn answer_all(&mut self, alloc: Global) -> Result<Answer<A::End>, Memory>
        ensures answers { IfOk result (λ answer. reply_of answer self.new.session
            ≡ served A.step self.old.session self.old.held.held) }
        ensures are_texts { IfOk result (λ answer. AllByRecursion IsPacketText answer.packets) }
        ensures held { IfOk result (λ answer. answer.ended ≡ None
            → self.new.held.held ≡ rest_of self.old.held.held) }
        ensures stays { OnOk result ((A.failed self.old.session ≡ false)
            ⊎ (commands_in self.old.held.held ≡ [])) }
    {
        let mut all = no_answer(alloc);
        'commands: while all.ended.is_none() {
            match self.next(alloc)? {
                Next::Answered(answer) => all = joined(all, answer)?,
                Next::Partial => return Ok(all),
                Next::TooLong => return Ok(all),
            }
        }
        Ok(all)
    }
}

/// What no command leads to. Takes no memory.
fn no_answer<E>(alloc: Global) -> Answer<E>
    ensures packets { result.packets ≡ [] }
    ensures program { result.program ≡ [] }
    ensures ended { result.ended ≡ None }
{
    Answer {
        packets: Items::of(Vec::new(alloc)),
        program: Bytes::of(Vec::new(alloc)),
        ended: None,
    }
}

/// An answer that has not ended the session, and the next one behind it. What was there is not copied.
fn joined<E: Drop>(first: Answer<E>, next: Answer<E>) -> Result<Answer<E>, Memory>
    ensures packets { IfOk result (λ all. all.packets ≡ first.packets ++ next.packets) }
    ensures program { IfOk result (λ all. all.program ≡ first.program ++ next.program) }
    ensures ended { IfOk result (λ all. all.ended ≡ next.ended) }
{
    let mut packets = first.packets.into_vec();
    packets.extend(next.packets.into_vec())?;
    let mut program = first.program;
    program.append(next.program.as_slice())?;
    Ok(Answer {
        packets: Items::of(packets),
        program,
        ended: next.ended,
    })
}
