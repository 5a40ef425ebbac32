//! A session that is lent to a conversation.
ghost use Rattle.std.specs.Prelude.{◌≡◌, IfOk, OnOk};
ghost use Rattle.std.specs.List.{AllByRecursion};
ghost use Rattle.dp_wire.specs.Frames.{IsPacketText};
ghost use Rattle.dp_conversation.specs.Folds.{reply_of};
ghost use Rattle.dp_conversation.specs.Growth.{served};

use crate::engines::Engines;
use dp_bytes::Memory;
use dp_conversation::{Answer, Conversation, Responder};
use std::alloc::Global;
use std::marker::Model;

/// A session that is lent for the commands of one piece, with its engines and what counts their steps. Contracts see
/// the engines, what the session knows, and which session it is.
#[derive(Drop)]
struct Lent<'e, 's, 't, G, S: Drop, T> {
    engines: &'e G,
    session: &'s mut S,
    steps: &'t mut T,
}

impl<'e, 's, 't, G, S: Drop, T> Model for Lent<'e, 's, 't, G, S, T> {
    ghost use Rattle.std.specs.Borrow.{GName};

    ghost Value = { G × (S × GName) };

    ghost view = { λ l. (l.engines.now, (l.session.now, l.session.ghost_name)) };
}

impl<'e, 's, 't, A: Engines> Responder for Lent<'e, 's, 't, A, A::Session, A::Steps> {
    ghost use Rattle.dp_world.specs.inner.LentSessions.{lent};

    type End = A::End;

    ghost step = { λ l line. lent l.0 l.1.1 ((A.known l.0).step l.1.0 line) };

    ghost failed = { λ l. A.failed l.1.0 };

    fn answer(&mut self, alloc: Global, line: &[u8]) -> Result<Answer<A::End>, Memory> {
        self.engines.answer(self.session, alloc, line, self.steps)
    }
}

/// The session that is lent answers each whole command that is held, up to one that ends it. It stays the same one.
fn answer_held<A: Engines>(
    talk: &mut Conversation<Lent<'_, '_, '_, A, A::Session, A::Steps>>,
    alloc: Global,
) -> Result<Answer<A::End>, Memory>
    ensures answers { IfOk result (λ answer. reply_of answer talk.new.session.1.0
        ≡ served (A.known talk.old.session.0).step talk.old.session.1.0 talk.old.held.held) }
    ensures are_texts { IfOk result (λ answer. AllByRecursion IsPacketText answer.packets) }
    ensures same { OnOk result (talk.new.session.1.1 ≡ talk.old.session.1.1) }
{
    talk.answer_all(alloc)
}

/// Lends a session to a conversation for these commands: it answers them, up to one that ends it.
pub(crate) fn lend<A: Engines>(
    session: &mut A::Session,
    alloc: Global,
    engines: &A,
    commands: &[u8],
    steps: &mut A::Steps,
) -> Result<Answer<A::End>, Memory>
    ensures answers { IfOk result (λ answer. reply_of answer session.new
        ≡ served (A.known engines.now).step session.old commands.now) }
    ensures are_texts { IfOk result (λ answer. AllByRecursion IsPacketText answer.packets) }
{
    let lent = Lent {
        engines,
        session,
        steps,
    };
    let mut talk = Conversation::begin(alloc, lent);
    talk.feed(commands)?;
    let answer = answer_held(&mut talk, alloc)?;
    let Conversation {
        session: lent,
        held,
    } = talk;
    // Given up first: nothing is known of a session while something beside it owns memory.
    drop(held);
    let Lent {
        engines: _,
        session,
        steps: _,
    } = lent;
    // What became of the session is known by looking at it.
    let _ = &*session;
    Ok(answer)
}
