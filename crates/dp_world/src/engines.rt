//! What the engines of a program are to a replay.
ghost use Rattle.std.specs.Prelude.{◌≡◌, Bool, IfOk, IfSome, OnErr, OnOk, false, true};
ghost use Rattle.std.specs.List.{AllByRecursion};
ghost use Rattle.dp_conversation.specs.Folds.{reply_of};
ghost use Rattle.dp_outside.specs.Names.{IsKey};
ghost use Rattle.dp_wire.specs.Frames.{IsCommand, IsPacketText};
ghost use Rattle.dp_world.specs.Alone.{Engines as Known};

use dp_bytes::{Bytes, Memory};
use dp_conversation::Answer;
use dp_state::Outcome;
use std::alloc::Global;

/// The engines of a program: they answer commands, each in a session of its own.
///
/// Each call is handed what counts their steps, of which nothing is said.
pub trait Engines {
    /// One session.
    type Session: Drop;
    /// How a command ends a session.
    type End: Drop;
    /// What counts the steps.
    type Steps;

    /// What they have in common.
    ghost known: { Self → Known Self.Session Self.End };

    /// Whether memory has run out in a session: then it answers nothing more.
    ghost failed: { Self.Session → Bool };

    /// Begins the session of an engine with this key, and tells the text of its first packet.
    fn begin(&self, alloc: Global, key: &[u8]) -> Result<(Self::Session, Bytes), Memory>
        requires { IsKey key.now }
        ensures opening { IfOk result (λ begun. begun.0 ≡ (known self.now).opening) }
        ensures text { IfOk result (λ begun. begun.1 ≡ (known self.now).init key.now) }
        ensures is_text { IfOk result (λ begun. IsPacketText begun.1) }
        ensures whole { IfOk result (λ begun. failed begun.0 ≡ false) };

    /// Answers one command, without its NUL. Where memory runs out the session has failed for good, and no later call
    /// answers.
    fn answer(
        &self,
        session: &mut Self::Session,
        alloc: Global,
        line: &[u8],
        steps: &mut Self::Steps,
    ) -> Result<Answer<Self::End>, Memory>
        requires { IsCommand line.now }
        ensures ok { IfOk result (λ answer. reply_of answer session.new ≡ (known self.now).step session.old line.now) }
        ensures are_texts { IfOk result (λ answer. AllByRecursion IsPacketText answer.packets) }
        ensures fails { OnErr result (failed session.new ≡ true) }
        ensures stays { OnOk result (failed session.old ≡ false) };

    /// The session is over, by this command if one has ended it: what the program writes then, and how it ends, if it
    /// does. Of a session that has failed no end is told.
    fn finish(
        &self,
        session: Self::Session,
        ended: Option<Self::End>,
        alloc: Global,
        steps: &mut Self::Steps,
    ) -> Result<(Bytes, Option<Outcome>), Memory>
        ensures rest { IfOk result (λ end. end.0 ≡ (known self.now).rest_after ended session) }
        ensures outcome { IfOk result (λ end. end.1 ≡ (known self.now).ending_after ended session) }
        ensures stays { IfOk result (λ end. IfSome end.1 (λ outcome. failed session ≡ false)) };
}
