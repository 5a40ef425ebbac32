//! What answers commands.
ghost use Rattle.std.specs.Prelude.{◌≡◌, Bool, IfOk, List, OnErr, OnOk, false, true, ℕ};
ghost use Rattle.std.specs.List.{AllByRecursion};
ghost use Rattle.dp_wire.specs.Frames.{IsCommand, IsPacketText};
ghost use Rattle.dp_conversation.specs.Folds.{Reply, reply_of};

use dp_bytes::{Bytes, Items, Memory};
use std::alloc::Global;

/// What one command leads to.
#[derive(Debug, Drop)]
pub struct Answer<E> {
    /// The texts to send, the response last.
    pub packets: Items<Bytes>,
    /// What goes to the program's own output.
    pub program: Bytes,
    /// How the session has ended, if it has.
    pub ended: Option<E>,
}

/// One session, which answers commands.
pub trait Responder {
    /// How a command ends the session.
    type End: Drop;

    /// What a command leads to.
    ghost step: { Self → List ℕ → Reply Self Self.End };

    /// Whether memory has run out: then it answers nothing more.
    ghost failed: { Self → Bool };

    /// Answers one command, without its NUL. Where memory runs out it has failed for good, and no later call answers.
    fn answer(&mut self, alloc: Global, line: &[u8]) -> Result<Answer<Self::End>, Memory>
        requires { IsCommand line.now }
        ensures ok { IfOk result (λ answer. reply_of answer self.new ≡ step self.old line.now) }
        ensures are_texts { IfOk result (λ answer. AllByRecursion IsPacketText answer.packets) }
        ensures fails { OnErr result (failed self.new ≡ true) }
        ensures stays { OnOk result (failed self.old ≡ false) };
}
