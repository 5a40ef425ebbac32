//! A session that is served or fed: it answers with the steps that it counts.
ghost use Rattle.std.specs.Prelude.{◌≡◌};

use crate::session::{Answer, Session, SessionEnd};
use dp_bytes::Memory;
use dp_conversation::Responder;
use dp_step::Steps;
use std::alloc::Global;
use std::marker::Model;
use std::sync::ledger::Ledger;

/// A session, and the steps that it counts: the responder that `converse` serves over a link, and that a
/// `Conversation` feeds with commands. Contracts see what the session knows; how many steps it counts is the
/// session's clause, and none of a responder.
#[derive(Drop)]
pub struct Metered<'s, 'a, L: Ledger> {
    pub(crate) session: Session<'a>,
    pub(crate) steps: &'s mut Steps<L>,
}

impl<'s, 'a, L: Ledger> Model for Metered<'s, 'a, L> {
    ghost use Rattle.std.specs.Coded.{codes};
    ghost use Rattle.dp_break.specs.Tables.{table_code};
    ghost use Rattle.dp_tree.specs.contracts.bundle.Bundle as bundle_type;
    ghost use Rattle.dp_meaning.specs.contracts.writes.NumberedWrite as write_type;
    ghost use Rattle.dp_engine.specs.Session.{State};

    ghost Value = { State };

    ghost coded = { Prim.hlevel (codes, bundle_type.the_row.coded, write_type.the_row.coded, table_code) };

    ghost view = { λ c. c.session };
}

impl<'s, 'a, L: Ledger> Metered<'s, 'a, L> {
    /// The session, which counts its steps there. Takes no memory.
    pub fn of(session: Session<'a>, steps: &'s mut Steps<L>) -> Self
        ensures { result ≡ session.entry }
    {
        Metered { session, steps }
    }

    /// The session, once it counts no more there. Takes no memory.
    pub fn into_session(self) -> Session<'a>
        ensures { result ≡ self.entry }
    {
        let Metered { session, steps: _ } = self;
        session
    }
}

impl<'s, 'a, L: Ledger> Responder for Metered<'s, 'a, L> {
    ghost use Rattle.dp_engine.specs.Answers.{answer};

    type End = SessionEnd;

    ghost step = { answer };

    ghost failed = { λ c. c.failed };

    /// The session has an allocator of its own.
    fn answer(&mut self, _alloc: Global, line: &[u8]) -> Result<Answer, Memory> {
        self.session.answer(line, self.steps)
    }
}
