//! A session of the engine that is recorded.
use dp_bytes::{Bytes, Memory};
use dp_conversation::Responder;
use dp_engine::{Answer, Session, SessionEnd, Steps};
use dp_records::Recorded;
use dp_state::Outcome;
use std::alloc::Global;
use std::marker::Model;
use std::sync::ledger::Ledger;

/// A session, and the steps that it counts, of which nothing is said. Contracts see what the session knows.
#[derive(Drop)]
pub(crate) struct Debugged<'s, 'a, L: Ledger> {
    pub(crate) session: Session<'a>,
    pub(crate) steps: &'s mut Steps<L>,
}

impl<'s, 'a, L: Ledger> Model for Debugged<'s, 'a, L> {
    ghost use Rattle.std.specs.Coded.{codes};
    ghost use Rattle.dp_break.specs.Tables.{table_code};
    ghost use Rattle.dp_tree.specs.contracts.bundle.Bundle as bundle_type;
    ghost use Rattle.dp_meaning.specs.contracts.writes.NumberedWrite as write_type;
    ghost use Rattle.dp_engine.specs.Session.{State};

    ghost Value = { State };

    ghost coded = { Prim.hlevel (codes, bundle_type.the_row.coded, write_type.the_row.coded, table_code) };

    ghost view = { λ d. d.session };
}

impl<'s, 'a, L: Ledger> Responder for Debugged<'s, 'a, L> {
    ghost use Rattle.dp_engine.specs.Answers.{answer};

    type End = SessionEnd;

    ghost step = { answer };

    ghost failed = { λ d. d.failed };

    /// The session has an allocator of its own.
    fn answer(&mut self, _alloc: Global, line: &[u8]) -> Result<Answer, Memory> {
        self.session.answer(line, self.steps)
    }
}

impl<'s, 'a, L: Ledger> Recorded for Debugged<'s, 'a, L> {
    ghost use Rattle.std.specs.Prelude.{◌≡◌, IfOk, true};
    ghost use Rattle.dp_engine.specs.Served.{ending_after, rest_after};
    ghost use Rattle.dp_state.specs.Statuses.{status};
    ghost use Rattle.dp_records.specs.Statuses.{is_status};

    ghost rest_after = { rest_after };

    ghost ending_after = { ending_after };

    /// The program runs on to its end, unless a command has killed it. The session has an allocator of its own.
    #[tactic(auto, using(crate::proofs::StatusLaws::ends_so))]
    fn close(
        self,
        _alloc: Global,
        ended: Option<SessionEnd>,
    ) -> Result<(Bytes, Option<Outcome>), Memory>
        ensures rest { IfOk result (λ end. end.0 ≡ rest_after ended self.entry) }
        ensures outcome { IfOk result (λ end. end.1 ≡ ending_after ended self.entry) }
        ensures status { IfOk result (λ end. is_status (status end.1) ≡ true) }
    {
        self.session.finish_after(ended, self.steps)
    }
}
