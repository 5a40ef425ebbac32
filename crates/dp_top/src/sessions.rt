//! One session over a program, whatever its link is.
ghost use Rattle.std.specs.Prelude.{◌≡◌, ◌<◌, ◌≤◌, ℕ, Ok, map, IfOk, MatchResult};
ghost use Rattle.dp_outside.specs.Changes.{change};
ghost use Rattle.dp_tree.specs.declared.bundle.Bundle.{Bundle as Made};
ghost use Rattle.dp_words.specs.Words.{IsSession};
ghost use Rattle.dp_words.specs.Commands.{invocation_seen};
ghost use Rattle.dp_top.specs.inner.Completeness.{IsComplete, IsGood};
ghost use Rattle.dp_top.specs.Talk.{ended, judged_by};
ghost use Rattle.dp_top.specs.inner.Sessions.{ServedSo, UnservedSo, reported_in};
ghost use Rattle.dp_top.specs.Statuses.{exit_limit};

use crate::failures::{Failure, Refused};
use crate::run::refusal_of_run;
use dp_conversation::BYTE_LIMIT;
use dp_engine::{ServeEnd, Served, Session, Steps, serve};
use dp_outside::{Sink, Source};
use dp_state::Outcome;
use dp_tree::Bundle;
use dp_words::{Program, Talk};
use std::alloc::Global;
use std::sync::ledger::{Blank, Ledger};

/// What the end of a program says of the command; a program that has none was stopped.
pub(crate) fn judge_end<'a>(
    program: Program<'a>,
    outcome: Option<Outcome>,
) -> Result<u8, Refused<'a>>
    ensures { reported_in result ≡ ended (invocation_seen program.entry) outcome }
{
    match outcome {
        None => Err(Refused::unnamed(Failure::Stopped)),
        Some(outcome) => match dp_program::judge(outcome) {
            Ok(status) => Ok(status),
            Err(why) => Err(refusal_of_run(program, &why)),
        },
    }
}

/// What the end of a session says of the command; a fault of the link's sink is this failure.
pub(crate) fn judge<'a>(
    program: Program<'a>,
    unsent: Failure,
    served: Served,
) -> Result<u8, Refused<'a>>
    ensures { reported_in result ≡ judged_by unsent (invocation_seen program.entry) served.outcome served.end }
{
    if let ServeEnd::WriteFault = served.end {
        return Err(Refused::unnamed(unsent));
    }
    drop(unsent);
    match served.end {
        ServeEnd::Stopped => judge_end(program, served.outcome),
        ServeEnd::Detached => judge_end(program, served.outcome),
        ServeEnd::LinkEnd => judge_end(program, served.outcome),
        ServeEnd::ReadFault => Err(Refused::unnamed(Failure::Network)),
        ServeEnd::WriteFault => unreachable!(),
        ServeEnd::OutFault => Err(Refused::unnamed(Failure::Output)),
        ServeEnd::BadCommandFrame { offset } => Err(Refused::unnamed(Failure::Packet { offset })),
        ServeEnd::ByteLimit => Err(Refused::unnamed(Failure::Packet {
            offset: BYTE_LIMIT as u64,
        })),
        ServeEnd::Memory => Err(Refused::unnamed(Failure::Memory)),
    }
}

/// Serves one session over a program, with a ledger for its steps.
#[tactic(auto, using(dp_words::proofs::NameLaws::are_named, crate::proofs::TalkLaws::small_served))]
pub(crate) fn serve_program<'a, S: Source, K: Sink, E: Sink, L: Ledger>(
    alloc: Global,
    request: Talk<'a>,
    unsent: Failure,
    bundle: &Bundle,
    input: &mut S,
    out: &mut K,
    err: &mut E,
    blank: Blank,
) -> Result<u8, Refused<'a>>
    requires name { blank.name ≡ L.name }
    requires parts { blank.parts ≡ L.parts }
    requires some { 0 < blank.parts }
    requires good { IsGood unsent }
    requires session { IsSession request.key.now (invocation_seen request.program) }
    requires named { map (λ file. file.name) bundle.now.files ≡ (invocation_seen request.program).names }
    ensures ends { MatchResult result
        (λ status. ServedSo unsent status bundle.now request.entry.key.now (invocation_seen request.entry.program)
        (change S.left S.faults input.old input.new) (change K.taken K.faults out.old out.new)
        (change E.taken E.faults err.old err.new))
        (λ why. UnservedSo unsent why.failure why.name.now bundle.now request.entry.key.now
        (invocation_seen request.entry.program)
        (change S.left S.faults input.old input.new) (change K.taken K.faults out.old out.new)
        (change E.taken E.faults err.old err.new)) }
    ensures status { IfOk result (λ status. status ≤ exit_limit) }
    ensures held { (made : Made) (before after : ℕ) → IsComplete (Ok made) result before after }
    ensures input_later { S.faults input.old ≤ S.faults input.new }
    ensures out_later { K.faults out.old ≤ K.faults out.new }
    ensures err_later { E.faults err.old ≤ E.faults err.new }
{
    match Session::begin(alloc, bundle, request.key.as_bytes(), request.program.bound) {
        Ok((session, init)) => {
            let mut steps = Steps::<L>::new(blank);
            let served = serve(alloc, session, init, input, out, err, &mut steps);
            judge(request.program, unsent, served)
        }
        Err(_) => {
            drop(unsent);
            Err(Refused::unnamed(Failure::Memory))
        }
    }
}
