//! The commands `tape` and `audit`: a session is served over the program's own input and its record written, or a
//! record is read and judged.
ghost use Rattle.std.specs.Prelude.{◌≡◌, ◌≤◌, [], ℕ, Some, Ok, map, IfOk, MatchResult};
ghost use Rattle.std.specs.Io.KnownBytes.{Appends};
ghost use Rattle.dp_outside.specs.Changes.{change};
ghost use Rattle.dp_tree.specs.declared.bundle.Bundle.{Bundle as Made};
ghost use Rattle.dp_words.specs.Words.{IsSession};
ghost use Rattle.dp_words.specs.Commands.{invocation_seen};
ghost use Rattle.dp_top.specs.Records.{Audits, AuditFails, Tapes, TapeFails, failure_of, tape_report, verdict_text};
ghost use Rattle.dp_top.specs.Runs.{IsFetched};
ghost use Rattle.dp_top.specs.Statuses.{exit_limit};
ghost use Rattle.dp_top.specs.inner.Completeness.{AreComplete, IsComplete, IsGood};
ghost use Rattle.dp_top.specs.inner.Kept.{LentContinues};
ghost use Rattle.dp_top.specs.inner.Recorded.{AuditedSo, TapedSo, PrintedSo, UnauditedSo, UntapedSo};
ghost use Rattle.dp_top.specs.inner.Sessions.{reported_in};

use crate::failures::{Failure, Refused};
use crate::objects::Objects;
use crate::run::refusal_of_program;
use crate::sessions::judge_end;
use dp_audit::{AuditError, Ended, TapeEnd, Verdict};
use dp_bytes::{Bytes, Memory};
use dp_conversation::BYTE_LIMIT;
use dp_outside::{Net, Shelf, Sink, Source, Spawner};
use dp_program::fetch_program;
use dp_tree::Bundle;
use dp_words::{Program, Talk};
use std::alloc::Global;

/// What the end of a session whose record is whole says of the command.
fn judge_ended<'a>(program: Program<'a>, ended: Ended) -> Result<u8, Refused<'a>>
    ensures { reported_in result ≡ tape_report (invocation_seen program.entry) (TapeEnd.Ended ended) }
{
    match ended.bad {
        Some(offset) => Err(Refused::unnamed(Failure::Packet { offset })),
        None => judge_end(program, ended.outcome),
    }
}

/// What the end of taping says of the command.
fn judge_tape<'a>(program: Program<'a>, end: TapeEnd) -> Result<u8, Refused<'a>>
    ensures { reported_in result ≡ tape_report (invocation_seen program.entry) end }
{
    match end {
        TapeEnd::Ended(ended) => judge_ended(program, ended),
        TapeEnd::ReadFault => Err(Refused::unnamed(Failure::Network)),
        TapeEnd::WriteFault => Err(Refused::unnamed(Failure::Output)),
        TapeEnd::ByteLimit => Err(Refused::unnamed(Failure::Packet {
            offset: BYTE_LIMIT as u64,
        })),
        TapeEnd::Memory => Err(Refused::unnamed(Failure::Memory)),
    }
}

/// Tapes a session over a program.
#[tactic(auto, using(dp_words::proofs::NameLaws::are_named))]
fn tape_program<'a, S: Source, K: Sink>(
    alloc: Global,
    request: Talk<'a>,
    bundle: &Bundle,
    input: &mut S,
    out: &mut K,
) -> Result<u8, Refused<'a>>
    requires session { IsSession request.key.now (invocation_seen request.program) }
    requires named { map (λ file. file.name) bundle.now.files ≡ (invocation_seen request.program).names }
    ensures ends { MatchResult result
        (λ status. TapedSo status bundle.now request.entry.key.now (invocation_seen request.entry.program)
        (change S.left S.faults input.old input.new) (change K.taken K.faults out.old out.new))
        (λ why. UntapedSo why.failure why.name.now bundle.now request.entry.key.now
        (invocation_seen request.entry.program)
        (change S.left S.faults input.old input.new) (change K.taken K.faults out.old out.new)) }
    ensures status { IfOk result (λ status. status ≤ exit_limit) }
    ensures held { (made : Made) (before after : ℕ) → IsComplete (Ok made) result before after }
    ensures input_later { S.faults input.old ≤ S.faults input.new }
    ensures out_later { K.faults out.old ≤ K.faults out.new }
{
    let key = request.key.as_bytes();
    let end = dp_audit::tape(alloc, bundle, key, request.program.bound, input, out);
    judge_tape(request.program, end)
}

/// Serves one session with `input` as the link's source, and writes its record on `out`.
pub(crate) fn tape<'a, H: Shelf, S: Source, K: Sink, E: Sink, N: Net, P: Spawner>(
    alloc: Global,
    request: Talk<'a>,
    objects: &mut Objects<H, S, K, E, N, P>,
) -> Result<u8, Refused<'a>>
    requires { IsSession request.key.now (invocation_seen request.program) }
    ensures ends { MatchResult result
        (λ status. Tapes status request.entry.key.now (invocation_seen request.entry.program)
        objects.old.seen objects.new.seen)
        (λ why. TapeFails why.failure why.name.now request.entry.key.now (invocation_seen request.entry.program)
        objects.old.seen objects.new.seen) }
    ensures status { IfOk result (λ status. status ≤ exit_limit) }
    // Files that make a program are no bad source, and those that make none are one, unless the shelf failed.
    ensures held { AreComplete (invocation_seen request.entry.program) result objects.old.seen objects.new.seen }
    ensures fetched { IsFetched (Some (invocation_seen request.entry.program)) objects.old.seen.shelf.fetched
        objects.new.seen.shelf.fetched }
    ensures offline { objects.new.seen.net ≡ objects.old.seen.net }
    ensures unspawned { objects.new.seen.spawner ≡ objects.old.seen.spawner }
    ensures goes_on { LentContinues objects.old objects.new }
{
    match fetch_program(alloc, request.program.files, objects.shelf) {
        Ok(bundle) => tape_program(alloc, request, &bundle, objects.input, objects.out),
        Err(why) => Err(refusal_of_program(request.program, why)),
    }
}

/// What is printed of a verdict.
fn verdict_line(alloc: Global, verdict: Verdict) -> Result<Bytes, Memory>
    ensures { IfOk result (λ line. line ≡ verdict_text verdict) }
{
    match verdict {
        Verdict::Honest => Bytes::from_slice(alloc, b"honest\n"),
        Verdict::Differs { line } => {
            let digits = line.to_string(alloc)?;
            let mut text = Vec::from_slice(alloc, b"differs at line ")?;
            text.extend_from_slice(digits.as_bytes())?;
            text.extend_from_slice(b"\n")?;
            Ok(Bytes::of(text))
        }
    }
}

/// Prints a verdict.
fn tell<'a, K: Sink>(alloc: Global, verdict: Verdict, out: &mut K) -> Result<u8, Refused<'a>>
    ensures printed { MatchResult result
        (λ status. (status ≡ 0) × (verdict ≡ Verdict.Honest)
        × Appends (K.taken out.old) (K.taken out.new) (verdict_text verdict))
        (λ why. (why.name.now ≡ []) × PrintedSo why.failure verdict (change K.taken K.faults out.old out.new)) }
    ensures held { (made : Made) (before after : ℕ) → IsComplete (Ok made) result before after }
    ensures later { K.faults out.old ≤ K.faults out.new }
{
    let Ok(line) = verdict_line(alloc, verdict) else {
        return Err(Refused::unnamed(Failure::Memory));
    };
    if out.put(line.as_slice()).is_err() {
        return Err(Refused::unnamed(Failure::Output));
    }
    match verdict {
        Verdict::Honest => Ok(0),
        Verdict::Differs { line } => Err(Refused::unnamed(Failure::Lies { line })),
    }
}

/// The failure of a record of which nothing is said.
fn failure_of(why: AuditError) -> Failure
    ensures is { result ≡ failure_of why }
    ensures good { IsGood result }
{
    match why {
        AuditError::BadRecord { line } => Failure::Script { line },
        AuditError::ReadFault => Failure::Network,
        AuditError::Memory => Failure::Memory,
    }
}

/// Audits a record of a session over a program.
#[tactic(auto, using(dp_words::proofs::NameLaws::are_named))]
fn audit_program<'a, S: Source, K: Sink>(
    alloc: Global,
    request: Talk<'a>,
    bundle: &Bundle,
    input: &mut S,
    out: &mut K,
) -> Result<u8, Refused<'a>>
    requires session { IsSession request.key.now (invocation_seen request.program) }
    requires named { map (λ file. file.name) bundle.now.files ≡ (invocation_seen request.program).names }
    ensures ends { MatchResult result
        (λ status. AuditedSo status bundle.now request.entry.key.now (invocation_seen request.entry.program)
        (change S.left S.faults input.old input.new) (change K.taken K.faults out.old out.new))
        (λ why. UnauditedSo why.failure why.name.now bundle.now request.entry.key.now
        (invocation_seen request.entry.program)
        (change S.left S.faults input.old input.new) (change K.taken K.faults out.old out.new)) }
    ensures status { IfOk result (λ status. status ≤ exit_limit) }
    ensures held { (made : Made) (before after : ℕ) → IsComplete (Ok made) result before after }
    ensures input_later { S.faults input.old ≤ S.faults input.new }
    ensures out_later { K.faults out.old ≤ K.faults out.new }
{
    let key = request.key.as_bytes();
    match dp_audit::audit(alloc, bundle, key, request.program.bound, input) {
        Ok(verdict) => tell(alloc, verdict, out),
        Err(why) => Err(Refused::unnamed(failure_of(why))),
    }
}

/// Reads a record from `input`, and prints on `out` whether it is honest.
pub(crate) fn audit<'a, H: Shelf, S: Source, K: Sink, E: Sink, N: Net, P: Spawner>(
    alloc: Global,
    request: Talk<'a>,
    objects: &mut Objects<H, S, K, E, N, P>,
) -> Result<u8, Refused<'a>>
    requires { IsSession request.key.now (invocation_seen request.program) }
    ensures ends { MatchResult result
        (λ status. Audits status request.entry.key.now (invocation_seen request.entry.program)
        objects.old.seen objects.new.seen)
        (λ why. AuditFails why.failure why.name.now request.entry.key.now (invocation_seen request.entry.program)
        objects.old.seen objects.new.seen) }
    ensures status { IfOk result (λ status. status ≤ exit_limit) }
    // Files that make a program are no bad source, and those that make none are one, unless the shelf failed.
    ensures held { AreComplete (invocation_seen request.entry.program) result objects.old.seen objects.new.seen }
    ensures fetched { IsFetched (Some (invocation_seen request.entry.program)) objects.old.seen.shelf.fetched
        objects.new.seen.shelf.fetched }
    ensures offline { objects.new.seen.net ≡ objects.old.seen.net }
    ensures unspawned { objects.new.seen.spawner ≡ objects.old.seen.spawner }
    ensures goes_on { LentContinues objects.old objects.new }
{
    match fetch_program(alloc, request.program.files, objects.shelf) {
        Ok(bundle) => audit_program(alloc, request, &bundle, objects.input, objects.out),
        Err(why) => Err(refusal_of_program(request.program, why)),
    }
}
