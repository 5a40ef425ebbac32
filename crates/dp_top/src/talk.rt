//! The command `talk`: one session over the program's own input and output.
ghost use Rattle.std.specs.Prelude.{◌≡◌, ◌≤◌, Some, IfOk, MatchResult};
ghost use Rattle.dp_words.specs.Words.{IsSession};
ghost use Rattle.dp_words.specs.Commands.{invocation_seen};
ghost use Rattle.dp_top.specs.Runs.{IsFetched};
ghost use Rattle.dp_top.specs.inner.Completeness.{AreComplete};
ghost use Rattle.dp_top.specs.inner.Kept.{LentContinues};
ghost use Rattle.dp_top.specs.Talk.{Talks, TalkFails};
ghost use Rattle.dp_top.specs.Statuses.{exit_limit};

use crate::failures::{Failure, Refused};
use crate::objects::Objects;
use crate::run::refusal_of_program;
use crate::sessions::serve_program;
use dp_outside::{Net, Shelf, Sink, Source, Spawner};
use dp_program::fetch_program;
use dp_words::Talk;
use std::alloc::Global;
use std::marker::Brand;
use std::sync::ledger::Blank;

/// Serves one session with `input` and `out` as the link; the program's own output goes to `err`.
pub(crate) fn talk<'a, H: Shelf, S: Source, K: Sink, E: Sink, N: Net, P: Spawner>(
    alloc: Global,
    request: Talk<'a>,
    objects: &mut Objects<H, S, K, E, N, P>,
) -> Result<u8, Refused<'a>>
    requires { IsSession request.key.now (invocation_seen request.program) }
    ensures ends { MatchResult result
        (λ status. Talks status request.entry.key.now (invocation_seen request.entry.program)
        objects.old.seen objects.new.seen)
        (λ why. TalkFails why.failure why.name.now request.entry.key.now (invocation_seen request.entry.program)
        objects.old.seen objects.new.seen) }
    ensures status { IfOk result (λ status. status ≤ exit_limit) }
    // Files that make a program are no bad source, and those that make none are one, unless the shelf failed.
    ensures held { AreComplete (invocation_seen request.entry.program) result objects.old.seen objects.new.seen }
    ensures fetched { IsFetched (Some (invocation_seen request.entry.program)) objects.old.seen.shelf.fetched
        objects.new.seen.shelf.fetched }
    ensures offline { objects.new.seen.net ≡ objects.old.seen.net }
    ensures unspawned { objects.new.seen.spawner ≡ objects.old.seen.spawner }
    ensures goes_on { LentContinues objects.old objects.new }
{
    match fetch_program(alloc, request.program.files, objects.shelf) {
        Ok(bundle) => {
            // Nobody asks for the steps.
            let blank = Blank::new(1);
            serve_program::<S, K, E, Brand>(
                alloc,
                request,
                Failure::Output,
                &bundle,
                objects.input,
                objects.out,
                objects.err,
                blank,
            )
        }
        Err(why) => Err(refusal_of_program(request.program, why)),
    }
}
