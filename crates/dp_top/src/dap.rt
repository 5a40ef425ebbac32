//! The command `dap`: one session over the program's own input and output, in the Debug Adapter Protocol.
ghost use Rattle.std.specs.Prelude.{◌≡◌, ◌<◌, ◌≤◌, ℕ, Ok, Some, map, IfOk, MatchResult};
ghost use Rattle.dp_outside.specs.Changes.{change};
ghost use Rattle.dp_tree.specs.declared.bundle.Bundle.{Bundle as Made};
ghost use Rattle.dp_words.specs.Words.{AreFileWords};
ghost use Rattle.dp_words.specs.Commands.{invocation_seen};
ghost use Rattle.dp_top.specs.Dap.{Daps, DapFails};
ghost use Rattle.dp_top.specs.Runs.{IsFetched};
ghost use Rattle.dp_top.specs.inner.Completeness.{AreComplete, IsComplete};
ghost use Rattle.dp_top.specs.inner.Gateways.{GatewayEnds};
ghost use Rattle.dp_top.specs.inner.Kept.{LentContinues};
ghost use Rattle.dp_top.specs.Statuses.{exit_limit};

use crate::failures::{Failure, Refused};
use crate::objects::Objects;
use crate::run::refusal_of_program;
use crate::sessions::judge;
use dp_dap::{Gateway, serve_dap};
use dp_engine::Steps;
use dp_outside::{Net, Shelf, Sink, Source, Spawner};
use dp_program::fetch_program;
use dp_tree::Bundle;
use dp_words::Program;
use std::alloc::Global;
use std::marker::Brand;
use std::sync::ledger::{Blank, Ledger};

/// Serves the gateway over a program, with a ledger for its steps.
#[tactic(auto, using(dp_words::proofs::NameLaws::are_named))]
fn serve_gateway<'a, S: Source, K: Sink, E: Sink, L: Ledger>(
    alloc: Global,
    program: Program<'a>,
    bundle: &Bundle,
    input: &mut S,
    out: &mut K,
    err: &mut E,
    blank: Blank,
) -> Result<u8, Refused<'a>>
    requires name { blank.name ≡ L.name }
    requires parts { blank.parts ≡ L.parts }
    requires some { 0 < blank.parts }
    requires files { AreFileWords (invocation_seen program).names }
    requires named { map (λ file. file.name) bundle.now.files ≡ (invocation_seen program).names }
    ensures ends { GatewayEnds result bundle.now (invocation_seen program.entry)
        (change S.left S.faults input.old input.new) (change K.taken K.faults out.old out.new)
        (change E.taken E.faults err.old err.new) }
    ensures status { IfOk result (λ status. status ≤ exit_limit) }
    ensures held { (made : Made) (before after : ℕ) → IsComplete (Ok made) result before after }
    ensures input_later { S.faults input.old ≤ S.faults input.new }
    ensures out_later { K.faults out.old ≤ K.faults out.new }
    ensures err_later { E.faults err.old ≤ E.faults err.new }
{
    match Gateway::begin(alloc, bundle, program.bound) {
        Ok(gateway) => {
            let mut steps = Steps::<L>::new(blank);
            let served = serve_dap(alloc, gateway, input, out, err, &mut steps);
            judge(program, Failure::Output, served)
        }
        Err(_) => Err(Refused::unnamed(Failure::Memory)),
    }
}

/// Serves the gateway with `input` and `out` as the link; the program's output behind its end goes to `err`.
pub(crate) fn dap<'a, H: Shelf, S: Source, K: Sink, E: Sink, N: Net, P: Spawner>(
    alloc: Global,
    program: Program<'a>,
    objects: &mut Objects<H, S, K, E, N, P>,
) -> Result<u8, Refused<'a>>
    requires { AreFileWords (invocation_seen program).names }
    ensures ends { MatchResult result
        (λ status. Daps status (invocation_seen program.entry) objects.old.seen objects.new.seen)
        (λ why. DapFails why.failure why.name.now (invocation_seen program.entry)
        objects.old.seen objects.new.seen) }
    ensures status { IfOk result (λ status. status ≤ exit_limit) }
    // Files that make a program are no bad source, and those that make none are one, unless the shelf failed.
    ensures held { AreComplete (invocation_seen program.entry) result objects.old.seen objects.new.seen }
    ensures fetched { IsFetched (Some (invocation_seen program.entry)) objects.old.seen.shelf.fetched
        objects.new.seen.shelf.fetched }
    ensures offline { objects.new.seen.net ≡ objects.old.seen.net }
    ensures unspawned { objects.new.seen.spawner ≡ objects.old.seen.spawner }
    ensures goes_on { LentContinues objects.old objects.new }
{
    match fetch_program(alloc, program.files, objects.shelf) {
        Ok(bundle) => {
            // Nobody asks for the steps.
            let blank = Blank::new(1);
            serve_gateway::<S, K, E, Brand>(
                alloc,
                program,
                &bundle,
                objects.input,
                objects.out,
                objects.err,
                blank,
            )
        }
        Err(why) => Err(refusal_of_program(program, why)),
    }
}
