//! The command `engine`: one session over a link that is dialled.
ghost use Rattle.std.specs.Prelude.{◌≡◌, ◌≤◌, ℕ, map, Ok, Some, IfOk, MatchResult};
ghost use Rattle.dp_outside.specs.Changes.{change};
ghost use Rattle.dp_words.specs.Words.{IsHostWord, IsSession};
ghost use Rattle.dp_words.specs.Commands.{address_seen, invocation_seen};
ghost use Rattle.dp_tree.specs.declared.bundle.Bundle.{Bundle as Made};
ghost use Rattle.dp_top.specs.Engine.{Engages, EngineFails};
ghost use Rattle.dp_top.specs.Runs.{IsFetched};
ghost use Rattle.dp_top.specs.Seen.{net_seen};
ghost use Rattle.dp_top.specs.inner.Dialled.{EngagedSo, UnengagedSo};
ghost use Rattle.dp_top.specs.inner.Completeness.{AreComplete, IsComplete};
ghost use Rattle.dp_top.specs.inner.Kept.{LentContinues};
ghost use Rattle.dp_top.specs.Statuses.{exit_limit};

use crate::failures::{Failure, Refused};
use crate::objects::Objects;
use crate::run::refusal_of_program;
use crate::sessions::serve_program;
use dp_outside::{Host, Net, Shelf, Sink, Source, Spawner};
use dp_program::fetch_program;
use dp_tree::Bundle;
use dp_words::Engine;
use std::alloc::Global;
use std::marker::Brand;
use std::sync::ledger::Blank;

/// Serves one session over a link to a machine, and takes the link back.
fn serve_linked<'a, N: Net, K: Sink>(
    alloc: Global,
    request: Engine<'a>,
    host: &Host,
    bundle: &Bundle,
    net: &mut N,
    out: &mut K,
) -> Result<u8, Refused<'a>>
    requires host { host.now ≡ request.address.host.now }
    requires session { IsSession request.talk.key.now (invocation_seen request.talk.program) }
    requires named { map (λ file. file.name) bundle.now.files ≡ (invocation_seen request.talk.program).names }
    ensures ends { MatchResult result
        (λ status. EngagedSo status bundle.now (address_seen request.entry.address) request.entry.talk.key.now
        (invocation_seen request.entry.talk.program)
        (change K.taken K.faults out.old out.new) (net_seen N.Dialer net.old)
        (net_seen N.Dialer net.new))
        (λ why. UnengagedSo why.failure why.name.now bundle.now
        (address_seen request.entry.address) request.entry.talk.key.now (invocation_seen request.entry.talk.program)
        (change K.taken K.faults out.old out.new) (net_seen N.Dialer net.old)
        (net_seen N.Dialer net.new)) }
    ensures status { IfOk result (λ status. status ≤ exit_limit) }
    ensures held { (made : Made) (before after : ℕ) → IsComplete (Ok made) result before after }
    ensures out_later { K.faults out.old ≤ K.faults out.new }
    ensures net_later { N.faults net.old ≤ N.faults net.new }
    ensures returned_later { N.returned net.old ≤ N.returned net.new }
{
    match net.dial(host, request.address.port) {
        Err(_) => Err(Refused::unnamed(Failure::Network)),
        Ok((mut source, mut sink)) => {
            // Nobody asks for the steps.
            let blank = Blank::new(1);
            let done = serve_program::<N::In, N::Out, K, Brand>(
                alloc,
                request.talk,
                Failure::Network,
                bundle,
                &mut source,
                &mut sink,
                out,
                blank,
            );
            net.retire(source, sink);
            done
        }
    }
}

/// Serves one session over a link to an address, and takes the link back.
fn serve_over<'a, N: Net, K: Sink>(
    alloc: Global,
    request: Engine<'a>,
    bundle: &Bundle,
    net: &mut N,
    out: &mut K,
) -> Result<u8, Refused<'a>>
    requires host { IsHostWord request.address.host.now }
    requires session { IsSession request.talk.key.now (invocation_seen request.talk.program) }
    requires named { map (λ file. file.name) bundle.now.files ≡ (invocation_seen request.talk.program).names }
    ensures ends { MatchResult result
        (λ status. EngagedSo status bundle.now (address_seen request.entry.address) request.entry.talk.key.now
        (invocation_seen request.entry.talk.program)
        (change K.taken K.faults out.old out.new) (net_seen N.Dialer net.old)
        (net_seen N.Dialer net.new))
        (λ why. UnengagedSo why.failure why.name.now bundle.now
        (address_seen request.entry.address) request.entry.talk.key.now (invocation_seen request.entry.talk.program)
        (change K.taken K.faults out.old out.new) (net_seen N.Dialer net.old)
        (net_seen N.Dialer net.new)) }
    ensures status { IfOk result (λ status. status ≤ exit_limit) }
    ensures held { (made : Made) (before after : ℕ) → IsComplete (Ok made) result before after }
    ensures out_later { K.faults out.old ≤ K.faults out.new }
    ensures net_later { N.faults net.old ≤ N.faults net.new }
    ensures returned_later { N.returned net.old ≤ N.returned net.new }
{
    match Host::of(request.address.host.as_bytes()) {
        Some(host) => serve_linked(alloc, request, &host, bundle, net, out),
        // A word that is no host asks for nothing, so this is proved not to come.
        None => unreachable!(),
    }
}

/// Serves one session over a link to the address; the program's own output goes to `out`.
pub(crate) fn engine<'a, H: Shelf, S: Source, K: Sink, E: Sink, N: Net, P: Spawner>(
    alloc: Global,
    request: Engine<'a>,
    objects: &mut Objects<H, S, K, E, N, P>,
) -> Result<u8, Refused<'a>>
    requires host { IsHostWord request.address.host.now }
    requires session { IsSession request.talk.key.now (invocation_seen request.talk.program) }
    ensures ends { MatchResult result
        (λ status. Engages status (address_seen request.entry.address) request.entry.talk.key.now
        (invocation_seen request.entry.talk.program)
        objects.old.seen objects.new.seen)
        (λ why. EngineFails why.failure why.name.now (address_seen request.entry.address) request.entry.talk.key.now
        (invocation_seen request.entry.talk.program) objects.old.seen objects.new.seen) }
    ensures status { IfOk result (λ status. status ≤ exit_limit) }
    // Files that make a program are no bad source, and those that make none are one, unless the shelf failed.
    ensures held { AreComplete (invocation_seen request.entry.talk.program) result objects.old.seen objects.new.seen }
    ensures fetched { IsFetched (Some (invocation_seen request.entry.talk.program)) objects.old.seen.shelf.fetched
        objects.new.seen.shelf.fetched }
    ensures unspawned { objects.new.seen.spawner ≡ objects.old.seen.spawner }
    ensures goes_on { LentContinues objects.old objects.new }
{
    match fetch_program(alloc, request.talk.program.files, objects.shelf) {
        Ok(bundle) => serve_over(alloc, request, &bundle, objects.net, objects.out),
        Err(why) => Err(refusal_of_program(request.talk.program, why)),
    }
}
