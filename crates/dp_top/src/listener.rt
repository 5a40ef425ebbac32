//! The command `async`: one session over a link that is dialled, which listens while its program runs.
ghost use Rattle.std.specs.Prelude.{◌≡◌, ◌<◌, ◌≤◌, ℕ, map, Ok, Some, IfOk, MatchResult};
ghost use Rattle.dp_outside.specs.Changes.{change};
ghost use Rattle.dp_words.specs.Words.{IsHostWord, IsSession, bound_limit};
ghost use Rattle.dp_words.specs.Commands.{address_seen, invocation_seen};
ghost use Rattle.dp_tree.specs.declared.bundle.Bundle.{Bundle as Made};
ghost use Rattle.dp_top.specs.Async.{AsyncFails, Listens, judged};
ghost use Rattle.dp_top.specs.Runs.{IsFetched};
ghost use Rattle.dp_top.specs.Seen.{net_seen};
ghost use Rattle.dp_top.specs.inner.Attended.{AttendedSo, IsReported, UnattendedSo};
ghost use Rattle.dp_top.specs.inner.Completeness.{AreComplete, IsComplete};
ghost use Rattle.dp_top.specs.inner.Kept.{LentContinues};
ghost use Rattle.dp_top.specs.inner.Sessions.{reported_in};
ghost use Rattle.dp_top.specs.Statuses.{exit_limit};

use crate::failures::{Failure, Refused};
use crate::objects::Objects;
use crate::run::refusal_of_program;
use crate::sessions::judge;
use dp_async::{AsyncError, AsyncServed, BYTE_LIMIT, ServeEnd, Steps, serve_async};
use dp_outside::{Host, Net, Shelf, Sink, Source, Spawner};
use dp_program::fetch_program;
use dp_tree::Bundle;
use dp_words::{Engine, Program};
use std::alloc::Global;
use std::marker::Brand;
use std::sync::Wait;
use std::sync::ledger::{Blank, Ledger};

/// What the end of a session that listened says of the command.
fn judge_heard<'a>(program: Program<'a>, heard: AsyncServed) -> Result<u8, Refused<'a>>
    ensures { reported_in result ≡ judged (invocation_seen program.entry) heard }
{
    let AsyncServed { served, log: _ } = heard;
    match served.end {
        ServeEnd::ByteLimit => Err(Refused::unnamed(Failure::Packet {
            offset: BYTE_LIMIT as u64,
        })),
        _ => judge(program, Failure::Network, served),
    }
}

/// What a session beside a reader says of the command, or that there was none.
fn judge_attended<'a>(
    program: Program<'a>,
    done: Result<AsyncServed, AsyncError>,
) -> Result<u8, Refused<'a>>
    ensures { IsReported (invocation_seen program.entry) done result }
{
    match done {
        Ok(heard) => judge_heard(program, heard),
        Err(AsyncError::NoThread) => Err(Refused::unnamed(Failure::Network)),
        Err(AsyncError::Memory) => Err(Refused::unnamed(Failure::Memory)),
    }
}

/// Serves one session over a link to a machine, beside a thread that reads it, and takes the link back.
#[tactic(auto, using(dp_words::proofs::NameLaws::are_named))]
fn serve_heard<'a, R: Wait + Sync, N: Net, K: Sink, P: Spawner, L: Ledger>(
    rt: &R,
    alloc: Global,
    request: Engine<'a>,
    host: &Host,
    bundle: &Bundle,
    net: &mut N,
    out: &mut K,
    spawner: &mut P,
    blank: Blank,
) -> Result<u8, Refused<'a>>
    requires name { blank.name ≡ L.name }
    requires parts { blank.parts ≡ L.parts }
    requires some { 0 < blank.parts }
    requires host { host.now ≡ request.address.host.now }
    requires bound { request.talk.program.bound ≤ bound_limit }
    requires session { IsSession request.talk.key.now (invocation_seen request.talk.program) }
    requires named { map (λ file. file.name) bundle.now.files ≡ (invocation_seen request.talk.program).names }
    ensures ends { MatchResult result
        (λ status. AttendedSo status bundle.now (address_seen request.entry.address) request.entry.talk.key.now
        (invocation_seen request.entry.talk.program) (change K.taken K.faults out.old out.new)
        (net_seen N.Dialer net.old) (net_seen N.Dialer net.new))
        (λ why. UnattendedSo why.failure why.name.now bundle.now (address_seen request.entry.address)
        request.entry.talk.key.now (invocation_seen request.entry.talk.program)
        (change K.taken K.faults out.old out.new) (net_seen N.Dialer net.old) (net_seen N.Dialer net.new)
        (P.faults spawner.old) (P.faults spawner.new)) }
    ensures status { IfOk result (λ status. status ≤ exit_limit) }
    ensures held { (made : Made) (before after : ℕ) → IsComplete (Ok made) result before after }
    ensures out_later { K.faults out.old ≤ K.faults out.new }
    ensures net_later { N.faults net.old ≤ N.faults net.new }
    ensures returned_later { N.returned net.old ≤ N.returned net.new }
    ensures spawner_later { P.faults spawner.old ≤ P.faults spawner.new }
{
    match net.dial(host, request.address.port) {
        Err(_) => Err(Refused::unnamed(Failure::Network)),
        Ok((source, mut sink)) => {
            let mut steps = Steps::<L>::new(blank);
            let (done, source) = serve_async(
                rt,
                alloc,
                bundle,
                request.talk.key.as_bytes(),
                request.talk.program.bound,
                source,
                &mut sink,
                out,
                spawner,
                &mut steps,
            );
            net.retire(source, sink);
            judge_attended(request.talk.program, done)
        }
    }
}

/// Serves one session that listens over a link to an address, and takes the link back.
fn hear_over<'a, R: Wait + Sync, N: Net, K: Sink, P: Spawner>(
    rt: &R,
    alloc: Global,
    request: Engine<'a>,
    bundle: &Bundle,
    net: &mut N,
    out: &mut K,
    spawner: &mut P,
) -> Result<u8, Refused<'a>>
    requires host { IsHostWord request.address.host.now }
    requires bound { request.talk.program.bound ≤ bound_limit }
    requires session { IsSession request.talk.key.now (invocation_seen request.talk.program) }
    requires named { map (λ file. file.name) bundle.now.files ≡ (invocation_seen request.talk.program).names }
    ensures ends { MatchResult result
        (λ status. AttendedSo status bundle.now (address_seen request.entry.address) request.entry.talk.key.now
        (invocation_seen request.entry.talk.program) (change K.taken K.faults out.old out.new)
        (net_seen N.Dialer net.old) (net_seen N.Dialer net.new))
        (λ why. UnattendedSo why.failure why.name.now bundle.now (address_seen request.entry.address)
        request.entry.talk.key.now (invocation_seen request.entry.talk.program)
        (change K.taken K.faults out.old out.new) (net_seen N.Dialer net.old) (net_seen N.Dialer net.new)
        (P.faults spawner.old) (P.faults spawner.new)) }
    ensures status { IfOk result (λ status. status ≤ exit_limit) }
    ensures held { (made : Made) (before after : ℕ) → IsComplete (Ok made) result before after }
    ensures out_later { K.faults out.old ≤ K.faults out.new }
    ensures net_later { N.faults net.old ≤ N.faults net.new }
    ensures returned_later { N.returned net.old ≤ N.returned net.new }
    ensures spawner_later { P.faults spawner.old ≤ P.faults spawner.new }
{
    match Host::of(request.address.host.as_bytes()) {
        Some(host) => {
            // Nobody asks for the steps.
            let blank = Blank::new(1);
            serve_heard::<R, N, K, P, Brand>(
                rt, alloc, request, &host, bundle, net, out, spawner, blank,
            )
        }
        // A word that is no host asks for nothing, so this is proved not to come.
        None => unreachable!(),
    }
}

/// Serves one session that listens, over a link to the address; the program's own output goes to `out`.
pub(crate) fn listening<
    'a,
    R: Wait + Sync,
    H: Shelf,
    S: Source,
    K: Sink,
    E: Sink,
    N: Net,
    P: Spawner,
>(
    rt: &R,
    alloc: Global,
    request: Engine<'a>,
    objects: &mut Objects<H, S, K, E, N, P>,
) -> Result<u8, Refused<'a>>
    requires host { IsHostWord request.address.host.now }
    requires bound { request.talk.program.bound ≤ bound_limit }
    requires session { IsSession request.talk.key.now (invocation_seen request.talk.program) }
    ensures ends { MatchResult result
        (λ status. Listens status (address_seen request.entry.address) request.entry.talk.key.now
        (invocation_seen request.entry.talk.program) objects.old.seen objects.new.seen)
        (λ why. AsyncFails why.failure why.name.now (address_seen request.entry.address) request.entry.talk.key.now
        (invocation_seen request.entry.talk.program) objects.old.seen objects.new.seen) }
    ensures status { IfOk result (λ status. status ≤ exit_limit) }
    // Files that make a program are no bad source, and those that make none are one, unless the shelf failed.
    ensures held { AreComplete (invocation_seen request.entry.talk.program) result objects.old.seen objects.new.seen }
    ensures fetched { IsFetched (Some (invocation_seen request.entry.talk.program)) objects.old.seen.shelf.fetched
        objects.new.seen.shelf.fetched }
    ensures goes_on { LentContinues objects.old objects.new }
{
    match fetch_program(alloc, request.talk.program.files, objects.shelf) {
        Ok(bundle) => hear_over(
            rt,
            alloc,
            request,
            &bundle,
            objects.net,
            objects.out,
            objects.spawner,
        ),
        Err(why) => Err(refusal_of_program(request.talk.program, why)),
    }
}
