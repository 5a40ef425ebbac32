//! Hands each command to the function of its file, and makes its end a status or a `Failure`. `show` stands here.
ghost use Rattle.std.specs.Prelude.{◌≡◌, ◌≤◌, ℕ, false, List, [], Ok, Some, IfOk, MatchResult};
ghost use Rattle.dp_outside.specs.Changes.{change};
ghost use Rattle.dp_show.specs.Shows.{Shows};
ghost use Rattle.dp_words.specs.Words.{Invocation, Task, IsInvocation, invocation_in, uses_shelf, uses_spawner};
ghost use Rattle.dp_words.specs.Commands.{task_of};
ghost use Rattle.dp_top.specs.inner.Carried.{IsCarriedOut};
ghost use Rattle.dp_top.specs.inner.Completeness.{AreComplete, AreCompleteWith};
ghost use Rattle.dp_top.specs.inner.Kept.{LentContinues};
ghost use Rattle.dp_top.specs.Seen.{seen};
ghost use Rattle.dp_top.specs.Tasks.{failure_of, Does, Caused, IsFetchedFor, ShowCaused};
ghost use Rattle.dp_top.specs.Statuses.{exit_limit};

use crate::dap::dap;
use crate::engine::engine;
use crate::failures::{Failure, Refused};
use crate::ide::ide;
use crate::listener::listening;
use crate::objects::Objects;
use crate::proxy::proxy;
use crate::records::{audit, tape};
use crate::replay::replay;
use crate::run::run;
use crate::soak::soak;
use crate::talk::talk;
use dp_outside::{Net, Shelf, Sink, Source, Spawner};
use dp_show::{ShowError, show};
use dp_words::Command;
use std::alloc::Global;
use std::sync::Wait;
use std::thread::Threads;

/// The failure that an end of `show` is.
fn failure_of(why: ShowError) -> Failure
    ensures { result ≡ failure_of why }
{
    match why {
        ShowError::PeerEnd => Failure::PeerEnd,
        ShowError::BadPacket { offset } => Failure::Packet { offset },
        ShowError::ReadFault => Failure::Network,
        ShowError::OutFault => Failure::Output,
        ShowError::Memory => Failure::Memory,
    }
}

/// Prints the element of each packet that is read.
fn show_all<'a, S: Source, K: Sink>(
    alloc: Global,
    input: &mut S,
    out: &mut K,
) -> Result<u8, Refused<'a>>
    ensures ends { MatchResult result
        (λ status. (status ≡ 0)
        × Shows (Ok tt) (change S.left S.faults input.old input.new) (change K.taken K.faults out.old out.new))
        (λ why. (why.name.now ≡ []) × ShowCaused why.failure (change S.left S.faults input.old input.new)
        (change K.taken K.faults out.old out.new)) }
    ensures status { IfOk result (λ status. status ≤ exit_limit) }
    ensures input_later { S.faults input.old ≤ S.faults input.new }
    ensures out_later { K.faults out.old ≤ K.faults out.new }
{
    match show(alloc, input, out) {
        Ok(()) => Ok(0),
        Err(why) => Err(Refused::unnamed(failure_of(why))),
    }
}

/// Does what a command asks for, and answers the status of what went well.
pub(crate) fn carry_out<
    'a,
    R: Threads + Wait + Sync,
    H: Shelf,
    S: Source,
    K: Sink,
    E: Sink,
    N: Net,
    P: Spawner,
>(
    rt: &R,
    alloc: Global,
    command: Command<'a>,
    objects: &mut Objects<H, S, K, E, N, P>,
) -> Result<u8, Refused<'a>>
    requires invocation { (words : List (List ℕ)) × IsInvocation words (task_of command) }

    ensures ends { MatchResult result
        (λ status. Does status (task_of command.entry) objects.old.seen objects.new.seen)
        (λ why. Caused why.failure why.name.now (task_of command.entry)
        objects.old.seen objects.new.seen) }
    ensures status { IfOk result (λ status. status ≤ exit_limit) }
    // Files that make a program are no bad source, and those that make none are one, unless the shelf failed.
    ensures held { (ask : Invocation) → invocation_in (task_of command.entry) ≡ Some ask
        → AreComplete ask result objects.old.seen objects.new.seen }
    // Likewise of a list of events, where it is one.
    ensures replay_held { (events : List ℕ) (ask : Invocation) → task_of command.entry ≡ Task.replay events ask
        → AreCompleteWith events ask result objects.old.seen objects.new.seen }
    ensures unshelved { uses_shelf (task_of command.entry) ≡ false
        → objects.new.seen.shelf ≡ objects.old.seen.shelf }
    ensures unspawned { uses_spawner (task_of command.entry) ≡ false
        → objects.new.seen.spawner ≡ objects.old.seen.spawner }
    ensures fetched { IsFetchedFor (task_of command.entry) objects.old.seen.shelf.fetched
        objects.new.seen.shelf.fetched }
    ensures goes_on { LentContinues objects.old objects.new }
{
    match command {
        Command::Run(program) => run(alloc, program, objects.shelf, objects.out),
        Command::Talk(request) => talk(alloc, request, objects),
        Command::Tape(request) => tape(alloc, request, objects),
        Command::Audit(request) => audit(alloc, request, objects),
        Command::Dap(program) => dap(alloc, program, objects),
        Command::Engine(request) => engine(alloc, request, objects),
        Command::Async(request) => listening(rt, alloc, request, objects),
        Command::Ide(request) => ide(rt, alloc, request, objects),
        Command::Replay(request) => replay(alloc, request, objects.shelf, objects.out),
        Command::Soak(request) => soak(alloc, request, objects.out),
        Command::Proxy(request) => proxy(
            rt,
            alloc,
            request,
            objects.net,
            objects.spawner,
            objects.out,
        ),
        Command::Show => show_all(alloc, objects.input, objects.out),
    }
}

/// The same with the objects one by one.
pub(crate) fn carry_out_on<
    'a,
    R: Threads + Wait + Sync,
    H: Shelf,
    S: Source,
    K: Sink,
    E: Sink,
    N: Net,
    P: Spawner,
>(
    rt: &R,
    alloc: Global,
    command: Command<'a>,
    shelf: &mut H,
    input: &mut S,
    out: &mut K,
    err: &mut E,
    net: &mut N,
    spawner: &mut P,
) -> Result<u8, Refused<'a>>
    requires invocation { (words : List (List ℕ)) × IsInvocation words (task_of command) }

    ensures carried { let before = seen H.Shelf S.Source K.Sink E.Sink N.Dialer P.Spawner
        shelf.old input.old out.old err.old net.old spawner.old in
        let after = seen H.Shelf S.Source K.Sink E.Sink N.Dialer P.Spawner
        shelf.new input.new out.new err.new net.new spawner.new in
        IsCarriedOut result (task_of command.entry) before after }
{
    let mut objects = Objects {
        shelf,
        input,
        out,
        err,
        net,
        spawner,
    };
    let done = carry_out(rt, alloc, command, &mut objects);
    let Objects {
        shelf,
        input,
        out,
        err,
        net,
        spawner,
    } = objects;
    // What became of each is known by looking at it.
    let _ = &*shelf;
    let _ = &*input;
    let _ = &*out;
    let _ = &*err;
    let _ = &*net;
    let _ = &*spawner;
    done
}
