//! Serving one session that listens, over a source that another thread reads.
ghost use Rattle.std.specs.Prelude.{◌≡◌, ◌<◌, ◌≤◌, ◌-◌, ◌^◌, map, false, true, MatchResult, OnOk};
ghost use mathlib.Core.List.{IsPrefix};
ghost use Rattle.dp_outside.specs.Changes.{change};
ghost use Rattle.dp_outside.specs.Names.{IsKey};
ghost use Rattle.dp_tree.specs.FileNames.{AreFileNames};
ghost use Rattle.dp_async.specs.Beside.{Attends, AttendsNot, flow_of};
ghost use Rattle.dp_async.specs.inner.Reading.{IsListener, IsReader, SessionRan, TakesRest};

use crate::errors::AsyncError;
use crate::listener::PIECE;
use crate::reader::{ReaderDone, ReaderJob};
use crate::service::{AsyncServed, serve_polled};
use dp_engine::Steps;
use dp_outside::{Job, Sink, Source, Spawner};
use dp_polled::{Polled, Post, PostSeat, Posted};
use dp_tree::Bundle;
use std::alloc::Global;
use std::sync::Wait;
use std::sync::ledger::Ledger;

/// Takes what is still put, up to the last piece.
fn take_rest<R: Wait>(rt: &R, polled: &mut Posted<'_, R>)
    ensures { TakesRest polled.old polled.new }
{
    let mut buffer = [0; PIECE];
    'pieces: for _ in rt.forever() {
        match polled.wait(&mut buffer) {
            Err(_) => return,
            Ok(0) => return,
            Ok(_) => {}
        }
    }
    unreachable!()
}

/// Serves a session over its seat of a post, and then takes what is still put there.
fn serve_post<R: Wait, K: Sink, E: Sink, L: Ledger>(
    rt: &R,
    alloc: Global,
    post: &Post,
    seat: PostSeat,
    bundle: &Bundle,
    key: &[u8],
    bound: u64,
    sink: &mut K,
    out: &mut E,
    steps: &mut Steps<L>,
) -> (AsyncServed, PostSeat)
    requires seat { IsListener post.now seat }
    requires key { IsKey key.now }
    requires bound { bound < 2 ^ 64 - 1 }
    requires names { AreFileNames (map (λ f. f.name) bundle.now.files) }
    ensures { SessionRan result.0 bundle.now bound key.now post.now result.1
        (change K.taken K.faults sink.old sink.new) (change E.taken E.faults out.old out.new) }
{
    let mut polled = Posted::new(rt, post, seat);
    let served = serve_polled(alloc, bundle, key, bound, &mut polled, sink, out, steps);
    take_rest(rt, &mut polled);
    (served, polled.end())
}

/// A session before it is served, with what it is lent.
#[derive(Drop)]
struct SessionJob<'a, 'k, 'e, 's, R, K: Sink, E: Sink, L: Ledger> {
    rt: &'a R,
    alloc: Global,
    post: &'a Post,
    seat: PostSeat,
    bundle: &'a Bundle,
    key: &'a [u8],
    bound: u64,
    sink: &'k mut K,
    out: &'e mut E,
    steps: &'s mut Steps<L>,
}

/// A session that was served: what it was lent comes back.
#[derive(Drop)]
struct SessionDone<'k, 'e, 's, K: Sink, E: Sink, L: Ledger> {
    served: AsyncServed,
    seat: PostSeat,
    sink: &'k mut K,
    out: &'e mut E,
    steps: &'s mut Steps<L>,
}

impl<'a, 'k, 'e, 's, R: Wait, K: Sink, E: Sink, L: Ledger> Job
    for SessionJob<'a, 'k, 'e, 's, R, K, E, L> {
    type Done = SessionDone<'k, 'e, 's, K, E, L>;

    ghost may_run = { λ job. IsListener job.post.now job.seat × IsKey job.key.now × (job.bound < 2 ^ 64 - 1)
        × AreFileNames (map (λ f. f.name) job.bundle.now.files) };

    ghost may_give = { λ job done. (done.sink.ghost_name ≡ job.sink.ghost_name)
        × (done.out.ghost_name ≡ job.out.ghost_name) × (done.steps.ghost_name ≡ job.steps.ghost_name)
        × SessionRan done.served job.bundle.now job.bound job.key.now job.post.now done.seat
        (change K.taken K.faults job.sink.now done.sink.now) (change E.taken E.faults job.out.now done.out.now) };

    fn run(self) -> SessionDone<'k, 'e, 's, K, E, L> {
        let SessionJob {
            rt,
            alloc,
            post,
            seat,
            bundle,
            key,
            bound,
            sink,
            out,
            steps,
        } = self;
        let (served, seat) = serve_post(
            rt, alloc, post, seat, bundle, key, bound, sink, out, steps,
        );
        SessionDone {
            served,
            seat,
            sink,
            out,
            steps,
        }
    }
}

/// What a session and its reader came to, once both are done.
fn joined<S>(
    post: &Post,
    served: AsyncServed,
    mut seat: PostSeat,
    reader: ReaderDone<S>,
) -> (Result<AsyncServed, AsyncError>, S)
    requires right { seat.may_take ≡ true }
    requires post { seat.post ≡ post.now }
    requires puts { reader.seat.may_put ≡ true }
    requires same { reader.seat.post ≡ post.now }
    ensures served { MatchResult result.0 (λ given. (given ≡ served) × (reader.starved ≡ false))
        (λ error. (error ≡ AsyncError.Memory) × (reader.starved ≡ true)) }
    ensures front { IsPrefix seat.taken reader.seat.put }
    ensures source { result.1 ≡ reader.source }
{
    let ReaderDone {
        source,
        seat: putter,
        starved,
    } = reader;
    post.join(putter, &mut seat);
    if starved {
        return (Err(AsyncError::Memory), source);
    }
    (Ok(served), source)
}

/// Runs a session beside its reader, which has the other seat of the post.
fn serve_beside<R: Wait + Sync, S: Source + Send + Drop, K: Sink, E: Sink, P: Spawner, L: Ledger>(
    rt: &R,
    alloc: Global,
    post: &Post,
    seat: PostSeat,
    putter: PostSeat,
    bundle: &Bundle,
    key: &[u8],
    bound: u64,
    source: S,
    sink: &mut K,
    out: &mut E,
    spawner: &mut P,
    steps: &mut Steps<L>,
) -> (Result<AsyncServed, AsyncError>, S)
    requires seat { IsListener post.now seat }
    requires putter { IsReader post.now putter }
    requires key { IsKey key.now }
    requires bound { bound < 2 ^ 64 - 1 }
    requires names { AreFileNames (map (λ f. f.name) bundle.now.files) }
    ensures answers { MatchResult result.0
        (λ served. Attends served bundle.now bound key.now (flow_of S.Source source) (flow_of S.Source result.1)
        (change K.taken K.faults sink.old sink.new) (change E.taken E.faults out.old out.new))
        (λ error. AttendsNot error (P.faults spawner.old) (P.faults spawner.new) (flow_of S.Source source)
        (flow_of S.Source result.1) (change K.taken K.faults sink.old sink.new)
        (change E.taken E.faults out.old out.new)) }
    ensures started { OnOk result.0 (P.faults spawner.new ≡ P.faults spawner.old) }
    ensures source_later { S.faults source ≤ S.faults result.1 }
    ensures sink_later { K.faults sink.old ≤ K.faults sink.new }
    ensures out_later { E.faults out.old ≤ E.faults out.new }
    ensures spawner_later { P.faults spawner.old ≤ P.faults spawner.new }
{
    let reader = ReaderJob::new(rt, alloc, post, putter, source);
    let session = SessionJob {
        rt,
        alloc,
        post,
        seat,
        bundle,
        key,
        bound,
        sink,
        out,
        steps,
    };
    match spawner.beside(session, reader) {
        Ok((session, reader)) => {
            let SessionDone {
                served,
                seat,
                sink,
                out,
                steps,
            } = session;
            // What became of each is known by looking at it.
            let _ = &*sink;
            let _ = &*out;
            let _ = &*steps;
            joined(post, served, seat, reader)
        }
        Err((session, reader)) => {
            let SessionJob {
                rt: _,
                alloc: _,
                post: _,
                seat: _seat,
                bundle: _,
                key: _,
                bound: _,
                sink,
                out,
                steps,
            } = session;
            sink.finish();
            let _ = &*sink;
            let _ = &*out;
            let _ = &*steps;
            (Err(AsyncError::NoThread), reader.into_source())
        }
    }
}

/// Serves one session as `serve_polled` does, over a source that another thread reads: a session that listens while it
/// is read. It waits.
///
/// Once the session is over the link is ended, and the source is read to its end. It comes back in every case.
pub fn serve_async<
    R: Wait + Sync,
    S: Source + Send + Drop,
    K: Sink,
    E: Sink,
    P: Spawner,
    L: Ledger,
>(
    rt: &R,
    alloc: Global,
    bundle: &Bundle,
    key: &[u8],
    bound: u64,
    source: S,
    sink: &mut K,
    out: &mut E,
    spawner: &mut P,
    steps: &mut Steps<L>,
) -> (Result<AsyncServed, AsyncError>, S)
    requires key { IsKey key.now }
    requires bound { bound < 2 ^ 64 - 1 }
    requires names { AreFileNames (map (λ f. f.name) bundle.now.files) }
    ensures answers { MatchResult result.0
        (λ served. Attends served bundle.now bound key.now (flow_of S.Source source) (flow_of S.Source result.1)
        (change K.taken K.faults sink.old sink.new) (change E.taken E.faults out.old out.new))
        (λ error. AttendsNot error (P.faults spawner.old) (P.faults spawner.new) (flow_of S.Source source)
        (flow_of S.Source result.1) (change K.taken K.faults sink.old sink.new)
        (change E.taken E.faults out.old out.new)) }
    ensures started { OnOk result.0 (P.faults spawner.new ≡ P.faults spawner.old) }
    ensures source_later { S.faults source ≤ S.faults result.1 }
    ensures sink_later { K.faults sink.old ≤ K.faults sink.new }
    ensures out_later { E.faults out.old ≤ E.faults out.new }
    ensures spawner_later { P.faults spawner.old ≤ P.faults spawner.new }
{
    let Ok((post, mut seat)) = Post::new(alloc) else {
        sink.finish();
        return (Err(AsyncError::Memory), source);
    };
    let putter = post.split(&mut seat);
    serve_beside(
        rt, alloc, &post, seat, putter, bundle, key, bound, source, sink, out, spawner, steps,
    )
}
