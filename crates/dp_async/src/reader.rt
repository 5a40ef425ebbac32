//! The reader beside a session: it puts what a source gives on a post.
ghost use Rattle.std.specs.Prelude.{◌≡◌, ◌≤◌, true};
ghost use Rattle.dp_async.specs.Beside.{flow_of};
ghost use Rattle.dp_async.specs.inner.Reading.{HasPut, IsReader, NextPiece, ReadsOut};

use crate::listener::PIECE;
use dp_bytes::Bytes;
use dp_outside::{Job, Source};
use dp_polled::{Piece, Post, PostSeat};
use std::alloc::Global;
use std::sync::Wait;
use std::thread::yield_now;

/// Puts a piece as soon as the slot is empty.
fn put_on<R: Wait>(rt: &R, post: &Post, seat: &mut PostSeat, piece: Piece)
    requires post { seat.old.post ≡ post.now }
    requires right { seat.old.may_put ≡ true }
    ensures { HasPut piece seat.old seat.new }
{
    let mut unput = piece;
    'tries: for _ in rt.forever() {
        match post.put(seat, unput) {
            Ok(()) => return,
            Err(back) => {
                unput = back;
                yield_now();
            }
        }
    }
    unreachable!()
}

/// The next piece of a source. `None` where memory ran out for its bytes.
fn next_piece<S: Source>(alloc: Global, source: &mut S, buffer: &mut [u8; PIECE]) -> Option<Piece>
    ensures next { NextPiece (flow_of S.Source source.old) (flow_of S.Source source.new) result }
    ensures later { S.faults source.old ≤ S.faults source.new }
{
    match source.take(buffer) {
        Err(_) => Some(Piece::Failed),
        Ok(0) => Some(Piece::End),
        Ok(count) => match Bytes::from_slice(alloc, &buffer[..count]) {
            Ok(bytes) => Some(Piece::Bytes(bytes)),
            Err(_) => None,
        },
    }
}

/// Puts what the source gives, up to its end or failure, which is the last piece. Answers whether memory ran out
/// first: the last piece is a failure then.
fn read_out<R: Wait, S: Source>(
    rt: &R,
    alloc: Global,
    post: &Post,
    seat: &mut PostSeat,
    source: &mut S,
) -> bool
    requires { IsReader post.now seat.old }
    ensures reads { ReadsOut (flow_of S.Source source.old) (flow_of S.Source source.new) post.now seat.new result }
{
    let mut buffer = [0; PIECE];
    'pieces: for _ in rt.forever() {
        match next_piece(alloc, source, &mut buffer) {
            None => {
                put_on(rt, post, seat, Piece::Failed);
                return true;
            }
            Some(Piece::Bytes(bytes)) => put_on(rt, post, seat, Piece::Bytes(bytes)),
            Some(Piece::End) => {
                put_on(rt, post, seat, Piece::End);
                return false;
            }
            Some(Piece::Failed) => {
                put_on(rt, post, seat, Piece::Failed);
                return false;
            }
        }
    }
    unreachable!()
}

/// A reader before it reads.
#[derive(Drop)]
pub(crate) struct ReaderJob<'a, R, S> {
    pub(crate) rt: &'a R,
    pub(crate) alloc: Global,
    pub(crate) post: &'a Post,
    pub(crate) seat: PostSeat,
    pub(crate) source: S,
}

/// A reader that has put all: its source and its seat come back.
#[derive(Drop)]
pub(crate) struct ReaderDone<S> {
    pub(crate) source: S,
    pub(crate) seat: PostSeat,
    /// Whether memory ran out.
    pub(crate) starved: bool,
}

impl<'a, R, S> ReaderJob<'a, R, S> {
    /// A reader of this source, with a seat that may put.
    pub(crate) fn new(rt: &'a R, alloc: Global, post: &'a Post, seat: PostSeat, source: S) -> Self
        ensures post { result.post.now ≡ post.now }
        ensures seat { result.seat ≡ seat }
        ensures source { result.source ≡ source }
    {
        ReaderJob {
            rt,
            alloc,
            post,
            seat,
            source,
        }
    }

    /// The source of a reader that has not begun.
    pub(crate) fn into_source(self) -> S
        ensures { result ≡ self.entry.source }
    {
        let ReaderJob {
            rt: _,
            alloc: _,
            post: _,
            seat: _,
            source,
        } = self;
        source
    }
}

impl<'a, R: Wait, S: Source + Send + Drop> Job for ReaderJob<'a, R, S> {
    type Done = ReaderDone<S>;

    ghost may_run = { λ job. IsReader job.post.now job.seat };

    ghost may_give = { λ job done. ReadsOut (flow_of S.Source job.source) (flow_of S.Source done.source) job.post.now
        done.seat done.starved };

    fn run(self) -> ReaderDone<S> {
        let ReaderJob {
            rt,
            alloc,
            post,
            mut seat,
            mut source,
        } = self;
        let starved = read_out(rt, alloc, post, &mut seat, &mut source);
        ReaderDone {
            source,
            seat,
            starved,
        }
    }
}
