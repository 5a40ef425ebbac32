//! One thread puts pieces on a post, and another takes them.
ghost use Rattle.std.specs.Prelude.{◌≡◌, true};

use dp_bytes::Bytes;
use dp_polled::{Look, Memory, Piece, Polled, Post, PostSeat, Posted};
use std::alloc::Global;
use std::sync::Wait;
use std::thread::{Threads, join, yield_now};

/// Puts a piece as soon as the slot is empty.
fn put_on<R: Wait>(rt: &R, post: &Post, seat: &mut PostSeat, piece: Piece)
    requires post { seat.old.post ≡ post.now }
    requires right { seat.old.may_put ≡ true }
    ensures post { seat.new.post ≡ post.now }
    ensures right { seat.new.may_put ≡ true }
{
    let mut unput = piece;
    'tries: for _ in rt.forever() {
        match post.put(seat, unput) {
            Ok(()) => return,
            Err(back) => {
                unput = back;
                yield_now();
            }
        }
    }
    unreachable!()
}

/// Puts each byte of a text as a piece of its own, and the end; a failure, where memory runs out.
fn put_all<R: Wait>(rt: &R, alloc: Global, post: &Post, mut seat: PostSeat, text: &[u8]) -> PostSeat
    requires post { seat.post ≡ post.now }
    requires right { seat.may_put ≡ true }
    ensures post { result.post ≡ post.now }
    ensures right { result.may_put ≡ true }
{
    'bytes: for byte in text {
        let Ok(bytes) = Bytes::from_slice(alloc, &[*byte]) else {
            put_on(rt, post, &mut seat, Piece::Failed);
            return seat;
        };
        put_on(rt, post, &mut seat, Piece::Bytes(bytes));
    }
    put_on(rt, post, &mut seat, Piece::End);
    seat
}

/// All that comes, up to the end: first by looks, up to half of it, and then by waits.
fn take_from<R: Wait>(
    rt: &R,
    polled: &mut Posted<'_, R>,
    all: &mut Vec<u8>,
    half: usize,
) -> Result<(), Memory>
    ensures post { polled.new.seat.post ≡ polled.old.seat.post }
{
    let mut buffer = [0; 4];
    'looks: for _ in rt.forever() {
        if all.len() >= half {
            break;
        }
        match polled.look(&mut buffer) {
            Ok(Look::NotYet) => yield_now(),
            Ok(Look::Bytes(count)) => all.extend_from_slice(&buffer[..count])?,
            Ok(Look::End) => return Ok(()),
            Err(_) => return Ok(()),
        }
    }
    'waits: for _ in rt.forever() {
        match polled.wait(&mut buffer) {
            Ok(0) => return Ok(()),
            Ok(count) => all.extend_from_slice(&buffer[..count])?,
            Err(_) => return Ok(()),
        }
    }
    unreachable!()
}

/// All that comes on a post, put behind what is there. The seat comes back.
fn take_all<R: Wait>(
    rt: &R,
    post: &Post,
    seat: PostSeat,
    mut all: Vec<u8>,
    half: usize,
) -> (Result<Vec<u8>, Memory>, PostSeat)
    requires post { seat.post ≡ post.now }
    requires right { seat.may_take ≡ true }
    ensures post { result.1.post ≡ post.now }
    ensures right { result.1.may_take ≡ true }
{
    let mut polled = Posted::new(rt, post, seat);
    let taken = take_from(rt, &mut polled, &mut all, half);
    let seat = polled.end();
    match taken {
        Ok(()) => (Ok(all), seat),
        Err(_) => (Err(Memory), seat),
    }
}

/// What one thread takes of a text that another puts.
pub(crate) fn passed_on<R: Threads + Wait + Sync>(
    rt: &R,
    alloc: Global,
    text: &[u8],
) -> Result<Vec<u8>, Memory> {
    let all = Vec::with_capacity(alloc, text.len())?;
    let (post, mut seat) = Post::new(alloc)?;
    let putter = post.split(&mut seat);
    let shared = &post;
    let half = text.len() / 2;
    let (putter, (taken, mut seat)) = join(
        rt,
        move || -> PostSeat
            requires { (putter.post ≡ shared.now) × (putter.may_put ≡ true) }
            ensures { (result.post ≡ shared.entry.now) × (result.may_put ≡ true) }
        { put_all(rt, alloc, shared, putter, text) },
        move || -> (Result<Vec<u8>, Memory>, PostSeat)
            requires { (seat.post ≡ shared.now) × (seat.may_take ≡ true) }
            ensures { (result.1.post ≡ shared.entry.now) × (result.1.may_take ≡ true) }
        { take_all(rt, shared, seat, all, half) },
    );
    post.join(putter, &mut seat);
    taken
}
