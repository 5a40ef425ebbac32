//! One thread puts pieces on a post and takes them, in turn.
ghost use Rattle.std.specs.Prelude.{◌≡◌, true};

use dp_bytes::Bytes;
use dp_polled::{Look, Memory, Piece, Polled, Post, PostSeat, Posted};
use std::alloc::Global;
use std::sync::Wait;

/// What the calls on a post are answered, in their order.
#[derive(Debug, PartialEq, Eq, Drop)]
pub(crate) struct Answers {
    /// A look before a piece was put.
    pub(crate) before: Option<Look>,
    /// Whether a second piece was handed back while the first was in the slot.
    pub(crate) is_full: bool,
    /// Two looks with room for one byte, at a piece of two, and a third.
    pub(crate) first: Option<Look>,
    pub(crate) second: Option<Look>,
    pub(crate) spent: Option<Look>,
    /// A wait once the end was put, and a look.
    pub(crate) waited: Option<usize>,
    pub(crate) last: Option<Look>,
}

/// Puts two bytes and the end, and looks and waits between.
fn requested<R: Wait>(
    alloc: Global,
    post: &Post,
    putter: &mut PostSeat,
    polled: &mut Posted<'_, R>,
) -> Result<Answers, Memory>
    requires post { putter.old.post ≡ post.now }
    requires right { putter.old.may_put ≡ true }
    ensures putter { putter.new.post ≡ post.now }
    ensures may_put { putter.new.may_put ≡ true }
    ensures taker { polled.new.seat.post ≡ polled.old.seat.post }
{
    let mut room = [0];
    let before = polled.look(&mut room).ok();
    let piece = Piece::Bytes(Bytes::from_slice(alloc, b"ab")?);
    let _ = post.put(putter, piece);
    let is_full = post.put(putter, Piece::End).is_err();
    let first = polled.look(&mut room).ok();
    let second = polled.look(&mut room).ok();
    let spent = polled.look(&mut room).ok();
    let _ = post.put(putter, Piece::End);
    let waited = polled.wait(&mut room).ok();
    let last = polled.look(&mut room).ok();
    Ok(Answers {
        before,
        is_full,
        first,
        second,
        spent,
        waited,
        last,
    })
}

/// What the calls on a new post are answered.
pub(crate) fn asked_in_turn<R: Wait>(rt: &R, alloc: Global) -> Result<Answers, Memory> {
    let (post, mut seat) = Post::new(alloc)?;
    let mut putter = post.split(&mut seat);
    let mut polled = Posted::new(rt, &post, seat);
    let answers = requested(alloc, &post, &mut putter, &mut polled);
    let mut seat = polled.end();
    post.join(putter, &mut seat);
    answers
}
