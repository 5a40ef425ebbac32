//! One slot between two threads: one puts pieces into it, the other takes them out.
ghost use Rattle.std.specs.Prelude.{◌≡◌, IfOk, MatchOption, MatchResult, false, true};
ghost use mathlib.Core.List.{IsPrefix};
ghost use Rattle.dp_polled.specs.Posts.{IsWhole, after_empty, after_full, after_join, after_put, after_take, seat_of};

use crate::turns::{
    AskToPut, AskToTake, Both, Compare, CountPut, CountTaken, OnePiece, Parted, View,
};
use crate::{Memory, Piece};
use atomic_table::{Seat, Table};
use std::alloc::Global;
use std::marker::Model;

/// One slot for a piece, between a seat that may put and a seat that may take. What was taken is a front of what was
/// put, piece by piece.
///
/// It is a table of one word and one slot: the word is 1 while a piece is in the slot. Its calls wait for nobody, and
/// take no memory but for `new`. Contracts see which post it is.
#[derive(Drop)]
pub struct Post {
    table: Table<Option<Piece>, View, (), OnePiece, Global>,
}

impl Model for Post {
    ghost use Rattle.std.specs.Prelude.{◌≡◌};
    ghost use Rattle.atomic_table.specs.Seated.{TableId, table_id_coded};

    ghost Value = { TableId };

    ghost coded = { table_id_coded };

    ghost view = { λ p. p.table.shared.table_id };

    ghost invariant = { λ p. (p.table.shared.table_id.words ≡ 1) × (p.table.shared.table_id.slots ≡ 1) };
}

/// The right to put pieces, to take them, or to do both. Contracts see the pieces that it put and those that it took,
/// what it may do, of which post it is, and whether the slot was full, each time that a put or a take asked.
#[derive(Drop)]
pub struct PostSeat {
    seat: Seat<Option<Piece>, View>,
}

impl Model for PostSeat {
    ghost use Rattle.std.specs.Prelude.{◌≡◌, [], false};
    ghost use Rattle.dp_polled.specs.Posts.{Known};
    ghost use Rattle.dp_polled.specs.Turns.{known};

    ghost Value = { Known };

    ghost view = { λ s. known s.seat.table_id s.seat.me.0 };

    ghost invariant = { λ s. (s.seat.me.1 ≡ []) × (s.seat.me.0.putting ≡ false) × (s.seat.me.0.taking ≡ false) };
}

impl Post {
    /// A post with nothing in its slot, and a seat that may do both.
    pub fn new(alloc: Global) -> Result<(Post, PostSeat), Memory>
        ensures { IfOk result (λ made. made.1 ≡ seat_of made.0 true true) }
    {
        let (table, seat) = Table::vacant(alloc, &[0], 1, &())?;
        Ok((Post { table }, PostSeat { seat }))
    }

    /// Puts a piece into the slot, or hands it back where its step found the slot full.
    pub fn put(&self, seat: &mut PostSeat, piece: Piece) -> Result<(), Piece>
        requires post { seat.old.post ≡ self.now }
        requires right { seat.old.may_put ≡ true }
        ensures { MatchResult result (λ _. seat.new ≡ after_put piece seat.old)
            (λ back. (back ≡ piece) × (seat.new ≡ after_full seat.old)) }
    {
        let shared = &self.table.shared;
        let found = shared.load::<AskToPut>(&mut seat.seat, 0);
        if found == 0 {
            drop(shared.exchange(&mut seat.seat, 0, Some(piece)));
            shared.store::<CountPut>(&mut seat.seat, 0, 1);
            return Ok(());
        }
        Err(piece)
    }

    /// Takes the piece out of the slot, or nothing where its step found the slot empty.
    pub fn take(&self, seat: &mut PostSeat) -> Option<Piece>
        requires post { seat.old.post ≡ self.now }
        requires right { seat.old.may_take ≡ true }
        ensures { MatchOption result (seat.new ≡ after_empty seat.old)
            (λ piece. seat.new ≡ after_take piece seat.old) }
    {
        let shared = &self.table.shared;
        let found = shared.load::<AskToTake>(&mut seat.seat, 0);
        if found == 0 {
            return None;
        }
        let piece = shared.exchange(&mut seat.seat, 0, None);
        shared.store::<CountTaken>(&mut seat.seat, 0, 0);
        piece
    }

    /// A new seat that may put. The old one keeps the right to take alone.
    pub fn split(&self, seat: &mut PostSeat) -> PostSeat
        requires post { seat.old.post ≡ self.now }
        requires whole { IsWhole seat.old }
        ensures new { result ≡ seat_of self.now true false }
        ensures left { seat.new ≡ seat_of self.now false true }
    {
        PostSeat {
            seat: self.table.shared.split_seat::<Parted>(&mut seat.seat),
        }
    }

    /// Hands a right to put, with what was put, to the seat that may take. It may do both then, and what it took is a
    /// front of what it put.
    pub fn join(&self, seat: PostSeat, to: &mut PostSeat)
        requires post { seat.post ≡ self.now }
        requires same { to.old.post ≡ self.now }
        requires put { seat.may_put ≡ true }
        requires take { to.old.may_take ≡ true }
        ensures joined { to.new ≡ after_join seat to.old }
        ensures front { IsPrefix to.new.taken to.new.put }
    {
        let PostSeat { seat } = seat;
        self.table.shared.join_seat::<Both>(&mut to.seat, seat);
        self.compare(to);
    }

    /// Looks at how what a seat that may do both has taken stands to what it has put.
    fn compare(&self, seat: &mut PostSeat)
        requires post { seat.old.post ≡ self.now }
        requires put { seat.old.may_put ≡ true }
        requires take { seat.old.may_take ≡ true }
        ensures same { seat.new ≡ seat.old }
        ensures front { IsPrefix seat.new.taken seat.new.put }
    {
        self.table.shared.load::<Compare>(&mut seat.seat, 0);
    }
}
