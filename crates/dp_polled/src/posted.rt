//! A post as a Polled.
ghost use Rattle.std.specs.Prelude.{◌≡◌, ◌+◌, ◌<◌, ◌≤◌, ◌++◌, ◌||◌, None, Some, length, IfOk, OnOk, ℕ, take, true};
ghost use mathlib.Core.Bool.{true≢false};
ghost use mathlib.Core.Path.{sym};
ghost use Rattle.dp_outside.specs.Causes.{HasCause};
ghost use Rattle.dp_polled.specs.Polls.{came, count_of, look_is_over, wait_is_over, waited};
ghost use Rattle.dp_polled.specs.Posted.{Answers, Asked, HasOnlyTaken, Tried, Waited, given, is_over, is_spent, moved};
ghost use Rattle.dp_polled.specs.Posted.{IsKept, with_look};

use crate::{Look, Piece, Polled, Post, PostSeat};
use dp_outside::{Failed, Faults, GhostList};
use std::marker::Model;
use std::sync::Wait;
use std::thread::yield_now;

/// What another thread puts on a post, as a Polled. Its `wait` tries again until a piece is there.
///
/// Contracts see its seat, the piece that it took last with how many bytes of it were given, how often it was looked at
/// and how often it has failed.
#[derive(Drop)]
pub struct Posted<'a, R> {
    rt: &'a R,
    post: &'a Post,
    seat: PostSeat,
    kept: Option<Piece>,
    at: usize,
    looks: GhostList<(), (), ()>,
    faults: Faults,
}

impl<'a, R> Model for Posted<'a, R> {
    ghost use Rattle.std.specs.Prelude.{◌≡◌, length, true};
    ghost use Rattle.dp_polled.specs.Posted.{State, IsKept};

    ghost Value = { State };

    ghost view = { λ p. record {
      seat = p.seat;
      kept = p.kept;
      at = p.at;
      looks = length p.looks.items;
      faults = p.faults;
    } };

    ghost invariant = { λ p. (p.seat.post ≡ p.post.now) × (p.seat.may_take ≡ true)
        × IsKept p.seat.taken p.kept p.at p.faults };
}

impl<'a, R> Posted<'a, R> {
    /// A Polled that takes what comes on a post with this seat, which may take. Waits for nobody, and takes no memory.
    pub fn new(rt: &'a R, post: &'a Post, seat: PostSeat) -> Self
        requires post { seat.post ≡ post.now }
        requires right { seat.may_take ≡ true }
        ensures { result ≡ record { seat = seat; kept = None; at = 0; looks = 0; faults = 0 } }
    {
        Posted {
            rt,
            post,
            seat,
            kept: None,
            at: 0,
            looks: GhostList::new(),
            faults: Faults::new(),
        }
    }

    /// Its seat. Waits for nobody, and takes no memory.
    pub fn end(self) -> PostSeat
        ensures seat { result ≡ self.entry.seat }
        ensures right { result.may_take ≡ true }
        ensures kept { IsKept result.taken self.entry.kept self.entry.at self.entry.faults }
    {
        let Posted {
            rt: _,
            post: _,
            seat,
            kept: _,
            at: _,
            looks: _,
            faults: _,
        } = self;
        seat
    }

    /// Whether all bytes of the piece that it keeps were given.
    fn is_spent(&self) -> bool
        ensures { result ≡ is_spent self.now.kept self.now.at }
    {
        match &self.kept {
            None => true,
            Some(Piece::Bytes(bytes)) => bytes.len() <= self.at,
            Some(Piece::End) => false,
            Some(Piece::Failed) => false,
        }
    }

    /// Takes the next piece, if the one that it keeps was given whole.
    fn ask(&mut self)
        ensures asks { Asked self.old self.new }
        ensures given { given self.new ≡ given self.old }
        ensures seat { HasOnlyTaken self.old.seat self.new.seat }
    {
        if !self.is_spent() {
            return;
        }
        if let Some(piece) = self.post.take(&mut self.seat) {
            self.kept = Some(piece);
            self.at = 0;
        }
    }

    /// What it gives of the piece that it keeps.
    fn answer(&mut self, buf: &mut [u8]) -> Result<Look, Failed>
        ensures answers { Answers (length buf.old) self.old.kept self.old.at result }
        ensures moved { self.new ≡ moved result self.old }
        ensures given { given self.new ≡ given self.old ++ came result buf.new }
        ensures bound { IfOk result (λ look. count_of look ≤ length buf.new) }
        ensures some { (n : ℕ) → IfOk result (λ look. look ≡ Look.Bytes n → 0 < length buf.new → 1 ≤ n) }
        ensures cause { HasCause self.old.faults self.new.faults result }
    {
        match &self.kept {
            None => Ok(Look::NotYet),
            Some(Piece::Bytes(bytes)) => {
                let rest = &bytes.as_slice()[self.at..];
                if rest.is_empty() {
                    return Ok(Look::NotYet);
                }
                let count = buf.len().min(rest.len());
                buf[..count].copy_from_slice(&rest[..count]);
                self.at += count;
                Ok(Look::Bytes(count))
            }
            Some(Piece::End) => Ok(Look::End),
            Some(Piece::Failed) => {
                self.faults.raise();
                Err(Failed)
            }
        }
    }

    /// Asks for a piece if it must, and gives of the one that it keeps.
    fn try_once(&mut self, buf: &mut [u8]) -> Result<Look, Failed>
        ensures tried { Tried (length buf.old) self.old result self.new }
        ensures bound { IfOk result (λ look. count_of look ≤ length buf.new) }
        ensures some { (n : ℕ) → IfOk result (λ look. look ≡ Look.Bytes n → 0 < length buf.new → 1 ≤ n) }
        ensures given { given self.new ≡ given self.old ++ came result buf.new }
        ensures over { is_over self.new.kept ≡ (is_over self.old.kept || look_is_over result) }
        ensures looks { self.new.looks ≡ self.old.looks }
        ensures held { OnOk result (self.new.faults ≡ self.old.faults) }
        ensures cause { HasCause self.old.faults self.new.faults result }
        ensures seat { HasOnlyTaken self.old.seat self.new.seat }
    {
        self.ask();
        self.answer(buf)
    }
}

impl<'a, R: Wait> Polled for Posted<'a, R> {
    ghost left = { λ _. None };

    ghost given = { λ p. Some (given p) };

    ghost over = { λ p. Some (is_over p.kept) };

    ghost post = { λ p. Some p.seat.post };

    ghost looks = { λ p. p.looks };

    ghost faults = { λ p. p.faults };

    ghost given_too = { λ p told. absurd (true≢false (sym told)) };

    fn look(&mut self, buf: &mut [u8]) -> Result<Look, Failed>
        ensures bound { IfOk result (λ look. count_of look ≤ length buf.new) }
        ensures some { (n : ℕ) → IfOk result (λ look. look ≡ Look.Bytes n → 0 < length buf.new → 1 ≤ n) }
        ensures given { given self.new ≡ given self.old ++ came result buf.new }
        ensures over { is_over self.new.kept ≡ (is_over self.old.kept || look_is_over result) }
        ensures post { self.new.seat.post ≡ self.old.seat.post }
        ensures looks { self.new.looks ≡ self.old.looks + 1 }
        ensures held { OnOk result (self.new.faults ≡ self.old.faults) }
        ensures cause { HasCause self.old.faults self.new.faults result }

        // It asks the post for a piece if it has none, and answers of the one that it keeps.
        ensures tried { Tried (length buf.old) (with_look self.old) result self.new }
    {
        self.looks = self.looks.with(&(), &(), &());
        self.try_once(buf)
    }

    fn wait(&mut self, buf: &mut [u8]) -> Result<usize, Failed>
        ensures bound { IfOk result (λ count. count ≤ length buf.new) }
        ensures given { given self.new ≡ given self.old ++ waited result buf.new }
        ensures over { is_over self.new.kept ≡ (is_over self.old.kept || wait_is_over result (length buf.new)) }
        ensures post { self.new.seat.post ≡ self.old.seat.post }
        ensures looks { self.new.looks ≡ self.old.looks }
        ensures held { OnOk result (self.new.faults ≡ self.old.faults) }
        ensures cause { HasCause self.old.faults self.new.faults result }

        // It waits for a piece exactly where there is room and the one that it keeps was given whole, and gives of the
        // piece that it keeps then. Its seat only takes.
        ensures waits { Waited (length buf.old) self.old result self.new }
        ensures takes { HasOnlyTaken self.old.seat self.new.seat }
    {
        if buf.is_empty() {
            // Nothing is asked for: a failure that stays is answered again.
            self.answer(buf)?;
            return Ok(0);
        }
        let rt = self.rt;
        'tries: for _ in rt.forever() {
            match self.try_once(buf)? {
                Look::NotYet => yield_now(),
                Look::Bytes(count) => return Ok(count),
                Look::End => return Ok(0),
            }
        }
        unreachable!()
    }
}
