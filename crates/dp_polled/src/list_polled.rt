//! A Polled in memory.
ghost use Rattle.std.specs.Prelude.{◌≡◌, ◌+◌, ◌-◌, ◌^◌, ◌<◌, ◌≤◌, ◌++◌, ◌||◌, [], Some, true, false, length, min, take};
ghost use Rattle.std.specs.Prelude.{IfOk, IsOk, IsTrue, None, OnErr, OnOk, is_err, ℕ};
ghost use Rattle.dp_outside.specs.Causes.{HasCause};
ghost use Rattle.dp_outside.specs.Fakes.{after_call, first_plan, is_due};
ghost use Rattle.dp_polled.specs.Arrivals.{arrivals_of, bytes_of, first_bytes, is_there, left_by, less, look_at, next};
ghost use Rattle.dp_polled.specs.Polls.{came, count_of, look_ends, look_is_over, wait_ends, wait_is_over, waited};

use crate::arrivals::Arrivals;
use crate::{Look, Memory, Polled};
use dp_outside::{FailPlan, Failed, GhostList};
use std::marker::Model;

/// Bytes in memory that come at looks of given numbers, and calls that fail where they are told to.
///
/// Contracts see the arrivals still to come and the bytes given, how often it was looked at, whether a call has
/// answered the end or a fault, and its plan (the numbers of the calls that fail, the calls and the faults so far).
#[derive(Drop)]
pub struct ListPolled {
    arrivals: Arrivals,
    /// The number of the last look; it stands still at the greatest number.
    number: u64,
    looks: GhostList<(), (), ()>,
    over: bool,
    plan: FailPlan,
}

impl Model for ListPolled {
    ghost use Rattle.std.specs.Prelude.{◌≡◌, ◌-◌, ◌^◌, length, min};
    ghost use Rattle.dp_polled.specs.Arrivals.{ListState};

    ghost Value = { ListState };

    ghost view = { λ p. record { coming = p.arrivals; looks = length p.looks.items; over = p.over; plan = p.plan } };

    ghost invariant = { λ p. p.number ≡ min (length p.looks.items) (2 ^ 64 - 1) };
}

impl ListPolled {
    /// A Polled of these arrivals: of each the number of a look, from 1, and the bytes that are there from that look
    /// on. They come in this order, and one look gives bytes of one of them. `wait` gives the next bytes without regard
    /// to the number. After the last arrival the input ends; that one may be without bytes, and the input then ends
    /// from its look on, or at a `wait` that comes to it. Those calls fail whose numbers, counted from 1 over looks and
    /// waits, stand in `fails`.
    pub fn new(gives: Vec<(u64, Vec<u8>)>, fails: Vec<u64>) -> Result<Self, Memory>
        ensures left { IfOk result (λ polled. polled.coming.left ≡ arrivals_of gives.items) }
        ensures given { IfOk result (λ polled. polled.coming.given ≡ []) }
        ensures looks { IfOk result (λ polled. polled.looks ≡ 0) }
        ensures over { IfOk result (λ polled. polled.over ≡ false) }
        ensures plan { IfOk result (λ polled. polled.plan ≡ first_plan fails.items) }
        ensures sure { IsOk result }
    {
        Ok(ListPolled {
            arrivals: Arrivals::new(gives),
            number: 0,
            looks: GhostList::new(),
            over: false,
            plan: FailPlan::new(fails),
        })
    }

    /// How often it was looked at, or the greatest number where that is more.
    pub fn looks(&self) -> u64
        ensures { result ≡ min self.now.looks (2 ^ 64 - 1) }
    {
        self.number
    }

    /// How often it has failed.
    pub fn faults(&self) -> u64
        ensures { result ≡ self.now.plan.faults }
    {
        self.plan.faults()
    }
}

/// What a look finds of these arrivals, once those that say nothing were gone past.
fn look_for(arrivals: &mut Arrivals, number: u64, buf: &mut [u8]) -> Look
    ensures found { result ≡ look_at number (length buf.old) (next arrivals.old.left) }
    ensures greatest { number ≡ 2 ^ 64 - 1 → is_there number (next arrivals.old.left) ≡ true }
    ensures left { arrivals.new.left ≡ left_by result (next arrivals.old.left) }
    ensures given { arrivals.new.given ≡ arrivals.old.given ++ take (count_of result) buf.new }
    ensures bytes { bytes_of arrivals.old.left ≡ take (count_of result) buf.new ++ bytes_of arrivals.new.left }
    ensures bound { count_of result ≤ length buf.new }
    ensures some { (n : ℕ) → result ≡ Look.Bytes n → 0 < length buf.new → 1 ≤ n }
    ensures end { result ≡ Look.End → bytes_of arrivals.new.left ≡ [] }
{
    arrivals.skip();
    if !arrivals.is_there(number) {
        return Look::NotYet;
    }
    let is_end = arrivals.first_length() == 0;
    let count = arrivals.give(buf);
    if is_end {
        Look::End
    } else {
        Look::Bytes(count)
    }
}

impl Polled for ListPolled {
    ghost left = { λ p. Some (bytes_of p.coming.left) };

    ghost given = { λ p. Some p.coming.given };

    ghost over = { λ p. Some p.over };

    ghost post = { λ _. None };

    ghost looks = { λ p. p.looks };

    ghost faults = { λ p. p.plan.faults };

    ghost given_too = { λ _ told. told };

    fn look(&mut self, buf: &mut [u8]) -> Result<Look, Failed>
        ensures bound { IfOk result (λ look. count_of look ≤ length buf.new) }
        ensures some { (n : ℕ) → IfOk result (λ look. look ≡ Look.Bytes n → 0 < length buf.new → 1 ≤ n) }
        ensures left { bytes_of self.old.coming.left ≡ came result buf.new ++ bytes_of self.new.coming.left }
        ensures given { self.new.coming.given ≡ self.old.coming.given ++ came result buf.new }
        ensures end { IsTrue (look_ends result) → bytes_of self.new.coming.left ≡ [] }
        ensures over { self.new.over ≡ (self.old.over || look_is_over result) }
        ensures looks { self.new.looks ≡ self.old.looks + 1 }
        ensures held { OnOk result (self.new.plan.faults ≡ self.old.plan.faults) }
        ensures cause { HasCause self.old.plan.faults self.new.plan.faults result }

        // It fails exactly where its plan says so, and else finds what is there at the look of this number.
        ensures due { is_err result ≡ is_due self.old.plan }
        ensures plan { self.new.plan ≡ after_call self.old.plan (is_err result) }
        ensures found { IfOk result (λ look. look
            ≡ look_at (self.old.looks + 1) (length buf.old) (next self.old.coming.left)) }
        ensures moved { IfOk result (λ look. self.new.coming.left ≡ left_by look (next self.old.coming.left)) }
        ensures kept { OnErr result (self.new.coming ≡ self.old.coming) }
    {
        self.looks = self.looks.with(&(), &(), &());
        self.number = self.number.saturating_add(1);
        if self.plan.call().is_err() {
            self.over = true;
            return Err(Failed);
        }
        let look = look_for(&mut self.arrivals, self.number, buf);
        if look == Look::End {
            self.over = true;
        }
        Ok(look)
    }

    fn wait(&mut self, buf: &mut [u8]) -> Result<usize, Failed>
        ensures bound { IfOk result (λ count. count ≤ length buf.new) }
        ensures left { bytes_of self.old.coming.left ≡ waited result buf.new ++ bytes_of self.new.coming.left }
        ensures given { self.new.coming.given ≡ self.old.coming.given ++ waited result buf.new }
        ensures end { IsTrue (wait_ends result (length buf.new)) → bytes_of self.new.coming.left ≡ [] }
        ensures over { self.new.over ≡ (self.old.over || wait_is_over result (length buf.new)) }
        ensures looks { self.new.looks ≡ self.old.looks }
        ensures held { OnOk result (self.new.plan.faults ≡ self.old.plan.faults) }
        ensures cause { HasCause self.old.plan.faults self.new.plan.faults result }

        // It fails exactly where its plan says so, and else gives the next bytes.
        ensures due { is_err result ≡ is_due self.old.plan }
        ensures plan { self.new.plan ≡ after_call self.old.plan (is_err result) }
        ensures count { IfOk result (λ count. count
            ≡ min (length buf.old) (length (first_bytes (next self.old.coming.left)))) }
        ensures moved { IfOk result (λ count. self.new.coming.left ≡ less count (next self.old.coming.left)) }
        ensures kept { OnErr result (self.new.coming ≡ self.old.coming) }
    {
        if self.plan.call().is_err() {
            self.over = true;
            return Err(Failed);
        }
        self.arrivals.skip();
        let count = self.arrivals.give(buf);
        if count == 0 && !buf.is_empty() {
            self.over = true;
        }
        Ok(count)
    }
}
