//! Small steps with the statements and the loops that wait: the innermost item of the pending work is looked at where
//! it is, and its numbers are changed where they stand. A function has no large local, as in the steps with statements.

ghost use Rattle.std.specs.Prelude.{◌≡◌, ℕ, Bool, List};
ghost use Rattle.dp_small_steps.specs.declared.work.EachTurns.{EachTurns as AnyEachTurns};
ghost use Rattle.dp_small_steps.specs.declared.work.ForSignal.{ForSignal as AnySignalWork};
ghost use Rattle.dp_small_steps.specs.declared.work.ForSignal.TheVariants as any_signal_work;
ghost use Rattle.dp_small_steps.specs.declared.work.Waiting.{Waiting as AnyWaiting};
ghost use Rattle.dp_step.specs.inner.Innermost.{waiting_for, waits_for};
ghost use Rattle.dp_value.specs.declared.value.Value.{Value as AnyValue};

use crate::machine::{Came, Machine, halted};
use crate::tests::{head_holds, test_holds};
use dp_actions::Signal;
use dp_analysis::all_momentless;
use dp_bytes::Items;
use dp_small_steps::{
    DoTurns, EachTurns, ForSignal, Given, Hand, Head, Turns, Waiting, Work, bind_at, entry_count,
};
use dp_state::Outcome;
use dp_tree::{Expression, Statement};
use std::mem;

impl<'p> Machine<'p> {
    ghost use Rattle.std.specs.Prelude.{◌≡◌, ◌-◌, ◌<◌, ◌^◌, ℕ, true, false, List, drop, length};
    ghost use Rattle.std.specs.List.{list_all};
    ghost use Rattle.dp_actions.specs.Expressions.{evaluations};
    ghost use Rattle.dp_actions.specs.Loops.{entries};
    ghost use Rattle.dp_actions.specs.Run.{and_then};
    ghost use Rattle.dp_actions.specs.declared.signal.Signal.TheVariants.{Next as NextSignal};
    ghost use Rattle.dp_analysis.specs.Still.{is_momentless as has_no_moment};
    ghost use Rattle.dp_step.specs.inner.Moves.{Moves, follows_of, setting_at};
    ghost use Rattle.dp_step.specs.inner.Innermost.{IsEachBody, IsInnermost, over, waits_for};
    ghost use Rattle.dp_small_steps.specs.Parts.{to_signal};
    ghost use Rattle.dp_small_steps.specs.declared.work.Given.TheVariants as any_given;
    ghost use Rattle.dp_small_steps.specs.Rest.{do_decided, do_turns_of, each_turn, turns_decided, turns_of};
    ghost use Rattle.dp_small_steps.specs.declared.work.ForSignal.TheVariants as any_signal_work;
    ghost use Rattle.dp_small_steps.specs.declared.work.Waiting.{Waiting as AnyWaiting};
    ghost use Rattle.dp_value.specs.declared.value.Value.{Value as AnyValue};

    /// On with what waits.
    pub(crate) fn on(&mut self) -> Came
        ensures { Moves self.old (follows_of self.old (any_given.Signal NextSignal) self.old.state) result self.new }
    {
        match self.pending.last() {
            Some(Waiting::Part(Work::ForSignal(ForSignal::Rest(all, at)))) => {
                let all = *all;
                let at = *at;
                self.rest(all, at)
            }
            Some(Waiting::Part(Work::ForSignal(ForSignal::Body(turns, left, due)))) => {
                let turns = *turns;
                let left = *left;
                let due = *due;
                self.turn_on(turns, left, due)
            }
            Some(Waiting::Part(Work::ForSignal(ForSignal::DoBody(turns, left, due)))) => {
                let turns = *turns;
                let left = *left;
                let due = *due;
                self.do_on(turns, left, due)
            }
            Some(Waiting::Part(Work::ForSignal(ForSignal::EachBody(turns, subject, at, due)))) => {
                let turns = *turns;
                let count = entry_count(subject);
                let at = *at;
                let due = *due;
                self.each_on(turns, count, at, due)
            }
            _ => self.take(Given::Signal(Signal::Next)),
        }
    }

    /// On with what waits, which is in hand as the signal to go on.
    fn next(&mut self) -> Came
        ensures { Moves self.old (follows_of self.old (any_given.Signal NextSignal) self.old.state) result self.new }
    {
        self.put(Hand::Give(Given::Signal(Signal::Next)))
    }

    /// The statement at a position, and then those behind it. Nothing waits for the last of them.
    fn rest(&mut self, all: &'p Items<Statement>, at: usize) -> Came
        requires { IsInnermost self.old (any_signal_work.Rest all at) }
        ensures { Moves self.old (follows_of self.old (any_given.Signal NextSignal) self.old.state) result self.new }
    {
        match all.as_slice().get(at) {
            None => {
                drop(self.pending.pop());
                self.next()
            }
            Some(first) => {
                if at + 1 < all.as_slice().len() {
                    put_last(&mut self.pending, ForSignal::Rest(all, at + 1));
                    self.put(Hand::Run(first))
                } else {
                    drop(self.pending.pop());
                    self.put(Hand::Run(first))
                }
            }
        }
    }

    /// A turn of a `while` or a `for` is over, or its moment has come.
    fn turn_on(&mut self, turns: Turns<'p>, left: u64, due: bool) -> Came
        requires { IsInnermost self.old (any_signal_work.Body turns left due) }
        ensures { Moves self.old (follows_of self.old (any_given.Signal NextSignal) self.old.state) result self.new }
    {
        if due {
            self.turn_due(turns, left)
        } else {
            self.turn_over(turns, left)
        }
    }

    /// The moment of a turn has come, and its tests are due.
    fn turn_due(&mut self, turns: Turns<'p>, left: u64) -> Came
        requires { IsInnermost self.old (any_signal_work.Body turns left true) }
        ensures { Moves self.old (follows_of self.old (any_given.Signal NextSignal) self.old.state) result self.new }
    {
        match head_holds(self.whole(), &turns.head, &mut self.state) {
            Ok(Some(held)) => self.decide(turns, left, held),
            Ok(None) => self.take(Given::Signal(Signal::Next)),
            Err(why) => halted(why),
        }
    }

    /// A turn whose tests are evaluated.
    fn decide(&mut self, turns: Turns<'p>, left: u64, held: bool) -> Came
        ensures { (below : List AnyWaiting)
            → self.old.pending.items ≡ waits_for below (any_signal_work.Body turns.entry left true)
            → Moves self.old (and_then (turns_decided (setting_at self.old) turns.entry left held self.old.state)
            (to_signal (over self.old below))) result self.new }
    {
        if held {
            put_last(&mut self.pending, ForSignal::Body(turns, left, false));
            self.put(Hand::Run(turns.body.as_ref()))
        } else {
            drop(self.pending.pop());
            self.next()
        }
    }

    /// The body of a turn is over, and what comes between two turns is due.
    fn turn_over(&mut self, turns: Turns<'p>, left: u64) -> Came
        requires { IsInnermost self.old (any_signal_work.Body turns left false) }
        ensures { Moves self.old (follows_of self.old (any_given.Signal NextSignal) self.old.state) result self.new }
    {
        match turns.head {
            Head::While(_) => self.turn(turns, left),
            Head::For(_, after) => {
                if all_momentless(after.as_slice()) {
                    self.after(turns, left, after)
                } else {
                    self.take(Given::Signal(Signal::Next))
                }
            }
        }
    }

    /// What comes between two turns of a `for`, and then the moment of the next one.
    fn after(&mut self, turns: Turns<'p>, left: u64, after: &'p Items<Expression>) -> Came
        requires { list_all has_no_moment after.now ≡ true }
        ensures { (below : List AnyWaiting)
            → self.old.pending.items ≡ waits_for below (any_signal_work.Body turns.entry left false)
            → Moves self.old (and_then (evaluations after.now (setting_at self.old) self.old.state)
            (λ values t. and_then (turns_of (setting_at self.old) turns.entry left t)
            (to_signal (over self.old below)))) result self.new }
    {
        match self.whole().effects(after.as_slice(), &mut self.state) {
            Ok(()) => self.turn(turns, left),
            Err(why) => halted(why),
        }
    }

    /// The moment of the next turn, of which at most so many are left.
    fn turn(&mut self, turns: Turns<'p>, left: u64) -> Came
        ensures { (below : List AnyWaiting)
            → self.old.pending.items ≡ waits_for below (any_signal_work.Body turns.entry left false)
            → Moves self.old (and_then (turns_of (setting_at self.old) turns.entry left self.old.state)
            (to_signal (over self.old below))) result self.new }
    {
        if left == 0 {
            Came::Over(Outcome::Bound)
        } else {
            put_last(&mut self.pending, ForSignal::Body(turns, left - 1, true));
            self.placed(turns.line, Hand::Give(Given::Signal(Signal::Next)))
        }
    }

    /// The body of a turn of a `do` is over, or the moment of its test has come.
    fn do_on(&mut self, turns: DoTurns<'p>, left: u64, due: bool) -> Came
        requires { IsInnermost self.old (any_signal_work.DoBody turns left due) }
        ensures { Moves self.old (follows_of self.old (any_given.Signal NextSignal) self.old.state) result self.new }
    {
        if due {
            self.do_due(turns, left)
        } else {
            put_last(&mut self.pending, ForSignal::DoBody(turns, left, true));
            self.placed(turns.line, Hand::Give(Given::Signal(Signal::Next)))
        }
    }

    /// The moment of the test of a `do` has come.
    fn do_due(&mut self, turns: DoTurns<'p>, left: u64) -> Came
        requires { IsInnermost self.old (any_signal_work.DoBody turns left true) }
        ensures { Moves self.old (follows_of self.old (any_given.Signal NextSignal) self.old.state) result self.new }
    {
        match test_holds(self.whole(), turns.test, &mut self.state) {
            Ok(Some(held)) => self.do_decide(turns, left, held),
            Ok(None) => self.take(Given::Signal(Signal::Next)),
            Err(why) => halted(why),
        }
    }

    /// A turn of a `do` whose test is evaluated.
    fn do_decide(&mut self, turns: DoTurns<'p>, left: u64, held: bool) -> Came
        ensures { (below : List AnyWaiting)
            → self.old.pending.items ≡ waits_for below (any_signal_work.DoBody turns.entry left true)
            → Moves self.old (and_then (do_decided (setting_at self.old) turns.entry left held self.old.state)
            (to_signal (over self.old below))) result self.new }
    {
        if held {
            self.do_turn(turns, left)
        } else {
            drop(self.pending.pop());
            self.next()
        }
    }

    /// The next turn of a `do`, of which at most so many are left.
    fn do_turn(&mut self, turns: DoTurns<'p>, left: u64) -> Came
        ensures { (below : List AnyWaiting)
            → self.old.pending.items ≡ waits_for below (any_signal_work.DoBody turns.entry left true)
            → Moves self.old (and_then (do_turns_of (setting_at self.old) turns.entry left self.old.state)
            (to_signal (over self.old below))) result self.new }
    {
        if left == 0 {
            Came::Over(Outcome::Bound)
        } else {
            put_last(&mut self.pending, ForSignal::DoBody(turns, left - 1, false));
            self.put(Hand::Run(turns.body.as_ref()))
        }
    }

    /// The body of a turn of a `foreach` of so many entries is over, or the moment of the turn of the entry at a
    /// position has come.
    fn each_on(&mut self, turns: EachTurns<'p>, count: usize, at: usize, due: bool) -> Came
        requires { IsEachBody self.old turns count at due }
        ensures { Moves self.old (follows_of self.old (any_given.Signal NextSignal) self.old.state) result self.new }
    {
        if at >= count {
            drop(self.pending.pop());
            self.next()
        } else if due {
            self.entry(turns, at)
        } else {
            put_entry(&mut self.pending, at, true);
            self.placed(turns.line, Hand::Give(Given::Signal(Signal::Next)))
        }
    }

    /// The entry at a position is bound, and then its turn comes.
    fn entry(&mut self, turns: EachTurns<'p>, at: usize) -> Came
        requires { at < 2 ^ 64 - 1 }
        ensures { (below : List AnyWaiting) (subject : AnyValue) → at < length (entries subject)
            → self.old.pending.items ≡ waits_for below (any_signal_work.EachBody turns.entry subject at true)
            → Moves self.old (and_then (each_turn (setting_at self.old) turns.entry (drop at (entries subject))
            self.old.state) (to_signal (over self.old below))) result self.new }
    {
        match self.pending.last() {
            Some(Waiting::Part(Work::ForSignal(ForSignal::EachBody(_, subject, _, _)))) => {
                match bind_at(turns.binding, subject, at, &mut self.state) {
                    Ok(()) => {
                        put_entry(&mut self.pending, at + 1, false);
                        self.put(Hand::Run(turns.body.as_ref()))
                    }
                    Err(why) => halted(why),
                }
            }
            _ => self.take(Given::Signal(Signal::Next)),
        }
    }
}

/// The innermost item, where it waits for a signal, is this.
fn put_last<'p>(pending: &mut Vec<Waiting<'p>>, work: ForSignal<'p>)
    ensures { (below : List AnyWaiting) (before : AnySignalWork) → pending.old.items ≡ waits_for below before
        → pending.new.items ≡ waits_for below work.entry }
{
    match pending.last_mut() {
        Some(item) => put_item(item, Waiting::Part(Work::ForSignal(work))),
        None => drop(work),
    }
}

/// An item is this.
fn put_item<'p>(place: &mut Waiting<'p>, item: Waiting<'p>)
    ensures { place.new ≡ item.entry }
{
    drop(mem::replace(place, item));
}

/// The position of the next entry of a `foreach`, and whether its turn is due.
fn put_entry<'p>(pending: &mut Vec<Waiting<'p>>, at: usize, due: bool)
    ensures { (below : List AnyWaiting) (turns : AnyEachTurns) (subject : AnyValue) (n : ℕ) (b : Bool)
        → pending.old.items ≡ waits_for below (any_signal_work.EachBody turns subject n b)
        → pending.new.items ≡ waits_for below (any_signal_work.EachBody turns subject at due) }
{
    if let Some(item) = pending.last_mut() {
        entry_in(item, at, due);
    }
}

/// The numbers of an item of a `foreach` are these.
fn entry_in<'p>(item: &mut Waiting<'p>, at: usize, due: bool)
    ensures { (turns : AnyEachTurns) (subject : AnyValue) (n : ℕ) (b : Bool)
        → item.old ≡ waiting_for (any_signal_work.EachBody turns subject n b)
        → item.new ≡ waiting_for (any_signal_work.EachBody turns subject at due) }
{
    if let Waiting::Part(work) = item {
        if let Work::ForSignal(kind) = work {
            if let ForSignal::EachBody(_, _, here, _) = kind {
                *here = at;
            }
            if let ForSignal::EachBody(_, _, _, here) = kind {
                *here = due;
            }
        }
    }
}
