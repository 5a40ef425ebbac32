//! What a part that waits does with what it is given.

ghost use Rattle.dp_actions.specs.Setting.{Setting};
ghost use Rattle.dp_state.specs.declared.state.State.{State as AnyState};
ghost use Rattle.std.specs.Prelude.{◌≡◌, None};
ghost use Rattle.dp_small_steps.specs.Leads.{Goes, Leads};
ghost use Rattle.dp_small_steps.specs.Parts.{Follows};
ghost use Rattle.dp_small_steps.specs.Rest.{next_rest, small_rest, work_rest};
ghost use Rattle.dp_small_steps.specs.declared.work.Hand.TheVariants as any_hand;
ghost use Rattle.dp_small_steps.specs.declared.work.Work.TheVariants as any_work;

use crate::after::{receive_after, receive_after_values};
use crate::calls::include;
use crate::hands::moved;
use crate::loops::receive_signal;
use crate::next::{alone, unplaced};
use crate::parts::{receive_part, receive_value, receive_values};
use crate::work::{
    AfterValue, AfterValues, ForPart, ForSignal, ForValue, ForValues, Given, Hand, Next, Small,
    Work,
};
use dp_actions::Halt;
use dp_state::State;
use dp_tree::{Bundle, Inclusion};
use std::alloc::Global;

/// Something is given to a part that waits. What is not what it waits for is given to what waits behind it.
///
/// An error is the end of the program, or out of memory.
pub fn receive<'p>(
    alloc: Global,
    bundle: &'p Bundle,
    work: Work<'p>,
    given: Given,
    state: &mut State,
) -> Result<Small<'p>, Halt>
    ensures { (setting : Setting) → setting.bundle ≡ bundle.now
        → Goes setting (λ k. work_rest setting work.entry k given state.old) result state.new }
{
    match work {
        Work::ForPart(work) => moved(to_part(alloc, work, given, state)),
        Work::ForValue(work) => moved(to_value(alloc, work, given, state)),
        Work::ForValues(work) => moved(to_values(alloc, work, given, state)),
        Work::Include(how) => moved(to_include(alloc, bundle, how, given, state)),
        Work::AfterValue(work) => moved(to_after(alloc, work, given, state)),
        Work::AfterValues(work) => moved(to_after_values(alloc, work, given, state)),
        Work::ForSignal(work) => Ok(to_signal(alloc, work, given)),
    }
}

/// What was given is given to what waits behind.
fn passed_on<'p>(given: Given) -> Next<'p>
    ensures { result ≡ record { hand = any_hand.Give given; waits = None } }
{
    alone(Hand::Give(given))
}

/// Something is given to a list of parts.
fn to_part<'p>(
    alloc: Global,
    work: ForPart<'p>,
    given: Given,
    state: &State,
) -> Result<Next<'p>, Halt>
    ensures { (setting : Setting)
        → Leads (next_rest setting) (λ k. work_rest setting (any_work.ForPart work.entry) k given state.now) result
        state.now }
{
    match given {
        Given::Value(value) => receive_part(alloc, work, value, state),
        other => {
            drop(work);
            Ok(passed_on(other))
        }
    }
}

/// Something is given to an expression that waits for a value.
fn to_value<'p>(
    alloc: Global,
    work: ForValue<'p>,
    given: Given,
    state: &mut State,
) -> Result<Next<'p>, Halt>
    ensures { (setting : Setting)
        → Leads (next_rest setting) (λ k. work_rest setting (any_work.ForValue work.entry) k given state.old) result
        state.new }
{
    match given {
        Given::Value(value) => receive_value(alloc, work, value, state),
        other => {
            drop(work);
            Ok(passed_on(other))
        }
    }
}

/// Something is given to an expression that waits for values.
fn to_values<'p>(
    alloc: Global,
    work: ForValues<'p>,
    given: Given,
    state: &mut State,
) -> Result<Next<'p>, Halt>
    ensures { (setting : Setting)
        → Leads (next_rest setting) (λ k. work_rest setting (any_work.ForValues work.entry) k given state.old) result
        state.new }
{
    match given {
        Given::Values(values) => receive_values(alloc, work, values, state),
        other => {
            drop(work);
            Ok(passed_on(other))
        }
    }
}

/// Something is given to an inclusion.
fn to_include<'p>(
    alloc: Global,
    bundle: &'p Bundle,
    how: Inclusion,
    given: Given,
    state: &State,
) -> Result<Next<'p>, Halt>
    ensures { (setting : Setting) → setting.bundle ≡ bundle.now
        → Leads (next_rest setting) (λ k. work_rest setting (any_work.Include how) k given state.now) result
        state.now }
{
    match given {
        Given::Value(value) => include(alloc, bundle, how, value, state),
        other => Ok(passed_on(other)),
    }
}

/// Something is given to a statement.
fn to_after<'p>(
    alloc: Global,
    work: AfterValue<'p>,
    given: Given,
    state: &mut State,
) -> Result<Next<'p>, Halt>
    ensures { (setting : Setting)
        → Leads (next_rest setting) (λ k. work_rest setting (any_work.AfterValue work.entry) k given state.old) result
        state.new }
{
    match given {
        Given::Value(value) => receive_after(alloc, work, value, state),
        other => {
            drop(work);
            Ok(passed_on(other))
        }
    }
}

/// Something is given to a statement or a call that waits for values.
fn to_after_values<'p>(
    alloc: Global,
    work: AfterValues<'p>,
    given: Given,
    state: &mut State,
) -> Result<Next<'p>, Halt>
    ensures { (setting : Setting)
        → Leads (next_rest setting) (λ k. work_rest setting (any_work.AfterValues work.entry) k given state.old) result
        state.new }
{
    match given {
        Given::Values(values) => receive_after_values(alloc, work, values, state),
        other => {
            drop(work);
            Ok(passed_on(other))
        }
    }
}

/// Something is given to a part that waits for a signal.
fn to_signal<'p>(alloc: Global, work: ForSignal<'p>, given: Given) -> Small<'p>
    ensures { (setting : Setting) (k : Follows) (s : AnyState)
        → small_rest setting result k s ≡ work_rest setting (any_work.ForSignal work.entry) k given s }
{
    match given {
        Given::Signal(given) => receive_signal(alloc, work, given),
        other => {
            drop(work);
            unplaced(passed_on(other))
        }
    }
}
