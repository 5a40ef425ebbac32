//! What is done next, by the outcome of what was done.

ghost use Rattle.std.specs.Prelude.{◌≡◌, None, Some, drop as members_from, map};
ghost use Rattle.dp_state.specs.declared.moments.MomentKind.TheVariants as any_moment;
ghost use Rattle.dp_state.specs.declared.state.State.{State as AnyState};
ghost use Rattle.dp_value.specs.declared.value.Value.{Value as AnyValue};
ghost use Rattle.dp_actions.specs.AtOnce.{AtOnce};
ghost use Rattle.dp_actions.specs.Expressions.{evaluations, expression_run, indices_run, items_run, links_run};
ghost use Rattle.dp_actions.specs.Expressions.{item_run_of, link_run};
ghost use Rattle.dp_actions.specs.InPlace.{entries_by};
ghost use Rattle.dp_actions.specs.Run.{Run, and_then};
ghost use Rattle.dp_actions.specs.Setting.{Setting};
ghost use Rattle.dp_small_steps.specs.Leads.{Leads};
ghost use Rattle.dp_small_steps.specs.Parts.{Follows, to_value, to_values};
ghost use Rattle.dp_small_steps.specs.Rest.{next_rest, work_rest};
ghost use Rattle.dp_small_steps.specs.declared.work.Given.TheVariants as any_given;
ghost use Rattle.dp_small_steps.specs.declared.work.Hand.TheVariants as any_hand;
ghost use Rattle.dp_small_steps.specs.declared.work.Work.TheVariants as any_work;

use crate::work::{AfterValue, Given, Hand, Next, Small, Work};
use dp_actions::{Halt, Reading, Signal};
use dp_bytes::Items;
use dp_state::MomentKind;
use dp_tree::{Expression, Item, Link};
use dp_value::Value;
use std::alloc::Global;

/// A moment before a statement on this line, and what is done behind it.
pub(crate) fn placed<'p>(line: u32, next: Next<'p>) -> Small<'p>
    ensures { result ≡ record { moment = Some (any_moment.Place, line); next = next.entry } }
{
    Small {
        moment: Some((MomentKind::Place, line)),
        next,
    }
}

/// What is done without a moment.
pub(crate) fn unplaced<'p>(next: Next<'p>) -> Small<'p>
    ensures { result ≡ record { moment = None; next = next.entry } }
{
    Small { moment: None, next }
}

/// What nothing waits for.
pub(crate) fn alone<'p>(hand: Hand<'p>) -> Next<'p>
    ensures { result ≡ record { hand = hand.entry; waits = None } }
{
    Next { hand, waits: None }
}

/// The value of an expression, and what waits for it.
pub(crate) fn evaluated<'p>(e: &'p Expression, after: AfterValue<'p>) -> Next<'p>
    ensures { result ≡ record {
      hand = any_hand.Evaluate e.entry;
      waits = Some (any_work.AfterValue after.entry);
    } }
{
    Next {
        hand: Hand::Evaluate(e),
        waits: Some(Work::AfterValue(after)),
    }
}

/// A value is given.
pub(crate) fn give<'p>(value: Value) -> Next<'p>
    ensures { result ≡ record { hand = any_hand.Give (any_given.Value value); waits = None } }
{
    alone(Hand::Give(Given::Value(value)))
}

/// A signal is given.
pub(crate) fn signal<'p>(signal: Signal) -> Next<'p>
    ensures { result ≡ record { hand = any_hand.Give (any_given.Signal signal); waits = None } }
{
    alone(Hand::Give(Given::Signal(signal)))
}

/// A value that was made is given.
pub(crate) fn given<'p>(made: Result<Value, Halt>) -> Result<Next<'p>, Halt>
    ensures { (setting : Setting) (run : Run AnyValue) (t : AnyState) → AtOnce run made t
        → Leads (next_rest setting) (λ k. and_then run (to_value k)) result t }
{
    match made {
        Ok(value) => Ok(give(value)),
        Err(why) => Err(why),
    }
}

/// To a value that was made more is joined.
pub(crate) fn linked<'p>(
    made: Result<Value, Halt>,
    links: &'p Items<Link>,
    at: usize,
) -> Result<Next<'p>, Halt>
    ensures { (setting : Setting) (run : Run AnyValue) (t : AnyState) → AtOnce run made t
        → Leads (next_rest setting) (λ k. and_then run (λ v u. and_then (links_run
        (map link_run (members_from at links.now)) v setting u) (to_value k))) result t }
{
    match made {
        Ok(value) => Ok(alone(Hand::Links(value, links, at))),
        Err(why) => Err(why),
    }
}

/// A literal that was made has more items.
pub(crate) fn lengthened<'p>(
    made: Result<Value, Halt>,
    items: &'p Items<Item>,
    at: usize,
) -> Result<Next<'p>, Halt>
    ensures { (setting : Setting) (run : Run AnyValue) (t : AnyState) → AtOnce run made t
        → Leads (next_rest setting) (λ k. and_then run (λ v u. and_then (items_run
        (map item_run_of (members_from at items.now)) v setting u) (to_value k))) result t }
{
    match made {
        Ok(value) => Ok(alone(Hand::Items(value, items, at))),
        Err(why) => Err(why),
    }
}

/// A value that was found is read under more indices.
pub(crate) fn read_under<'p>(
    found: Result<Value, Halt>,
    how: Reading,
    indices: &'p Items<Expression>,
    at: usize,
) -> Result<Next<'p>, Halt>
    ensures { (setting : Setting) (run : Run AnyValue) (t : AnyState) → AtOnce run found t
        → Leads (next_rest setting) (λ k. and_then run (λ v u. and_then (indices_run (entries_by how)
        (map expression_run (members_from at indices.now)) v setting u) (to_value k))) result t }
{
    match found {
        Ok(value) => Ok(alone(Hand::Under(how, value, indices, at))),
        Err(why) => Err(why),
    }
}

/// The values of expressions, and what waits for them.
pub(crate) fn values_first<'p>(
    alloc: Global,
    all: &'p Items<Expression>,
    work: Work<'p>,
) -> Next<'p>
    ensures { (setting : Setting) (k : Follows) (s : AnyState)
        → next_rest setting result k s ≡ and_then (evaluations all.now setting s)
        (to_values (work_rest setting work.entry k)) }
{
    Next {
        hand: Hand::Values(Items::of(Vec::new(alloc)), all, 0),
        waits: Some(work),
    }
}
