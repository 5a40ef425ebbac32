//! What a moment does to breakpoints.

ghost use Rattle.std.specs.Prelude.{◌≡◌, ◌+◌, ◌<◌, ◌≤◌, true, ◌&&◌, length, map, take, drop, ◌++◌, slice_index_or, All};
ghost use Rattle.std.specs.Prelude.{IfOk, OnErr, OnOk};
ghost use Rattle.std.specs.List.{list_any};
ghost use Rattle.dp_break.specs.Hits.{depends_on_expression, hits};
ghost use Rattle.dp_break.specs.inner.Marks.{one_settled, settled, settled_one, some_settled_stops, stops_once_more};
ghost use Rattle.dp_break.specs.Tables.{IsSound};

use crate::breakpoint::Breakpoint;
use crate::hits::{is_enough, is_hit};
use dp_bytes::Memory;
use dp_state::{Moment, State};
use dp_tree::Bundle;
use std::alloc::Global;

/// Whether one of the breakpoints hits at a moment in a state. Memory is taken only where one of them asks its
/// expression.
pub(crate) fn any_hits(
    alloc: Global,
    bundle: &Bundle,
    moment: &Moment,
    state: &State,
    held: &[Breakpoint],
) -> Result<bool, Memory>
    requires { All IsSound held.now }
    ensures hit { IfOk result (λ hit. hit ≡ list_any (hits bundle.now (moment.now, state.now)) held.now) }
    ensures memory { OnErr result (list_any (depends_on_expression moment.now) held.now ≡ true) }
{
    for at in 0..held.len() {
        if is_hit(alloc, bundle, moment, state, &held[at])? {
            return Ok(true);
        }
    }
    Ok(false)
}

/// Marks the places of the breakpoints that hit at a moment in a state. Memory is taken only where one of them asks its
/// expression.
pub(crate) fn mark(
    alloc: Global,
    bundle: &Bundle,
    moment: &Moment,
    state: &State,
    held: &[Breakpoint],
    marks: &mut Vec<bool>,
) -> Result<(), Memory>
    requires room { length held.now ≤ length marks.old.items }
    requires sound { All IsSound held.now }
    ensures marked { OnOk result
        (take (length held.now) marks.new.items ≡ map (hits bundle.now (moment.now, state.now)) held.now) }
    ensures kept { length marks.new.items ≡ length marks.old.items }
    ensures memory { OnErr result (list_any (depends_on_expression moment.now) held.now ≡ true) }
{
    for at in 0..held.len() {
        marks[at] = is_hit(alloc, bundle, moment, state, &held[at])?;
    }
    Ok(())
}

/// Lets go of a breakpoint.
fn discard(_breakpoint: Breakpoint) {}

/// Counts a hit of the breakpoint at this place. One that is temporary goes where it stops.
fn hit(held: &mut Vec<Breakpoint>, at: usize) -> bool
    requires { at < length held.old.items }
    ensures stops { (d : Breakpoint) → result ≡ stops_once_more (slice_index_or held.old.items at d) }
    ensures left { (d : Breakpoint) → held.new.items ≡
        take at held.old.items ++ one_settled (slice_index_or held.old.items at d) ++ drop (at + 1) held.old.items }
{
    let breakpoint = &mut held[at];
    breakpoint.hits = breakpoint.hits.saturating_add(1);
    if !is_enough(breakpoint.hit_rule, breakpoint.hit_value, breakpoint.hits) {
        return false;
    }
    if !breakpoint.temporary {
        return true;
    }
    discard(held.remove(at));
    true
}

/// The same where the place has a mark; without one nothing happens.
fn settle_at(held: &mut Vec<Breakpoint>, at: usize, mark: bool) -> bool
    requires { at < length held.old.items }
    ensures stops { (d : Breakpoint) → result ≡ (mark && stops_once_more (slice_index_or held.old.items at d)) }
    ensures left { (d : Breakpoint) → held.new.items ≡
        take at held.old.items ++ settled_one mark (slice_index_or held.old.items at d)
        ++ drop (at + 1) held.old.items }
{
    if mark { hit(held, at) } else { false }
}

/// Counts the hits that are marked, takes out the temporary breakpoints that stop, and says whether one stops. Takes no
/// memory.
pub(crate) fn settle(held: &mut Vec<Breakpoint>, marks: &[bool]) -> bool
    requires { length held.old.items ≤ length marks.now }
    ensures stops { result ≡ some_settled_stops marks.now held.old.items }
    ensures left { held.new.items ≡ settled marks.now held.old.items }
{
    let mut stopped = false;
    let mut at = held.len();
    'places: while at > 0 {
        at -= 1;
        if settle_at(held, at, marks[at]) {
            stopped = true;
        }
    }
    stopped
}
