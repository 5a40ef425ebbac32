//! When a breakpoint hits, and when it stops.

ghost use Rattle.std.specs.Prelude.{◌≡◌, true, IfOk, OnErr};
ghost use Rattle.dp_break.specs.Hits as spec;
ghost use Rattle.dp_break.specs.Tables.{IsSound};

use crate::breakpoint::Breakpoint;
use crate::conditions::is_true;
use dp_bytes::{Bytes, Memory};
use dp_packet::{BreakKind, HitRule};
use dp_state::{Moment, MomentKind, State};
use dp_tree::Bundle;
use std::alloc::Global;

/// Whether breakpoints of this kind are on functions, and not on lines.
pub fn is_of_function(kind: BreakKind) -> bool
    ensures { result ≡ spec.is_of_function kind }
{
    match kind {
        BreakKind::Line => false,
        BreakKind::Call => true,
        BreakKind::Return => true,
        BreakKind::Conditional => false,
    }
}

/// Whether a breakpoint of this kind waits for moments of that kind.
fn awaits(kind: BreakKind, moment: MomentKind) -> bool
    ensures { result ≡ spec.awaits kind moment }
{
    match (kind, moment) {
        (BreakKind::Line, MomentKind::Place) => true,
        (BreakKind::Conditional, MomentKind::Place) => true,
        (BreakKind::Call, MomentKind::Enter) => true,
        (BreakKind::Return, MomentKind::Leave) => true,
        _ => false,
    }
}

/// Whether a number is the one that was given, if one was.
fn is_met_by(given: Option<u32>, number: u32) -> bool
    ensures { result ≡ spec.is_met_by given number }
{
    match given {
        Some(given) => given == number,
        None => true,
    }
}

/// Whether both names are there and are the same, in any case of letters.
fn is_named_by(given: &Option<Bytes>, name: &Option<Bytes>) -> bool
    ensures { result ≡ spec.is_named_by given.now name.now }
{
    match given {
        Some(given) => match name {
            Some(name) => given.as_slice().eq_ignore_ascii_case(name.as_slice()),
            None => false,
        },
        None => false,
    }
}

/// Whether the place of a breakpoint is that of the moment.
fn is_place_of(breakpoint: &Breakpoint, moment: &Moment) -> bool
    ensures { result ≡ spec.is_place_of breakpoint.now moment.now }
{
    if !awaits(breakpoint.kind, moment.kind) || !is_met_by(breakpoint.file, moment.file) {
        return false;
    }
    if is_of_function(breakpoint.kind) {
        is_named_by(&breakpoint.function, &moment.function)
    } else {
        is_met_by(breakpoint.line, moment.line)
    }
}

/// Whether a breakpoint hits at a moment in a state. Memory is taken only where that depends on its expression.
pub(crate) fn is_hit(
    alloc: Global,
    bundle: &Bundle,
    moment: &Moment,
    state: &State,
    breakpoint: &Breakpoint,
) -> Result<bool, Memory>
    requires { IsSound breakpoint.now }
    ensures hits { IfOk result (λ hit. hit ≡ spec.hits bundle.now (moment.now, state.now) breakpoint.now) }
    ensures memory { OnErr result (spec.depends_on_expression moment.now breakpoint.now ≡ true) }
{
    if !breakpoint.enabled || !is_place_of(breakpoint, moment) {
        return Ok(false);
    }
    match &breakpoint.parsed {
        Some(e) => is_true(alloc, bundle, state, e),
        None => Ok(true),
    }
}

/// Whether a count is enough to stop.
pub(crate) fn is_enough(rule: HitRule, value: u32, count: u64) -> bool
    ensures { result ≡ spec.is_enough_for rule value count }
{
    if value == 0 {
        return true;
    }
    match rule {
        HitRule::AtLeast => count >= value as u64,
        HitRule::Exactly => count == value as u64,
        HitRule::Multiple => count % value as u64 == 0,
    }
}
