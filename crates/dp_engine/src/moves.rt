//! A machine goes on to the first stop or to the end, and counts hits and steps.

ghost use Rattle.std.specs.Prelude.{◌≡◌, ◌∷◌, ◌||◌, ℕ, List, [], true, false, IfOk, OnOk};
ghost use Rattle.std.specs.List.{list_any};
ghost use Rattle.dp_break.specs.StopRule.{held_after, one_stops};
ghost use Rattle.dp_engine.specs.NextStop.{GoesOnTo, PassesOne};
ghost use Rattle.dp_engine.specs.Stops.{stops};
ghost use Rattle.dp_meaning.specs.declared.writes.NumberedWrite.{NumberedWrite as AnyWrite};
ghost use Rattle.dp_state.specs.declared.moments.Moment.{Moment as AnyMoment};
ghost use Rattle.dp_step.specs.Stands.{StandsFor};

use crate::past::{MOST_LINES, due_by, go_on, lines_of, look};
use crate::reached::{Passed, Reached};
use crate::stops::is_stop;
use dp_break::{Breakpoint, Breaks};
use dp_bytes::Memory;
use dp_command::Continuation;
use dp_state::{Moment, State};
use dp_step::{Machine, Progress, Steps};
use dp_tree::Bundle;
use std::sync::ledger::Ledger;

/// Counts the hits of a moment, and says whether the program stops at it.
fn pass(
    bundle: &Bundle,
    mode: Continuation,
    depth: u32,
    moment: &Moment,
    program: &State,
    breaks: &mut Breaks,
) -> Result<bool, Memory>
    ensures stop { IfOk result (λ stop. stop ≡ (stops mode depth moment.now
        || one_stops bundle.now breaks.old.held [] (moment.now, program.now))) }
    ensures breaks { OnOk result (breaks.new ≡ record breaks.old {
      held = held_after bundle.now ((moment.now, program.now) ∷ []) breaks.old.held;
    }) }
{
    let stop = breaks.pass(bundle, moment, program)?;
    Ok(is_stop(mode, depth, moment) || stop)
}

/// Passes one moment: where a machine comes to that goes on from the moment at which it stands to the very next one, or
/// to the end. The breakpoints have the hits of that moment then, and it counts one step, none for the end. A command
/// that went on from this depth, or a breakpoint, may stop there.
///
/// Once memory ran out nothing is said of the machine and of the breakpoints.
pub fn pass_one<L: Ledger>(
    machine: &mut Machine,
    bundle: &Bundle,
    depth: u32,
    mode: Continuation,
    breaks: &mut Breaks,
    steps: &mut Steps<L>,
) -> Result<Passed, Memory>
    ensures { (bound : ℕ) (writes : List AnyWrite) (n : ℕ) → StandsFor bundle.now bound writes n machine.old
        → IfOk result (λ passed. PassesOne (stops mode depth) bundle.now bound writes breaks.old breaks.new n passed
        machine.new steps.old steps.new) }
{
    let progress = machine.step(steps)?;
    match progress {
        Progress::At(moment) => {
            let stops = pass(bundle, mode, depth, &moment, machine.state(), breaks)?;
            let reached = Reached::Moment {
                number: moment.number,
                depth: moment.depth,
            };
            Ok(Passed { reached, stops })
        }
        Progress::Ended(outcome) => Ok(Passed {
            reached: Reached::End(outcome),
            stops: false,
        }),
    }
}

/// Where a machine comes to that goes on from the moment at which it stands, where it is this deep, and what is held of
/// the breakpoints then: the first moment past it at which the command or a breakpoint stops, or the end. The hits are
/// those of the moments up to there, each of which is passed once and takes one step. If none is enabled and the
/// command is `run`, it goes as fast as a program that nothing stops.
///
/// Once memory ran out nothing is said of the machine and of the breakpoints.
pub fn go_on_from<L: Ledger>(
    machine: &mut Machine,
    bundle: &Bundle,
    depth: u32,
    mode: Continuation,
    breaks: &mut Breaks,
    steps: &mut Steps<L>,
) -> Result<Reached, Memory>
    ensures { (bound : ℕ) (writes : List AnyWrite) (n : ℕ) → StandsFor bundle.now bound writes n machine.old
        → IfOk result (λ reached. GoesOnTo (stops mode depth) bundle.now bound writes breaks.old breaks.new n reached
        machine.new steps.old steps.new) }
{
    if is_free(mode, breaks) {
        let outcome = machine.run_out(steps)?;
        Ok(Reached::End(outcome))
    } else {
        go_on_watched(machine, bundle, depth, mode, breaks, steps)
    }
}

/// The same, one moment after another.
fn go_on_watched<L: Ledger>(
    machine: &mut Machine,
    bundle: &Bundle,
    depth: u32,
    mode: Continuation,
    breaks: &mut Breaks,
    steps: &mut Steps<L>,
) -> Result<Reached, Memory>
    ensures { (bound : ℕ) (writes : List AnyWrite) (n : ℕ) → StandsFor bundle.now bound writes n machine.old
        → IfOk result (λ reached. GoesOnTo (stops mode depth) bundle.now bound writes breaks.old breaks.new n reached
        machine.new steps.old steps.new) }
{
    let mut all = [0; MOST_LINES];
    let count = lines_of(breaks.list(), &mut all);
    let lines = &all[..count];
    let due = due_by(mode, bundle, lines, breaks.list());
    let mut loud = None;
    for passed in 0..u64::MAX {
        look(machine, lines, passed == due, &mut loud)?;
        match go_on(machine, mode, breaks, lines, &loud, steps)? {
            Progress::At(moment) => {
                if pass(bundle, mode, depth, &moment, machine.state(), breaks)? {
                    return Ok(Reached::Moment {
                        number: moment.number,
                        depth: moment.depth,
                    });
                }
            }
            Progress::Ended(outcome) => return Ok(Reached::End(outcome)),
        }
    }
    // No run has so many moments.
    Err(Memory)
}

/// Whether neither the command nor a breakpoint stops at any moment.
fn is_free(mode: Continuation, breaks: &Breaks) -> bool
    ensures none { result ≡ true → list_any (λ b. b.enabled) breaks.now.held ≡ false }
    ensures mode { result ≡ true → (depth : ℕ) (moment : AnyMoment) → stops mode depth moment ≡ false }
{
    match mode {
        Continuation::Run => none_is_enabled(breaks.list()),
        Continuation::StepInto => false,
        Continuation::StepOver => false,
        Continuation::StepOut => false,
    }
}

/// Whether each of these breakpoints is disabled.
fn none_is_enabled(held: &[Breakpoint]) -> bool
    ensures { result ≡ true → list_any (λ b. b.enabled) held.now ≡ false }
{
    for breakpoint in held {
        if breakpoint.enabled {
            return false;
        }
    }
    true
}
