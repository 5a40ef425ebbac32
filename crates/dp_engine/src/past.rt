//! The moments at which nobody looks: neither the command nor a breakpoint can stop there.

ghost use Rattle.std.specs.Prelude.{◌≡◌, ◌≤◌, ◌+◌, ℕ, List, IfOk, OnOk, false, true};
ghost use Rattle.dp_engine.specs.Stops.{stops};
ghost use Rattle.dp_engine.specs.inner.Unseen.{GoesUnseen, are_covered, is_covered};
ghost use Rattle.dp_meaning.specs.declared.writes.NumberedWrite.{NumberedWrite as AnyWrite};
ghost use Rattle.dp_analysis.specs.Quiet.{AreLoud, is_free as is_free_of};
ghost use Rattle.dp_state.specs.declared.moments.Moment.{Moment as AnyMoment};
ghost use Rattle.dp_step.specs.Stands.{GoesOn, StandsFor, steps_of};
ghost use Rattle.dp_tree.specs.declared.bundle.Bundle.{Bundle as SomeBundle};

use dp_analysis::DeepNames;
use dp_break::{Breakpoint, Breaks, is_of_function};
use dp_bytes::Memory;
use dp_command::Continuation;
use dp_step::{Machine, Progress, Steps};
use dp_tree::Bundle;
use std::sync::ledger::Ledger;

/// At most so many breakpoints on lines are looked for in statements.
pub(crate) const MOST_LINES: usize = 16;

/// Where a program has at most so many bytes, calls are looked at before a command passes its first moment.
const SHORT_PROGRAM: u64 = 4096;

/// To look at so many bytes of a program takes no longer than one moment that is passed by itself.
const BYTES_A_MOMENT: u64 = 64;

/// A machine goes on to the next moment, or to the end. Where only breakpoints stop it, moments before a statement, a
/// test or a binding may be passed that are on no line of an enabled breakpoint, and so may calls, where it is known
/// which may not.
pub(crate) fn go_on<'p, L: Ledger>(
    machine: &mut Machine<'p>,
    mode: Continuation,
    breaks: &Breaks,
    lines: &[u32],
    loud: &Option<DeepNames<'p>>,
    steps: &mut Steps<L>,
) -> Result<Progress, Memory>
    ensures { (depth : ℕ) (bundle : SomeBundle) (bound : ℕ) (writes : List AnyWrite) (n : ℕ)
        → StandsFor bundle bound writes n machine.old → AreLoud lines.now bundle loud.now
        → IfOk result (λ progress. GoesUnseen (stops mode depth) bundle bound writes breaks.now.held n progress
        machine.new steps.old steps.new) }
{
    if are_seen(mode, lines, loud.is_some(), breaks.list()) {
        machine.go_past(lines, loud.as_ref(), steps)
    } else {
        step_on(machine, steps)
    }
}

/// Looks for the functions whose calls may not be passed, if it is time.
pub(crate) fn look<'p>(
    machine: &Machine<'p>,
    lines: &[u32],
    is_due: bool,
    loud: &mut Option<DeepNames<'p>>,
) -> Result<(), Memory>
    ensures { AreLoud lines.now machine.now.bundle.now loud.old
        → OnOk result (AreLoud lines.now machine.now.bundle.now loud.new) }
{
    if is_due {
        *loud = Some(machine.loud_names(lines)?);
    }
    Ok(())
}

/// How many moments a command passes one by one before calls are looked at: none in a short program, and else so many
/// that the look costs no more than they did. Never where the command, or a breakpoint on a function or on none of
/// these lines, has each moment looked at.
pub(crate) fn due_by(
    mode: Continuation,
    bundle: &Bundle,
    lines: &[u32],
    held: &[Breakpoint],
) -> u64 {
    if !are_seen(mode, lines, true, held) {
        return u64::MAX;
    }
    let mut bytes: u64 = 0;
    for file in bundle.files.as_slice() {
        bytes = bytes.saturating_add(file.text.as_slice().len() as u64);
    }
    if bytes <= SHORT_PROGRAM {
        0
    } else {
        bytes / BYTES_A_MOMENT
    }
}

/// To the next moment, or to the end.
fn step_on<L: Ledger>(machine: &mut Machine, steps: &mut Steps<L>) -> Result<Progress, Memory>
    ensures { (bundle : SomeBundle) (bound : ℕ) (writes : List AnyWrite) (n : ℕ)
        → StandsFor bundle bound writes n machine.old
        → IfOk result (λ progress. GoesOn bundle bound writes n progress machine.new
        × (steps.new ≡ steps.old + steps_of progress)) }
{
    let progress = machine.step(steps)?;
    Ok(progress)
}

/// Whether only a breakpoint stops, and each that is enabled is on one of these lines, or on a function where calls are
/// not passed.
fn are_seen(mode: Continuation, lines: &[u32], calls: bool, held: &[Breakpoint]) -> bool
    ensures mode { result ≡ true → (depth : ℕ) (moment : AnyMoment) → stops mode depth moment ≡ false }
    ensures covered { result ≡ true → are_covered lines.now calls held.now ≡ true }
{
    match mode {
        Continuation::Run => all_covered(lines, calls, held),
        Continuation::StepInto => false,
        Continuation::StepOver => false,
        Continuation::StepOut => false,
    }
}

/// The lines of the enabled breakpoints that are on lines, as far as there is room.
pub(crate) fn lines_of(held: &[Breakpoint], lines: &mut [u32; MOST_LINES]) -> usize
    ensures { result ≤ 16 }
{
    let mut count = 0;
    for breakpoint in held {
        if breakpoint.enabled && !is_of_function(breakpoint.kind) {
            if let Some(line) = breakpoint.line {
                if count < MOST_LINES {
                    lines[count] = line;
                    count += 1;
                }
            }
        }
    }
    count
}

/// Whether each of these breakpoints is disabled, on a function where calls are not passed, or on one of these lines.
fn all_covered(lines: &[u32], calls: bool, held: &[Breakpoint]) -> bool
    ensures { result ≡ are_covered lines.now calls held.now }
{
    for breakpoint in held {
        if !covers(lines, calls, breakpoint) {
            return false;
        }
    }
    true
}

/// Whether a breakpoint is disabled, on a function where calls are not passed, or on one of these lines.
fn covers(lines: &[u32], calls: bool, breakpoint: &Breakpoint) -> bool
    ensures { result ≡ is_covered lines.now calls breakpoint.now }
{
    if !breakpoint.enabled {
        return true;
    }
    if is_of_function(breakpoint.kind) {
        return !calls;
    }
    match breakpoint.line {
        Some(line) => !is_free(lines, line),
        None => false,
    }
}

/// Whether a line is none of these.
fn is_free(lines: &[u32], line: u32) -> bool
    ensures { result ≡ is_free_of lines.now line }
{
    for other in lines {
        if *other == line {
            return false;
        }
    }
    true
}
