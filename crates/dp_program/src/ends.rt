//! The end of a program that was run.

ghost use Rattle.std.specs.Prelude.{◌≡◌, ◌<◌, ◌≤◌, IfOk, MatchResult};
ghost use Rattle.dp_meaning.specs.Trace.{outcome_of, plain};
ghost use Rattle.dp_outside.specs.Changes.{change};
ghost use Rattle.dp_program.specs.Runs.{judged};
ghost use Rattle.dp_program.specs.inner.Steps.{EndFailed, EndWritten, RunFailed, RunWrites};

use crate::errors::RunError;
use dp_bytes::Memory;
use dp_outside::Sink;
use dp_state::{Outcome, State};
use dp_step::{Machine, Steps};
use dp_tree::Bundle;
use std::alloc::Global;
use std::marker::Brand;
use std::sync::ledger::{Blank, Ledger};

/// What the end of a program comes to: a status, or why there is none. Takes no memory.
pub fn judge(outcome: Outcome) -> Result<u8, RunError>
    ensures { result ≡ judged outcome }
{
    match outcome {
        Outcome::Done => Ok(0),
        Outcome::Exit(status) => Ok(status),
        Outcome::Fatal { kind, file, line } => Err(RunError::Fatal { kind, file, line }),
        Outcome::Bound => Err(RunError::Bound),
    }
}

/// Puts what a program wrote, and answers what its end comes to.
fn put_end<K: Sink>(outcome: Outcome, output: &[u8], out: &mut K) -> Result<u8, RunError>
    ensures ends { MatchResult result
        (λ status. EndWritten status outcome output.now (change K.taken K.faults out.old out.new))
        (λ why. EndFailed why outcome output.now (change K.taken K.faults out.old out.new)) }
    ensures later { K.faults out.old ≤ K.faults out.new }
{
    match out.put(output) {
        Ok(()) => judge(outcome),
        Err(_) => Err(RunError::OutFault),
    }
}

/// Runs a program to its end, with a ledger for its steps.
fn run_to_end<L: Ledger>(
    alloc: Global,
    program: &Bundle,
    bound: u64,
    blank: Blank,
) -> Result<(Outcome, State), Memory>
    requires name { blank.name ≡ L.name }
    requires parts { blank.parts ≡ L.parts }
    requires some { 0 < blank.parts }
    ensures outcome { IfOk result (λ end. end.0 ≡ outcome_of (plain program.now bound).end) }
    ensures state { IfOk result (λ end. end.1 ≡ (plain program.now bound).state) }
{
    let mut steps = Steps::<L>::new(blank);
    let mut machine = Machine::start(alloc, program, bound)?;
    let ended = machine.run_out(&mut steps);
    let state = machine.into_state();
    match ended {
        Ok(outcome) => Ok((outcome, state)),
        Err(_) => {
            drop(state);
            Err(Memory)
        }
    }
}

/// Runs a program to its end, puts what it wrote, and answers what its end comes to.
pub(crate) fn run_program<K: Sink>(
    alloc: Global,
    program: &Bundle,
    bound: u64,
    out: &mut K,
) -> Result<u8, RunError>
    ensures ends { MatchResult result
        (λ status. RunWrites status program.now bound (change K.taken K.faults out.old out.new))
        (λ why. RunFailed why program.now bound (change K.taken K.faults out.old out.new)) }
    ensures later { K.faults out.old ≤ K.faults out.new }
{
    // Nobody asks for the steps.
    let blank = Blank::new(1);
    match run_to_end::<Brand>(alloc, program, bound, blank) {
        Ok((outcome, state)) => put_end(outcome, state.output.as_slice(), out),
        Err(_) => Err(RunError::Memory),
    }
}
