//! Runs of programs up to a moment.

ghost use Rattle.std.specs.Prelude.{◌≡◌, ◌<◌, length, IfOk};
ghost use Rattle.dp_state.specs.States.{IsOf};
ghost use Rattle.dp_meaning.specs.inner.Drive.{IsStopAt, drive, halt_after, stopped};
ghost use Rattle.dp_meaning.specs.Programs.{program_run};
ghost use Rattle.dp_meaning.specs.Stops.{state_of};
ghost use Rattle.dp_meaning.specs.Trace.{IsStop, program_trace};
ghost use Rattle.dp_meaning.specs.Writes.{writes_of};

use crate::applied_writes::Written;
use crate::evaluator::Evaluator;
use crate::outside::Outside;
use crate::stop::Stop;
use crate::writes::NumberedWrite;
use dp_actions::{Halt, Signal, statements_of};
use dp_bytes::Memory;
use dp_state::{FRAME_LIMIT, Outcome, State};
use dp_tree::Bundle;
use std::alloc::Global;

/// Runs a program, at whose moments these writes are made, up to the moment of a number and its writes, or to its end
/// where there is none. Moments count from 1, so 0 runs to the end. A run has at most `bound` moments.
pub fn run_to(
    alloc: Global,
    bundle: &Bundle,
    writes: &[NumberedWrite],
    number: u64,
    bound: u64,
) -> Result<Stop, Memory>
    ensures stop { IfOk result (λ stop. IsStop (program_trace bundle.now bound writes.now)
        (writes_of bundle.now writes.now) number stop) }
    ensures of { 0 < length bundle.now.files → IfOk result (λ stop. IsOf bundle.now (state_of stop)) }
{
    let outside = Written {
        bundle,
        writes,
        stop: number,
        bound,
        alloc,
    };
    run(alloc, bundle, &outside, bound)
}

/// Runs a program up to where the outside stops it, or to its end.
fn run<O: Outside>(alloc: Global, bundle: &Bundle, outside: &O, bound: u64) -> Result<Stop, Memory>
    ensures { IfOk result (λ stop. stop ≡ stopped (drive (O.rules outside.now) (program_run bundle.now bound))) }
{
    let mut state = State::opening(alloc, bundle)?;
    let evaluator = Evaluator {
        bundle,
        outside,
        alloc,
        bound,
        depth: FRAME_LIMIT as u64,
    };
    let halt = halt_of(evaluator.body(statements_of(bundle, 0), &mut state));
    stop_at(halt, state)
}

/// Why a program that was run is no more on its way.
fn halt_of(body: Result<Signal, Halt>) -> Halt
    ensures { result ≡ halt_after body }
{
    match body {
        Ok(signal) => {
            drop(signal);
            Halt::Finished(Outcome::Done)
        }
        Err(halt) => halt,
    }
}

/// Where it stopped.
fn stop_at(halt: Halt, state: State) -> Result<Stop, Memory>
    ensures { IfOk result (IsStopAt halt state) }
{
    match halt {
        Halt::Finished(outcome) => Ok(Stop::Ended(outcome, state)),
        Halt::Stopped(moment) => Ok(Stop::At(moment.into_inner(), state)),
        Halt::Memory => {
            drop(state);
            Err(Memory)
        }
    }
}
