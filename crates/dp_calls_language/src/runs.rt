//! Calls of the crates of runs.
ghost use Rattle.std.specs.Prelude.{◌≡◌, ◌<◌};

use dp_actions::{Halt, observe};
use dp_bytes::{Bytes, Memory};
use dp_meaning::{Stop, run_to};
use dp_parse::parse_expression;
use dp_state::{Fault, State};
use dp_step::{Machine, Steps};
use dp_tree::{Bundle, is_pure};
use dp_value::Value;
use std::alloc::Global;
use std::sync::ledger::{Blank, Ledger};

/// The integer that a value is.
fn int_of(value: Option<&Value>) -> i64 {
    match value {
        Some(Value::Int(int)) => *int,
        _ => 0,
    }
}

/// A state is changed without a run.
pub(crate) fn dp_state(alloc: Global, bundle: &Bundle) -> Result<String, Fault> {
    let name = Bytes::from_slice(alloc, b"x")?;
    // call
    let mut state = State::opening(alloc, bundle)?;
    state.assign(0, &name, &[], false, Value::Int(7))?;
    let held = state.read(&name);
    // end
    let held = int_of(held);
    let answer = format!(in alloc; "{held}")?;
    Ok(answer)
}

/// An expression that changes nothing is evaluated in a state.
pub(crate) fn dp_actions(alloc: Global, bundle: &Bundle) -> Result<String, Halt> {
    let state = State::opening(alloc, bundle)?;
    let Ok(product) = parse_expression(alloc, b"6 * 7") else {
        return Ok(String::new(alloc));
    };
    let mut found = 0;
    // call
    if is_pure(&product) {
        let value = observe(alloc, &state, &product)?;
        found = int_of(Some(&value));
    }
    // end
    let answer = format!(in alloc; "{found}")?;
    Ok(answer)
}

/// A run stops at a moment.
pub(crate) fn dp_meaning(alloc: Global, bundle: &Bundle) -> Result<String, Memory> {
    // call: the second moment, of a run of at most 1000
    let stop = run_to(alloc, bundle, &[], 2, 1000)?;
    // end
    match stop {
        Stop::At(moment, _) => {
            let line = moment.line;
            format!(in alloc; "line {line}")
        }
        Stop::Ended(_, _) => format!(in alloc; "ended"),
    }
}

/// A machine goes on moment by moment.
pub(crate) fn dp_step<L: Ledger>(
    alloc: Global,
    bundle: &Bundle,
    blank: Blank,
) -> Result<String, Memory>
    requires name { blank.name ≡ L.name }
    requires parts { blank.parts ≡ L.parts }
    requires some { 0 < blank.parts }
{
    // call: `blank` is a blank of the ledger `L`
    let mut steps = Steps::<L>::new(blank);
    let mut machine = Machine::start(alloc, bundle, 1000)?;
    machine.step(&mut steps)?;
    machine.run_out(&mut steps)?;
    let state = machine.into_state();
    // end
    String::from_utf8_lossy(alloc, state.output.as_slice())
}
