//! The writes of a moment.

ghost use Rattle.std.specs.Prelude.{◌≡◌, false, if◌then◌else◌, option_map, Err, IfOk, OnOk, OnErr};
ghost use Rattle.dp_actions.specs.declared.halt.Halt.TheVariants as halt;
ghost use Rattle.dp_state.specs.Places.{assigned, given_keys as all_given};
ghost use Rattle.dp_meaning.specs.inner.Drive.{ComesTo, IsEvaluated, drive, only_bounded};
ghost use Rattle.dp_actions.specs.Expressions.{evaluation as expression_value};
ghost use Rattle.dp_meaning.specs.Writes.{evaluated, evaluation_limit, evaluation_setting, left_by, one_write};
ghost use Rattle.dp_meaning.specs.Writes.{or_unchanged, place_or_fault, with_place, written_by};

use crate::evaluator::Evaluator;
use crate::pure::Unwatched;
use crate::writes::{NumberedWrite, Write};
use dp_actions::{Halt, given_keys};
use dp_bytes::{Bytes, Memory};
use dp_state::{FRAME_LIMIT, Fault, Path, State};
use dp_tree::{Bundle, Expression};
use dp_value::{Key, Value};
use std::alloc::Global;
use std::mem;

/// How many moments an evaluation may have.
pub const EVALUATION_LIMIT: u64 = 10_000;

/// Makes those of the writes that have a number, in their order, in a state. A write that is refused changes nothing
/// and is not reported. It fails only out of memory, and then nothing is said of the state.
pub fn write_all(
    alloc: Global,
    bundle: &Bundle,
    writes: &[NumberedWrite],
    number: u64,
    state: &mut State,
) -> Result<(), Halt>
    ensures ok { OnOk result (state.new ≡ written_by (evaluation_setting bundle.now) writes.now number state.old) }
    ensures err { OnErr result (result ≡ Err halt.Memory) }
{
    for w in writes {
        if w.moment == number {
            make_write(alloc, bundle, &w.write, state)?;
        }
    }
    Ok(())
}

/// Makes one write.
fn make_write(alloc: Global, bundle: &Bundle, write: &Write, state: &mut State) -> Result<(), Halt>
    ensures ok { OnOk result (state.new ≡ one_write (evaluation_setting bundle.now) write.now state.old) }
    ensures err { OnErr result (result ≡ Err halt.Memory) }
{
    match write {
        Write::Place {
            level,
            context,
            path,
            value,
        } => {
            write_place(alloc, *level, *context, path, value, state)?;
            Ok(())
        }
        Write::Evaluate(e) => evaluate(alloc, bundle, e, state),
    }
}

/// Gives a place a value, where it can hold it.
fn write_place(
    alloc: Global,
    level: u32,
    context: u32,
    path: &Path,
    value: &Value,
    state: &mut State,
) -> Result<(), Memory>
    ensures { OnOk result (state.new ≡ or_unchanged state.old (with_place level context path.now value.now state.old)) }
{
    let depth = state.frames.len();
    if level as usize >= depth {
        return Ok(());
    }
    if context == 0 {
        return write_variable(alloc, level as usize, path, value, state);
    }
    if context == 1 {
        return write_variable(alloc, depth - 1, path, value, state);
    }
    Ok(())
}

/// The same of a place that begins at a variable of the frame at a level.
fn write_variable(
    alloc: Global,
    level: usize,
    path: &Path,
    value: &Value,
    state: &mut State,
) -> Result<(), Memory>
    ensures { OnOk result (state.new ≡ or_unchanged state.old
        (place_or_fault (assigned level path.now.name (all_given path.now.keys) false value.now state.old))) }
{
    let keys = given_keys(alloc, path.keys.as_slice())?;
    write_keyed(level, &path.name, keys.as_slice(), value, state)
}

/// The same under keys.
fn write_keyed(
    level: usize,
    name: &Bytes,
    keys: &[Option<Key>],
    value: &Value,
    state: &mut State,
) -> Result<(), Memory>
    ensures { OnOk result (state.new ≡ or_unchanged state.old
        (place_or_fault (assigned level name.now keys.now false value.now state.old))) }
{
    match state.assign(level, name, keys, false, value.try_clone()?) {
        Ok(()) => Ok(()),
        Err(Fault::Fatal(_)) => Ok(()),
        Err(Fault::Memory) => Err(Memory),
    }
}

/// Evaluates an expression in the top frame.
fn evaluate(alloc: Global, bundle: &Bundle, e: &Expression, state: &mut State) -> Result<(), Halt>
    ensures ok { OnOk result (state.new ≡ left_by state.old (evaluated
        (evaluation_setting bundle.now) e.now state.old)) }
    ensures err { OnErr result (result ≡ Err halt.Memory) }
{
    let (value, after) = evaluation(alloc, bundle, e, state)?;
    let holds = value.is_some();
    drop(value);
    keep(holds, after, state);
    Ok(())
}

/// Keeps what an evaluation left, where it held.
fn keep(holds: bool, after: State, state: &mut State)
    ensures { state.new ≡ (if holds then after else state.old) }
{
    if holds {
        drop(mem::replace(state, after));
    } else {
        drop(after);
    }
}

/// The value of an expression in the top frame of a state, where it holds, and the state that its evaluation leaves;
/// the state itself stays as it is. It does not hold where it is fatal, ends the program or has more than 10,000
/// moments, and then nothing is said of the state that is handed out. Copies the state.
pub fn evaluation(
    alloc: Global,
    bundle: &Bundle,
    e: &Expression,
    state: &State,
) -> Result<(Option<Value>, State), Memory>
    ensures { IfOk result (λ end. evaluated (evaluation_setting bundle.now) e.now state.now ≡ option_map
        (λ v. (v, end.1)) end.0) }
{
    let mut copy = state.try_clone()?;
    copy.moments = 0;
    match quietly(alloc, bundle, e, &mut copy) {
        Ok(value) => {
            copy.moments = state.moments;
            Ok((value, copy))
        }
        Err(refused) => {
            drop(copy);
            Err(refused)
        }
    }
}

/// The value of an expression, where it holds, with no writes at its moments.
fn quietly(
    alloc: Global,
    bundle: &Bundle,
    e: &Expression,
    state: &mut State,
) -> Result<Option<Value>, Memory>
    ensures { IfOk result (λ answer. ComesTo (drive (only_bounded evaluation_limit)
        (expression_value e.now (evaluation_setting bundle.now) state.old)) answer state.new) }
{
    let quiet = Unwatched {
        bound: EVALUATION_LIMIT,
    };
    let evaluator = Evaluator {
        bundle,
        outside: &quiet,
        alloc,
        bound: EVALUATION_LIMIT,
        depth: FRAME_LIMIT as u64,
    };
    held(evaluator.expression(e, state))
}

/// A value, where there is one.
fn held(answer: Result<Value, Halt>) -> Result<Option<Value>, Memory>
    ensures { IfOk result (IsEvaluated answer) }
{
    match answer {
        Ok(value) => Ok(Some(value)),
        Err(Halt::Memory) => Err(Memory),
        Err(Halt::Finished(_)) => Ok(None),
        Err(Halt::Stopped(_)) => Ok(None),
    }
}
