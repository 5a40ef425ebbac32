//! The frames of calls and of included files, and what they give.

ghost use Rattle.std.specs.Prelude.{◌≡◌, IfOk, None};
ghost use Rattle.dp_value.specs.Value.{data_of};
ghost use Rattle.dp_operations.specs.Text.{text_of};
ghost use Rattle.dp_tree.specs.Files.{file_named};
ghost use Rattle.dp_state.specs.Functions.{called, included};
ghost use Rattle.dp_actions.specs.Calls.{inclusion_run};
ghost use Rattle.dp_actions.specs.AtOnce.{AtOnce};
ghost use Rattle.dp_actions.specs.Bodies.{returned as value_returned, statements_of as body_of};
ghost use Rattle.dp_actions.specs.Run.{taken};
ghost use Rattle.dp_actions.specs.Setting.{Setting};

use crate::faults::{fatal, settled};
use crate::halt::Halt;
use crate::signal::Signal;
use dp_bytes::{Items, Memory};
use dp_operations::text;
use dp_state::{FatalKind, State};
use dp_tree::{Bundle, Function, Inclusion, Statement};
use dp_value::Value;
use std::alloc::Global;

/// Enters a function of a file.
pub fn enter_call(
    file: u32,
    function: &Function,
    values: Items<Value>,
    state: &mut State,
) -> Result<(), Halt>
    ensures { AtOnce (taken (called file function.now values state.old) state.old) result state.new }
{
    let step = state.call(file, function, values);
    settled(step, state)
}

/// Enters a file.
pub fn enter_file(bundle: &Bundle, file: u32, state: &mut State) -> Result<(), Halt>
    ensures { AtOnce (taken (included bundle.now file state.old) state.old) result state.new }
{
    let step = state.include(bundle, file);
    settled(step, state)
}

/// The number of the file whose name is the text of a value, if there is one.
pub fn file_named_by(alloc: Global, bundle: &Bundle, name: &Value) -> Result<Option<u32>, Memory>
    ensures { IfOk result (λ file. file ≡ file_named bundle.now (text_of (data_of name.now))) }
{
    let Ok(name) = text(alloc, name) else {
        return Err(Memory);
    };
    bundle.file_named(name.as_slice())
}

/// What the inclusion of a missing file gives.
pub fn not_included(how: Inclusion, state: &State) -> Result<Value, Halt>
    ensures { (setting : Setting) → AtOnce (inclusion_run how None setting state.now) result state.now }
{
    match how {
        Inclusion::Include => Ok(Value::Bool(false)),
        Inclusion::Require => Err(fatal(FatalKind::NoFile, state)),
    }
}

/// What a body gives: its return value, or this where it has none.
pub fn returned(none: Value, signal: Signal) -> Value
    ensures { result ≡ value_returned none signal }
{
    match signal {
        Signal::Return(value) => {
            drop(none);
            value
        }
        Signal::Next => none,
        Signal::Break(_) => none,
        Signal::Continue(_) => none,
    }
}

/// The statements of the file of this number.
pub fn statements_of(bundle: &Bundle, file: u32) -> &[Statement]
    ensures { result.now ≡ body_of bundle.now file }
{
    match bundle.files.as_slice().get(file as usize) {
        Some(file) => file.tree.body.as_slice(),
        None => &[],
    }
}
