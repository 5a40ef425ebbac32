//! The beginning of a call, and of an inclusion.

ghost use Rattle.dp_actions.specs.Calls.{call_run, callee as callee_named, include_run, inclusion_run};
ghost use Rattle.dp_actions.specs.Expressions.{evaluations};
ghost use Rattle.dp_actions.specs.Run.{and_then};
ghost use Rattle.dp_actions.specs.Setting.{Setting};
ghost use Rattle.std.specs.Prelude.{◌≡◌};
ghost use Rattle.dp_small_steps.specs.Rest.{next_rest};
ghost use Rattle.dp_small_steps.specs.Leads.{Leads};
ghost use Rattle.dp_small_steps.specs.Parts.{to_value};

use crate::next::{alone, given, values_first};
use crate::work::{AfterValues, ForValues, Hand, Next, Work};
use dp_actions::{Callee, Halt, fatal, file_named_by, look_up, not_included};
use dp_bytes::{Bytes, Items};
use dp_state::{FatalKind, State};
use dp_tree::{Bundle, Expression, Inclusion};
use dp_value::Value;
use std::alloc::Global;

/// The call of a name.
pub(crate) fn begin_call<'p>(
    alloc: Global,
    bundle: &'p Bundle,
    name: &Bytes,
    arguments: &'p Items<Expression>,
    state: &State,
) -> Result<Next<'p>, Halt>
    ensures { (setting : Setting) → setting.bundle ≡ bundle.now
        → Leads (next_rest setting) (λ k. and_then (call_run (callee_named setting.bundle name.now state.now)
        (evaluations arguments.now) setting state.now) (to_value k)) result state.now }
{
    match look_up(bundle, name, state) {
        None => Err(fatal(FatalKind::NoFunction, state)),
        Some(Callee::BuiltIn(function)) => {
            let work = Work::ForValues(ForValues::Native(function));
            Ok(values_first(alloc, arguments, work))
        }
        Some(Callee::Declared { file, function }) => {
            let work = Work::AfterValues(AfterValues::Call(file, function));
            Ok(values_first(alloc, arguments, work))
        }
    }
}

/// The inclusion of the file whose name is the text of a value.
pub(crate) fn include<'p>(
    alloc: Global,
    bundle: &'p Bundle,
    how: Inclusion,
    name: Value,
    state: &State,
) -> Result<Next<'p>, Halt>
    ensures { (setting : Setting) → setting.bundle ≡ bundle.now
        → Leads (next_rest setting) (λ k. and_then (include_run how name setting state.now) (to_value k)) result
        state.now }
{
    let found = file_named_by(alloc, bundle, &name);
    drop(name);
    match found {
        Ok(file) => included(how, file, state),
        Err(_) => Err(Halt::Memory),
    }
}

/// The inclusion of the file of this number, if there is one.
fn included<'p>(how: Inclusion, file: Option<u32>, state: &State) -> Result<Next<'p>, Halt>
    ensures { (setting : Setting)
        → Leads (next_rest setting) (λ k. and_then (inclusion_run how file setting state.now) (to_value k)) result
        state.now }
{
    match file {
        None => given(not_included(how, state)),
        Some(file) => Ok(alone(Hand::Include(file))),
    }
}
