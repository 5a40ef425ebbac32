//! Calls of the crates of the debugger, over a program that has come to a moment.

use crate::states::{Meant, int_in, int_of};
use dp_break::Breaks;
use dp_bytes::{Bytes, Memory};
use dp_command::{Addressee, LookRequest, WriteRequest};
use dp_features::Features;
use dp_file_uris::requested_file;
use dp_state::{Moment, State};
use dp_tree::Bundle;
use dp_view::{Paging, ViewError, named_property, stack};
use dp_view_commands::view_response;
use dp_view_limits::limited_property;
use dp_write_commands::write_response;
use std::alloc::Global;

/// How much is shown.
const PAGING: Paging = Paging {
    children: 32,
    bytes: 1024,
    depth: 1,
    page: 0,
};

/// A URI names a file of the program.
pub(crate) fn dp_file_uris(alloc: Global, bundle: &Bundle) -> Result<String, Memory> {
    // call
    let first = requested_file(alloc, bundle, b"file:///a.php")?;
    let none = requested_file(alloc, bundle, b"file:///b.php")?;
    // end
    let (first, none) = (first.is_some(), none.is_some());
    format!(in alloc; "{first}, {none}")
}

/// Breakpoints that are held are passed at each moment.
pub(crate) fn dp_break(
    alloc: Global,
    bundle: &Bundle,
    moment: &Moment,
    state: &State,
) -> Result<String, Memory> {
    // call: no breakpoint is held, so none stops the program
    let mut breaks = Breaks::new(alloc);
    let stops = breaks.pass(bundle, moment, state)?;
    let held = breaks.list().len();
    // end
    format!(in alloc; "{stops}, {held} held")
}

/// What a state shows.
pub(crate) fn dp_view(alloc: Global, bundle: &Bundle, state: &State) -> Result<String, ViewError> {
    // call: at level 0, in the context of locals
    let lines = stack(alloc, bundle, state, None)?;
    let shown = named_property(alloc, state, 0, 0, b"$x", &PAGING)?;
    // end
    let (levels, int) = (lines.len(), int_of(&shown));
    let answer = format!(in alloc; "{levels} level, {int}")?;
    Ok(answer)
}

/// What a state shows within so many bytes.
pub(crate) fn dp_view_limits(alloc: Global, state: &State) -> Result<String, ViewError> {
    // call
    let shown = limited_property(alloc, state, 0, 0, b"$x", &PAGING, 1000)?;
    let refused = limited_property(alloc, state, 0, 0, b"$x", &PAGING, 10);
    // end
    let (int, is_refused) = (int_of(&shown), refused.is_err());
    let answer = format!(in alloc; "{int}, {is_refused}")?;
    Ok(answer)
}

/// A command that looks is answered.
pub(crate) fn dp_view_commands(
    alloc: Global,
    bundle: &Bundle,
    state: &State,
) -> Result<String, ViewError> {
    let features = Features::new();
    let to = Addressee::nobody(alloc);
    // call
    let request = LookRequest::StackDepth;
    let response = view_response(alloc, bundle, 0, &features, state, &to, &request)?;
    let attributes = response.attributes.len();
    // end
    let answer = format!(in alloc; "{attributes}")?;
    Ok(answer)
}

/// A command that writes is answered.
pub(crate) fn dp_write_commands(
    alloc: Global,
    bundle: &Bundle,
    state: &mut State,
) -> Result<String, ViewError> {
    let features = Features::new();
    let to = Addressee::nobody(alloc);
    let name = Bytes::from_slice(alloc, b"x")?;
    // call: `Meant` is an `Evaluator` that calls `evaluation` of dp_meaning
    let expression = Bytes::from_slice(alloc, b"$x = 7")?;
    let request = WriteRequest::Eval { expression };
    let written = write_response::<Meant>(alloc, bundle, &features, state, &to, &request)?;
    // end
    drop(written);
    let int = int_in(state.read(&name));
    let answer = format!(in alloc; "{int}")?;
    Ok(answer)
}
