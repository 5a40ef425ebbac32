//! What commands ask for, in words.

use dp_bytes::Bytes;
use dp_command::{
    BreakpointRequest, BreakpointSet, BreakpointUpdate, LookRequest, PropertyPlace, PropertySet,
    Request, SessionRequest, SourceRange, WriteRequest,
};
use dp_rows::{Memory, put_bytes};

/// Puts a part by its name.
fn put_part(text: &mut String, name: &str, value: &[u8]) -> Result<(), Memory> {
    write!(text, " {name}=")?;
    put_bytes(text, value)
}

/// Puts a part by its name, if it is there.
fn put_given(text: &mut String, name: &str, value: &Option<Bytes>) -> Result<(), Memory> {
    match value {
        Some(value) => put_part(text, name, value.as_slice()),
        None => Ok(()),
    }
}

/// Puts a number by its name, if it is there.
fn put_number(text: &mut String, name: &str, value: Option<u32>) -> Result<(), Memory> {
    match value {
        Some(value) => {
            write!(text, " {name}={value}")?;
            Ok(())
        }
        None => Ok(()),
    }
}

/// Puts a breakpoint that is asked for.
fn put_set(text: &mut String, set: &BreakpointSet) -> Result<(), Memory> {
    text.push_str("breakpoint_set")?;
    put_part(text, "kind", set.kind.as_slice())?;
    put_given(text, "state", &set.state)?;
    put_given(text, "file", &set.file)?;
    put_given(text, "line", &set.line)?;
    put_given(text, "function", &set.function)?;
    put_given(text, "exception", &set.exception)?;
    put_number(text, "hit_value", Some(set.hit_value))?;
    put_given(text, "hit_rule", &set.hit_rule)?;
    put_given(text, "temporary", &set.temporary)?;
    put_given(text, "expression", &set.expression)
}

/// Puts a change of a breakpoint.
fn put_update(text: &mut String, update: &BreakpointUpdate) -> Result<(), Memory> {
    let id = update.id;
    write!(text, "breakpoint_update {id}")?;
    put_given(text, "state", &update.state)?;
    put_number(text, "line", update.line)?;
    put_number(text, "hit_value", update.hit_value)?;
    put_given(text, "hit_rule", &update.hit_rule)
}

/// Puts a command and the place of its property.
fn put_place(text: &mut String, command: &str, place: &PropertyPlace) -> Result<(), Memory> {
    text.push_str(command)?;
    put_part(text, "name", place.name.as_slice())?;
    put_number(text, "level", Some(place.level))?;
    put_number(text, "context", Some(place.context))
}

/// Puts a value that is asked for.
fn put_value(text: &mut String, set: &PropertySet) -> Result<(), Memory> {
    put_place(text, "property_set", &set.place)?;
    put_given(text, "kind", &set.kind)?;
    put_number(text, "length", set.length)?;
    put_part(text, "value", set.value.as_slice())
}

/// Puts the lines that are asked for.
fn put_source(text: &mut String, range: &SourceRange) -> Result<(), Memory> {
    text.push_str("source")?;
    put_given(text, "file", &range.file)?;
    put_number(text, "first", range.first)?;
    put_number(text, "last", range.last)
}

/// Puts what is asked of the session itself.
fn put_session(text: &mut String, request: &SessionRequest) -> Result<(), Memory> {
    match request {
        SessionRequest::Status => text.push_str("status")?,
        SessionRequest::FeatureGet { name } => {
            text.push_str("feature_get")?;
            put_part(text, "name", name.as_slice())?;
        }
        SessionRequest::FeatureSet { name, value } => {
            text.push_str("feature_set")?;
            put_part(text, "name", name.as_slice())?;
            put_part(text, "value", value.as_slice())?;
        }
        SessionRequest::Continue(how) => write!(text, "{how:?}")?,
        SessionRequest::Finish(how) => write!(text, "{how:?}")?,
        SessionRequest::Redirect { stream, mode } => write!(text, "{stream:?} {mode:?}")?,
    }
    Ok(())
}

/// Puts what is asked of the breakpoints.
fn put_breakpoints(text: &mut String, request: &BreakpointRequest) -> Result<(), Memory> {
    match request {
        BreakpointRequest::Set(set) => put_set(text, set),
        BreakpointRequest::One { action, id } => {
            write!(text, "{action:?} {id}")?;
            Ok(())
        }
        BreakpointRequest::Update(update) => put_update(text, update),
        BreakpointRequest::List => {
            text.push_str("breakpoint_list")?;
            Ok(())
        }
    }
}

/// Puts a look at the stack, at properties or at the source.
fn put_look(text: &mut String, request: &LookRequest) -> Result<(), Memory> {
    match request {
        LookRequest::StackDepth => text.push_str("stack_depth")?,
        LookRequest::StackGet { level } => {
            text.push_str("stack_get")?;
            put_number(text, "level", *level)?;
        }
        LookRequest::ContextNames => text.push_str("context_names")?,
        LookRequest::ContextGet { level, context } => {
            text.push_str("context_get")?;
            put_number(text, "level", Some(*level))?;
            put_number(text, "context", Some(*context))?;
        }
        LookRequest::PropertyGet {
            place,
            page,
            max_data,
        } => {
            put_place(text, "property_get", place)?;
            put_number(text, "page", Some(*page))?;
            put_number(text, "max_data", *max_data)?;
        }
        LookRequest::PropertyValue { place, max_data } => {
            put_place(text, "property_value", place)?;
            put_number(text, "max_data", *max_data)?;
        }
        LookRequest::Source(range) => put_source(text, range)?,
    }
    Ok(())
}

/// Puts a write.
fn put_write(text: &mut String, request: &WriteRequest) -> Result<(), Memory> {
    match request {
        WriteRequest::PropertySet(set) => put_value(text, set),
        WriteRequest::Eval { expression } => {
            text.push_str("eval")?;
            put_part(text, "expression", expression.as_slice())
        }
    }
}

/// Puts what a command asks for.
pub(crate) fn put_request(text: &mut String, request: &Request) -> Result<(), Memory> {
    match request {
        Request::Session(request) => put_session(text, request),
        Request::Breakpoints(request) => put_breakpoints(text, request),
        Request::Look(request) => put_look(text, request),
        Request::Write(request) => put_write(text, request),
    }
}
