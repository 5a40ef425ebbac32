//! What a session without an engine shows of its state.

use crate::answers::{Answer, attribute, bare};
use crate::session::Session;
use crate::writes::value_of;
use dp_bytes::Items;
use dp_command::PropertyPlace;
use dp_packet::{Body, ErrorCode, Property};
use dp_rows::Memory;
use dp_view::{
    Paging, ShownValue, ViewError, context, contexts, named_property, named_value, shown, stack,
};
use std::alloc::Global;

/// The answer to a refusal of a view.
fn refused(error: ViewError) -> Result<Answer, Memory> {
    match error {
        ViewError::Code(code) => Ok(Answer::Code(code)),
        ViewError::Memory => Err(Memory),
    }
}

/// The stack, or one level of it.
pub(crate) fn stack_body(session: &Session, level: Option<u32>) -> Result<Answer, Memory> {
    let Some(state) = &session.state else {
        return Ok(Answer::Code(ErrorCode::CommandNotAvailable));
    };
    match stack(session.alloc, &session.bundle, state, level) {
        Ok(lines) => Ok(bare(session.alloc, Body::Stacks(lines))),
        Err(error) => refused(error),
    }
}

/// The variables of a context.
pub(crate) fn context_body(session: &Session, level: u32, id: u32) -> Result<Answer, Memory> {
    let Some(state) = &session.state else {
        return Ok(Answer::Code(ErrorCode::CommandNotAvailable));
    };
    let alloc = session.alloc;
    match context(alloc, &session.bundle, state, level, id, &session.paging) {
        Ok(properties) => Ok(bare(alloc, Body::Properties(properties))),
        Err(error) => refused(error),
    }
}

/// The names of the contexts.
pub(crate) fn names_body(session: &Session) -> Result<Answer, Memory> {
    match contexts(session.alloc) {
        Ok(names) => Ok(bare(session.alloc, Body::Contexts(names))),
        Err(error) => refused(error),
    }
}

/// How much is shown where a command asks for a page and for so many bytes.
fn paging_of(session: &Session, page: u32, max_data: Option<u32>) -> Paging {
    Paging {
        children: session.paging.children,
        bytes: max_data.map_or(session.paging.bytes, u64::from),
        depth: session.paging.depth,
        page: u64::from(page),
    }
}

/// One property.
fn one(alloc: Global, made: Property) -> Result<Body, Memory> {
    Ok(Body::Properties(Items::of(vec![in alloc; made]?)))
}

/// A property.
pub(crate) fn property_body(
    session: &Session,
    place: &PropertyPlace,
    paging: &Paging,
) -> Result<Answer, Memory> {
    let Some(state) = &session.state else {
        return Ok(Answer::Code(ErrorCode::CommandNotAvailable));
    };
    let alloc = session.alloc;
    let name = place.name.as_slice();
    match named_property(alloc, state, place.level, place.context, name, paging) {
        Ok(made) => Ok(bare(alloc, one(alloc, made)?)),
        Err(error) => refused(error),
    }
}

/// A property, of which a page and so many bytes are shown.
pub(crate) fn page_body(
    session: &Session,
    place: &PropertyPlace,
    page: u32,
    max_data: Option<u32>,
) -> Result<Answer, Memory> {
    property_body(session, place, &paging_of(session, page, max_data))
}

/// The value of a property.
pub(crate) fn value_body(
    session: &Session,
    place: &PropertyPlace,
    max_data: Option<u32>,
) -> Result<Answer, Memory> {
    let Some(state) = &session.state else {
        return Ok(Answer::Code(ErrorCode::CommandNotAvailable));
    };
    let name = place.name.as_slice();
    let most = max_data.map(u64::from);
    match named_value(session.alloc, state, place.level, place.context, name, most) {
        Ok(ShownValue { attributes, text }) => Ok(Answer::Given(attributes, Body::Plain(text))),
        Err(error) => refused(error),
    }
}

/// The value of an expression that changes nothing, as an evaluation shows it.
pub(crate) fn evaluated_body(session: &Session, text: &[u8]) -> Result<Answer, Memory> {
    let Some(state) = &session.state else {
        return Ok(Answer::Code(ErrorCode::CommandNotAvailable));
    };
    let alloc = session.alloc;
    match value_of(alloc, &session.bundle, state, text)? {
        Some(value) => {
            let body = one(alloc, shown(alloc, &value, &session.paging)?)?;
            let success = attribute(alloc, b"success", b"1")?;
            Ok(Answer::Given(Items::of(vec![in alloc; success]?), body))
        }
        None => Ok(Answer::Code(ErrorCode::ErrorEvaluatingCode)),
    }
}
