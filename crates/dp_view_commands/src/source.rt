//! The text of a file.

ghost use Rattle.std.specs.Prelude.{◌≡◌, ◌||◌, if◌then◌else◌, option_map, slice_get, Err, None, Some, IfOk, IfSome};
ghost use Rattle.dp_packet.specs.Parts.{base64};
ghost use Rattle.dp_view_commands.specs.Results.{Answers};
ghost use Rattle.dp_view_commands.specs.Views as spec;

use crate::packets::{encoded, limited, respond};
use base64::engine::general_purpose::STANDARD;
use dp_bytes::{Bytes, Memory};
use dp_command::{Addressee, SourceRange};
use dp_file_uris::requested_file;
use dp_packet::{Body, ErrorCode, Response};
use dp_tree::Bundle;
use dp_view::{ViewError, source_lines};
use std::alloc::Global;

/// The text of the file of this number.
fn text_of(bundle: &Bundle, file: u32) -> Option<&[u8]>
    ensures { option_map (λ t. t.now) result ≡ option_map (λ f. f.text) (slice_get bundle.now.files file) }
{
    match bundle.files.as_slice().get(file as usize) {
        Some(file) => Some(file.text.as_slice()),
        None => None,
    }
}

/// The text of the file that a value names.
fn text_named<'b>(
    alloc: Global,
    bundle: &'b Bundle,
    value: &[u8],
) -> Result<Option<&'b [u8]>, Memory>
    ensures { IfOk result (λ found. option_map (λ t. t.now) found
        ≡ option_map (λ f. f.text) (spec.source_file bundle.now 0 (Some value.now))) }
{
    match requested_file(alloc, bundle, value)? {
        Some(file) => Ok(text_of(bundle, file)),
        None => Ok(None),
    }
}

/// The text of the file that is asked for: the one of the moment where none is given.
fn source_text<'b>(
    alloc: Global,
    bundle: &'b Bundle,
    here: u32,
    file: &Option<Bytes>,
) -> Result<Option<&'b [u8]>, Memory>
    ensures { IfOk result (λ found. option_map (λ t. t.now) found
        ≡ option_map (λ f. f.text) (spec.source_file bundle.now here file.now)) }
{
    match file {
        Some(value) => text_named(alloc, bundle, value.as_slice()),
        None => Ok(text_of(bundle, here)),
    }
}

/// Whether a line is given and is 0.
fn is_zero(line: Option<u32>) -> bool
    ensures { result ≡ spec.is_zero line }
{
    match line {
        Some(n) => n == 0,
        None => false,
    }
}

/// Bytes in base64, with padding.
fn base64_of(alloc: Global, bytes: &[u8]) -> Result<Bytes, Memory>
    ensures { IfOk result (λ text. text ≡ base64 bytes.now) }
{
    let text = STANDARD.encode(alloc, bytes)?;
    Ok(Bytes::of(text.into_bytes()))
}

/// The lines that are asked for of a text.
fn lines_response(
    alloc: Global,
    range: &SourceRange,
    text: &[u8],
    to: &Addressee,
) -> Result<Response, ViewError>
    ensures answer { Answers result (spec.answered to.now.command to.now.id
        (spec.lines_part range.now (Some text.now))) }
{
    let attributes = encoded(alloc)?;
    let lines = base64_of(alloc, source_lines(text, range.first, range.last))?;
    limited(respond(alloc, to, attributes, Body::Plain(lines))?)
}

/// The same of the text of the file that is asked for, if there is one.
fn file_response(
    alloc: Global,
    bundle: &Bundle,
    here: u32,
    range: &SourceRange,
    to: &Addressee,
) -> Result<Response, ViewError>
    ensures answer { Answers result (spec.answered to.now.command to.now.id
        (spec.lines_part range.now (option_map (λ f. f.text) (spec.source_file bundle.now here range.now.file)))) }
{
    match source_text(alloc, bundle, here, &range.file)? {
        Some(text) => lines_response(alloc, range, text, to),
        None => Err(ViewError::Code(ErrorCode::CannotOpenFile)),
    }
}

/// Lines of a file.
pub(crate) fn source_response(
    alloc: Global,
    bundle: &Bundle,
    here: u32,
    range: &SourceRange,
    to: &Addressee,
) -> Result<Response, ViewError>
    ensures answer { Answers result (spec.answered to.now.command to.now.id
        (spec.source_part bundle.now here range.now)) }
    ensures at_once { IfSome
        (if spec.is_zero range.now.first || spec.is_zero range.now.last then Some ErrorCode.InvalidOptions else None)
        (λ code. result ≡ Err (ViewError.Code code)) }
{
    if is_zero(range.first) || is_zero(range.last) {
        return Err(ViewError::Code(ErrorCode::InvalidOptions));
    }
    file_response(alloc, bundle, here, range, to)
}
