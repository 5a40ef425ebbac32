//! The commands that a session hears while its program runs, and why they are refused.
ghost use Rattle.std.specs.Prelude.{◌≡◌, ◌==◌};
ghost use Rattle.std.specs.List.{list_all};
ghost use Rattle.std.specs.Str.{bytes_eq};
ghost use Rattle.dp_command.specs.Letters as letter;
ghost use Rattle.dp_command.specs.Tests.{first_code};
ghost use Rattle.dp_async.specs.Listens as spec;

use dp_bytes::Bytes;
use dp_command::{CommandName, Line, fits_row, has_duplicate, id_of};
use dp_packet::ErrorCode;

/// Whether a text is the one that is wanted. Takes no memory.
pub(crate) fn is_text(text: &[u8], wanted: &[u8]) -> bool
    ensures { result ≡ bytes_eq wanted.now text.now }
{
    text == wanted
}

/// Whether a line's command has this name. Takes no memory.
fn is_named(line: &Option<Line>, name: &[u8]) -> bool
    ensures { result ≡ spec.is_named name.now line.now }
{
    match line {
        None => false,
        Some(line) => is_text(line.name.as_slice(), name),
    }
}

/// Whether it asks a running program to stop where it stands.
pub(crate) fn asks_to_break(line: &Option<Line>) -> bool
    ensures { result ≡ spec.asks_to_break line.now }
{
    is_named(line, b"break")
}

/// Whether it asks for the status.
pub(crate) fn asks_for_status(line: &Option<Line>) -> bool
    ensures { result ≡ spec.asks_for_status line.now }
{
    is_named(line, b"status")
}

/// Whether each of these options is the id.
fn are_ids(options: &[(u8, Bytes)]) -> bool
    ensures { result ≡ list_all (λ o. o.0 == letter.i) options.now }
{
    options.iter().all(|option| option.0 == b'i')
}

/// Whether a `break` has no option but its id, and no payload.
fn fits_break(line: &Line) -> bool
    ensures { result ≡ spec.fits_break line.now }
{
    are_ids(line.options.as_slice()) && line.payload.is_none()
}

/// Why a `break` is refused, where the program runs or not. Takes no memory.
pub(crate) fn break_refusal(line: &Line, runs: bool) -> Option<ErrorCode>
    ensures { result ≡ first_code (spec.break_tests runs line.now) }
{
    if has_duplicate(line.options.as_slice()) {
        return Some(ErrorCode::DuplicateArguments);
    }
    if id_of(line).is_empty() {
        return Some(ErrorCode::InvalidOptions);
    }
    if !runs {
        return Some(ErrorCode::CommandNotAvailable);
    }
    if !fits_break(line) {
        return Some(ErrorCode::InvalidOptions);
    }
    None
}

/// Why a command that is there always is refused. Takes no memory.
pub(crate) fn row_refusal(name: CommandName, line: &Line) -> Option<ErrorCode>
    ensures { result ≡ first_code (spec.row_tests name line.now) }
{
    if has_duplicate(line.options.as_slice()) {
        return Some(ErrorCode::DuplicateArguments);
    }
    if id_of(line).is_empty() {
        return Some(ErrorCode::InvalidOptions);
    }
    if !fits_row(name, line) {
        return Some(ErrorCode::InvalidOptions);
    }
    None
}
