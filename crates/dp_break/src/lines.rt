//! Lines on which a breakpoint may stand.

ghost use Rattle.std.specs.Prelude.{◌≡◌};
ghost use Rattle.dp_break.specs.Lines as spec;

use dp_packet::ErrorCode;
use dp_parse::next_code;
use dp_tree::{Bundle, File, has_code};

/// The line with code that is meant by one: with `resolve` the next, and else itself.
fn line_meant(resolve: bool, file: &File, line: u32) -> Option<u32>
    ensures { result ≡ spec.line_meant resolve file.now line }
{
    if resolve {
        next_code(file, line)
    } else if has_code(file, line) {
        Some(line)
    } else {
        None
    }
}

/// The line that is kept of one of a file, or why no breakpoint may stand there: 202 or 203.
fn line_kept(resolve: bool, file: &File, line: u32) -> Result<u32, ErrorCode>
    ensures { result ≡ spec.line_kept resolve file.now line }
{
    if line == 0 || file.lines < line {
        return Err(ErrorCode::InvalidBreakpointLine);
    }
    match line_meant(resolve, file, line) {
        Some(line) => Ok(line),
        None => Err(ErrorCode::NoCodeOnLine),
    }
}

/// The same for a line that was asked for, if one was, of the file of this number. Takes no memory.
pub(crate) fn requested_line(
    resolve: bool,
    bundle: &Bundle,
    file: Option<u32>,
    line: Option<u32>,
) -> Result<Option<u32>, ErrorCode>
    ensures { result ≡ spec.requested_line resolve bundle.now file line }
{
    let (Some(file), Some(asked)) = (file, line) else {
        return Ok(line);
    };
    match bundle.files.as_slice().get(file as usize) {
        Some(file) => match line_kept(resolve, &file.tree, asked) {
            Ok(line) => Ok(Some(line)),
            Err(code) => Err(code),
        },
        None => Err(ErrorCode::InvalidBreakpointLine),
    }
}
