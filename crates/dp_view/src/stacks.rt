//! The stack.

ghost use Rattle.std.specs.Prelude.{◌≡◌, ◌++◌, [], ◌∷◌, option_map, reverse, slice_get, IfOk, OnOk};
ghost use Rattle.dp_view.specs.Answers.{Answers};
ghost use Rattle.dp_view.specs.Stacks as spec;
ghost use Rattle.dp_view.specs.inner.Additions.{line_of};

use crate::Memory;
use crate::errors::ViewError;
use dp_bytes::{Bytes, Items};
use dp_packet::{ErrorCode, StackLine, file_uri};
use dp_state::{Frame, FrameKind, State};
use dp_tree::Bundle;
use std::alloc::Global;

/// Where a frame is: `{main}`, the function's name as declared, or `include`.
fn place(alloc: Global, kind: &FrameKind) -> Result<Bytes, Memory>
    ensures { IfOk result (λ p. p ≡ spec.place_of kind.now) }
{
    match kind {
        FrameKind::Main => Bytes::from_slice(alloc, b"{main}"),
        FrameKind::Called(name) => name.try_clone(),
        FrameKind::Included => Bytes::from_slice(alloc, b"include"),
    }
}

/// The name of the file of this number in a bundle; nothing where there is no such file.
fn file_name(bundle: &Bundle, file: u32) -> &[u8]
    ensures { result.now ≡ spec.file_name bundle.now file }
{
    match bundle.files.as_slice().get(file as usize) {
        Some(file) => file.name.as_slice(),
        None => b"",
    }
}

/// The line of a frame at a level.
fn line(alloc: Global, bundle: &Bundle, level: u32, frame: &Frame) -> Result<StackLine, Memory>
    ensures { IfOk result (λ line. line ≡ spec.stack_line bundle.now level frame.now) }
{
    let uri = file_uri(alloc, file_name(bundle, frame.file))?;
    let place = place(alloc, &frame.kind)?;
    Ok(StackLine {
        level,
        uri,
        line: frame.line,
        place,
    })
}

/// The frame at a level.
fn frame_at(frames: &[Frame], level: usize) -> Option<&Frame>
    ensures { option_map (λ f. f.now) result ≡ slice_get (reverse frames.now) level }
{
    if level >= frames.len() {
        return None;
    }
    frames.get(frames.len() - 1 - level)
}

/// The line of a level of 32 bits. There is no memory for the lines of more frames.
fn line_at(alloc: Global, bundle: &Bundle, level: usize, frame: &Frame) -> Result<StackLine, Memory>
    ensures { IfOk result (λ line. line ≡ spec.stack_line bundle.now level frame.now) }
{
    match u32::try_from(level) {
        Ok(level) => line(alloc, bundle, level, frame),
        Err(_) => Err(Memory),
    }
}

/// Puts the line of a level behind others.
fn put_line(
    alloc: Global,
    bundle: &Bundle,
    frames: &[Frame],
    level: usize,
    lines: &mut Vec<StackLine>,
) -> Result<(), Memory>
    ensures { OnOk result (lines.new.items ≡
        lines.old.items ++ line_of bundle.now level (slice_get (reverse frames.now) level)) }
{
    if let Some(frame) = frame_at(frames, level) {
        lines.push(line_at(alloc, bundle, level, frame)?)?;
    }
    Ok(())
}

/// The lines of all levels.
fn all_lines(alloc: Global, bundle: &Bundle, frames: &[Frame]) -> Result<Vec<StackLine>, Memory>
    ensures { IfOk result (λ lines. lines.items ≡ spec.lines_from bundle.now 0 (reverse frames.now)) }
{
    let mut lines = Vec::new(alloc);
    for level in 0..frames.len() {
        put_line(alloc, bundle, frames, level, &mut lines)?;
    }
    Ok(lines)
}

/// The line of one level.
fn one_line(
    alloc: Global,
    bundle: &Bundle,
    level: u32,
    frame: &Frame,
) -> Result<Vec<StackLine>, Memory>
    ensures { IfOk result (λ lines. lines.items ≡ spec.stack_line bundle.now level frame.now ∷ []) }
{
    let mut lines = Vec::new(alloc);
    lines.push(line(alloc, bundle, level, frame)?)?;
    Ok(lines)
}

/// The lines of the stack, or the line of one level; level 0 is the top frame, and stands first. A line has the URI of
/// the frame's file, the line of its last moment, and where it is: `{main}`, `include`, or the function's name as
/// declared.
///
/// The code is 301 exactly where the level is not below the number of frames.
pub fn stack(
    alloc: Global,
    bundle: &Bundle,
    state: &State,
    level: Option<u32>,
) -> Result<Items<StackLine>, ViewError>
    ensures { Answers (λ lines. lines) result (spec.stack_at bundle.now state.now level) }
{
    let frames = state.frames.as_slice();
    let Some(level) = level else {
        return Ok(Items::of(all_lines(alloc, bundle, frames)?));
    };
    match frame_at(frames, level as usize) {
        Some(frame) => Ok(Items::of(one_line(alloc, bundle, level, frame)?)),
        None => Err(ViewError::Code(ErrorCode::StackDepthInvalid)),
    }
}
