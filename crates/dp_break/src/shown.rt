//! Breakpoints as packets show them.

ghost use Rattle.std.specs.Prelude.{◌≡◌, true, is_some, IfOk, OnErr, option_and_then};
ghost use Rattle.dp_break.specs.Shown as spec;
ghost use Rattle.dp_break.specs.inner.Numbers.{HasNumbers};

use crate::breakpoint::Breakpoint;
use dp_bytes::{Bytes, Memory};
use dp_packet::{BreakLine, file_uri};
use dp_tree::Bundle;
use std::alloc::Global;

/// The URI of the file of this number, where there is one.
fn uri_of(alloc: Global, bundle: &Bundle, file: Option<u32>) -> Result<Option<Bytes>, Memory>
    ensures uri { IfOk result (λ uri. uri ≡ option_and_then (spec.uri_of bundle.now) file) }
    ensures memory { OnErr result (is_some file ≡ true) }
{
    let Some(number) = file else {
        return Ok(None);
    };
    match bundle.files.as_slice().get(number as usize) {
        Some(file) => Ok(Some(file_uri(alloc, file.name.as_slice())?)),
        None => Ok(None),
    }
}

/// A copy of a text that may be missing.
fn copy_of(text: &Option<Bytes>) -> Result<Option<Bytes>, Memory>
    ensures copy { IfOk result (λ copy. copy ≡ text.now) }
    ensures memory { OnErr result (is_some text.now ≡ true) }
{
    match text {
        Some(text) => Ok(Some(text.try_clone()?)),
        None => Ok(None),
    }
}

/// A breakpoint as a packet shows it: with the URI of its file in place of the number, if the bundle has the file, and
/// without the tree of its expression.
pub fn breakpoint_line(alloc: Global, bundle: &Bundle, b: &Breakpoint) -> Result<BreakLine, Memory>
    ensures line { IfOk result (λ line. line ≡ spec.breakpoint_line bundle.now b.now) }
    ensures memory { OnErr result (spec.has_text b.now ≡ true) }
{
    Ok(BreakLine {
        id: b.id,
        kind: b.kind,
        enabled: b.enabled,
        uri: uri_of(alloc, bundle, b.file)?,
        line: b.line,
        function: copy_of(&b.function)?,
        hits: b.hits,
        hit_value: b.hit_value,
        hit_rule: b.hit_rule,
        temporary: b.temporary,
        resolved: b.resolved,
        expression: copy_of(&b.expression)?,
    })
}

/// What the types of a breakpoint's numbers say.
pub(crate) fn read_numbers(b: &Breakpoint)
    ensures { HasNumbers b.now }
{
    let _id = b.id;
    let _hits = b.hits;
    let _hit_value = b.hit_value;
    if let Some(line) = b.line {
        let _line = line;
    }
}
