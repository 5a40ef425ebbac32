//! New breakpoints.

ghost use Rattle.std.specs.Prelude.{◌≡◌};
ghost use Rattle.dp_break.specs.Changes as spec;

use crate::breakpoint::{BreakRequest, Breakpoint};
use dp_tree::Expression;

/// The breakpoint that is asked for, with this id, the tree of its expression and the line that is kept. Takes no
/// memory.
pub(crate) fn new_breakpoint(
    id: u32,
    tree: Option<Expression>,
    line: Option<u32>,
    resolve: bool,
    request: BreakRequest,
) -> Breakpoint
    ensures { result ≡ spec.new_breakpoint id tree line resolve request }
{
    let file = if request.anyfile {
        None
    } else {
        Some(request.file)
    };
    Breakpoint {
        id,
        kind: request.kind,
        enabled: request.enabled,
        file,
        line,
        function: request.function,
        hits: 0,
        hit_value: request.hit_value,
        hit_rule: request.hit_rule,
        temporary: request.temporary,
        resolved: resolve && line.is_some(),
        expression: request.expression,
        parsed: tree,
    }
}
