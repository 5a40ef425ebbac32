//! The change that a breakpoint_update command asks for.

ghost use Rattle.std.specs.Prelude.{◌≡◌};
ghost use Rattle.dp_break.specs.Updates as spec;
ghost use Rattle.dp_break.specs.Causes.{answer_of};
ghost use Rattle.dp_command.specs.Tests.{first_code};

use crate::breakpoint::BreakChange;
use crate::errors::BreakError;
use crate::hits::is_of_function;
use crate::words::{rule_given, state_given};
use dp_command::BreakpointUpdate;
use dp_packet::{BreakKind, ErrorCode};

/// The change that a breakpoint_update command asks for, of a breakpoint of this kind. DBGp 1.0, "breakpoint_update".
///
/// It is refused with code 3 for a line of a call or return breakpoint or a hit rule that is none, and else with 204
/// for a state that is none. The codes 205, 202 and 203 are not tested here. Takes no memory, and never answers
/// `Memory`.
pub fn breakpoint_change(
    kind: BreakKind,
    update: &BreakpointUpdate,
) -> Result<BreakChange, BreakError>
    ensures { result ≡ answer_of (first_code (spec.change_tests kind update.now)) (spec.change update.now) }
{
    if is_of_function(kind) && update.line.is_some() {
        return Err(BreakError::Code(ErrorCode::InvalidOptions));
    }
    let hit_rule = rule_given(&update.hit_rule)?;
    let enabled = state_given(&update.state)?;
    Ok(BreakChange {
        enabled,
        line: update.line,
        hit_value: update.hit_value,
        hit_rule,
    })
}
