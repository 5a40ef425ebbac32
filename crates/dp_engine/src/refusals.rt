//! Why a command is refused.
ghost use Rattle.std.specs.Prelude.{◌≡◌, ◌∷◌, [], is_none};
ghost use Rattle.dp_command.specs.Tests.{first_code};
ghost use Rattle.dp_features.specs.Features.{is_other_encoding, setting_named};
ghost use Rattle.dp_engine.specs.inner.Turns.{ReadsCommandIn};

use crate::states::Phase;
use dp_command::{Command, CommandError, CommandName, Line};
use dp_features::Setting;
use dp_packet::ErrorCode;
use std::alloc::Global;

/// Why a feature is not set to a value. Takes no memory.
pub(crate) fn feature_refusal(name: &[u8], value: &[u8]) -> Option<ErrorCode>
    ensures { result ≡ first_code ((is_other_encoding name.now value.now, ErrorCode.EncodingNotSupported)
        ∷ (is_none (setting_named name.now value.now), ErrorCode.InvalidOptions) ∷ []) }
{
    if name == b"encoding".as_slice() && value != b"iso-8859-1".as_slice() {
        return Some(ErrorCode::EncodingNotSupported);
    }
    match Setting::of(name, value) {
        Some(_) => None,
        None => Some(ErrorCode::InvalidOptions),
    }
}

/// What a line asks for in a state, or the code of the first refusal that is none of the command's own. What is tested
/// before its row takes no memory.
#[tactic(auto, using(crate::proofs::TurnLaws::reads_command, crate::proofs::TurnLaws::unadmitted))]
pub(crate) fn read_command(
    alloc: Global,
    phase: Phase,
    line: &Line,
) -> Result<Command, CommandError>
    ensures { ReadsCommandIn phase line.now result }
{
    let name = match CommandName::admit(line) {
        Ok(name) => name,
        Err(refusal) => return Err(CommandError::Code(refusal.code())),
    };
    if !phase.allows(name) {
        return Err(CommandError::Code(ErrorCode::CommandNotAvailable));
    }
    Command::read(alloc, line, name)
}
