//! The words of breakpoint commands. No call takes memory.

ghost use Rattle.std.specs.Prelude.{◌≡◌, false, true, IfErr, IfOk, OnOk};
ghost use Rattle.dp_break.specs.Words as spec;

use crate::errors::BreakError;
use dp_bytes::Bytes;
use dp_command::number_of;
use dp_packet::{BreakKind, ErrorCode, HitRule};

/// What makes a breakpoint of this type stop: `line`, `call`, `return` or `conditional`.
#[tactic(auto, unfolding(crate::specs::Words::kind_named))]
pub(crate) fn kind_named(word: &[u8]) -> Option<BreakKind>
    ensures { result ≡ spec.kind_named word.now }
{
    if word == b"line".as_slice() {
        Some(BreakKind::Line)
    } else if word == b"call".as_slice() {
        Some(BreakKind::Call)
    } else if word == b"return".as_slice() {
        Some(BreakKind::Return)
    } else if word == b"conditional".as_slice() {
        Some(BreakKind::Conditional)
    } else {
        None
    }
}

/// How hits are compared: `>=`, `==` or `%`.
#[tactic(auto, unfolding(crate::specs::Words::rule_named))]
fn rule_named(word: &[u8]) -> Option<HitRule>
    ensures { result ≡ spec.rule_named word.now }
{
    if word == b">=".as_slice() {
        Some(HitRule::AtLeast)
    } else if word == b"==".as_slice() {
        Some(HitRule::Exactly)
    } else if word == b"%".as_slice() {
        Some(HitRule::Multiple)
    } else {
        None
    }
}

/// Whether `enabled` or `disabled`.
#[tactic(auto, unfolding(crate::specs::Words::state_named))]
fn state_named(word: &[u8]) -> Option<bool>
    ensures { result ≡ spec.state_named word.now }
{
    if word == b"enabled".as_slice() {
        Some(true)
    } else if word == b"disabled".as_slice() {
        Some(false)
    } else {
        None
    }
}

/// Whether `1` or `0`.
#[tactic(auto, unfolding(crate::specs::Words::flag_named))]
fn flag_named(word: &[u8]) -> Option<bool>
    ensures { result ≡ spec.flag_named word.now }
{
    if word == b"1".as_slice() {
        Some(true)
    } else if word == b"0".as_slice() {
        Some(false)
    } else {
        None
    }
}

/// The rule in a word that may be missing. Another word is refused with code 3.
#[tactic(auto, unfolding(crate::specs::Words::has_no_meaning))]
pub(crate) fn rule_given(word: &Option<Bytes>) -> Result<Option<HitRule>, BreakError>
    ensures meaning { IfOk result (λ meaning. meaning ≡ spec.meant spec.rule_named word.now) }
    ensures accepted { OnOk result (spec.has_no_meaning spec.rule_named word.now ≡ false) }
    ensures refused { IfErr result (λ e. (e ≡ BreakError.Code ErrorCode.InvalidOptions)
        × (spec.has_no_meaning spec.rule_named word.now ≡ true)) }
{
    match word {
        None => Ok(None),
        Some(word) => match rule_named(word.as_slice()) {
            None => Err(BreakError::Code(ErrorCode::InvalidOptions)),
            rule => Ok(rule),
        },
    }
}

/// The state in a word that may be missing. Another word is refused with code 204.
#[tactic(auto, unfolding(crate::specs::Words::has_no_meaning))]
pub(crate) fn state_given(word: &Option<Bytes>) -> Result<Option<bool>, BreakError>
    ensures meaning { IfOk result (λ meaning. meaning ≡ spec.meant spec.state_named word.now) }
    ensures accepted { OnOk result (spec.has_no_meaning spec.state_named word.now ≡ false) }
    ensures refused { IfErr result (λ e. (e ≡ BreakError.Code ErrorCode.InvalidBreakpointState)
        × (spec.has_no_meaning spec.state_named word.now ≡ true)) }
{
    match word {
        None => Ok(None),
        Some(word) => match state_named(word.as_slice()) {
            None => Err(BreakError::Code(ErrorCode::InvalidBreakpointState)),
            enabled => Ok(enabled),
        },
    }
}

/// The flag in a word that may be missing. Another word is refused with code 3.
#[tactic(auto, unfolding(crate::specs::Words::has_no_meaning))]
pub(crate) fn flag_given(word: &Option<Bytes>) -> Result<Option<bool>, BreakError>
    ensures meaning { IfOk result (λ meaning. meaning ≡ spec.meant spec.flag_named word.now) }
    ensures accepted { OnOk result (spec.has_no_meaning spec.flag_named word.now ≡ false) }
    ensures refused { IfErr result (λ e. (e ≡ BreakError.Code ErrorCode.InvalidOptions)
        × (spec.has_no_meaning spec.flag_named word.now ≡ true)) }
{
    match word {
        None => Ok(None),
        Some(word) => match flag_named(word.as_slice()) {
            None => Err(BreakError::Code(ErrorCode::InvalidOptions)),
            flag => Ok(flag),
        },
    }
}

/// The number in a word that may be missing. Another word is refused with code 3.
#[tactic(auto, unfolding(crate::specs::Words::has_no_meaning, crate::specs::Words::number_in))]
pub(crate) fn number_given(word: &Option<Bytes>) -> Result<Option<u32>, BreakError>
    ensures meaning { IfOk result (λ meaning. meaning ≡ spec.meant spec.number_in word.now) }
    ensures accepted { OnOk result (spec.has_no_meaning spec.number_in word.now ≡ false) }
    ensures refused { IfErr result (λ e. (e ≡ BreakError.Code ErrorCode.InvalidOptions)
        × (spec.has_no_meaning spec.number_in word.now ≡ true)) }
{
    match word {
        None => Ok(None),
        Some(word) => match number_of(word.as_slice()) {
            None => Err(BreakError::Code(ErrorCode::InvalidOptions)),
            number => Ok(number),
        },
    }
}
