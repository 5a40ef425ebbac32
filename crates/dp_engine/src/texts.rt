//! The texts of responses that a session does not give by itself: for what answers a line beside one.
ghost use Rattle.std.specs.Prelude.{◌≡◌, ◌≤◌, length, IfOk, IfSome};
ghost use Rattle.dp_features.specs.Features.{value_limit};
ghost use Rattle.dp_wire.specs.Frames.{IsPacketText, command_limit};
ghost use Rattle.dp_engine.specs.Responses as spec;

use crate::responses;
use dp_bytes::{Bytes, Memory};
use dp_command::Addressee;
use dp_packet::ErrorCode;
use std::alloc::Global;

/// The text of a response to a command that tells a status and its reason, such as `starting` and `ok`.
///
/// Each of the two has at most 16 bytes. It answers that it is out of memory where a copy or the text has no room; the
/// name and the id of the command, both parts and then the text are copied.
pub fn status_text(
    alloc: Global,
    to: &Addressee,
    status: &[u8],
    reason: &[u8],
) -> Result<Bytes, Memory>
    requires status { length status.now ≤ 16 }
    requires reason { length reason.now ≤ 16 }
    ensures text { IfOk result (λ text. text ≡ spec.response_text
        (spec.status_response to.now.command to.now.id status.now reason.now)) }
    ensures is_text { IfOk result IsPacketText }
{
    let response = responses::status(alloc, to, status, reason)?;
    responses::text(alloc, response)
}

/// The text of a response to a command that succeeds or does not: `success` is `1` or `0`.
///
/// It answers that it is out of memory where a copy or the text has no room; the name and the id of the command and
/// then the text are copied.
pub fn success_text(alloc: Global, to: &Addressee, success: bool) -> Result<Bytes, Memory>
    ensures text { IfOk result (λ text. text ≡ spec.response_text
        (spec.success_response to.now.command to.now.id success)) }
    ensures is_text { IfOk result IsPacketText }
{
    let response = responses::success(alloc, to, success)?;
    responses::text(alloc, response)
}

/// The text of a response to a command that asks for a feature: its name, whether it is supported (`1` or `0`), and
/// its value, if it has one.
///
/// The name has no more bytes than a command may have, `supported` at most 16, and the value as many as the longest of
/// a feature. It answers that it is out of memory where a copy or the text has no room; the name and the id of the
/// command, the name of the feature and then the text are copied, and the value is taken.
pub fn feature_text(
    alloc: Global,
    to: &Addressee,
    feature: &[u8],
    supported: &[u8],
    value: Option<Bytes>,
) -> Result<Bytes, Memory>
    requires feature { length feature.now ≤ command_limit }
    requires supported { length supported.now ≤ 16 }
    requires value { IfSome value (λ text. length text ≤ value_limit) }
    ensures text { IfOk result (λ text. text ≡ spec.response_text
        (spec.feature_response to.now.command to.now.id feature.now supported.now value)) }
    ensures is_text { IfOk result IsPacketText }
{
    let response = responses::feature(alloc, to, feature, supported, value)?;
    responses::text(alloc, response)
}

/// The text of a response to a command that is refused: an error with this code and its message.
///
/// It answers that it is out of memory where a copy or the text has no room; the name and the id of the command and
/// then the text are copied.
pub fn fault_text(alloc: Global, to: &Addressee, code: ErrorCode) -> Result<Bytes, Memory>
    ensures text { IfOk result (λ text. text ≡ spec.response_text
        (spec.fault_response to.now.command to.now.id code)) }
    ensures is_text { IfOk result IsPacketText }
{
    let response = responses::fault(alloc, to, code)?;
    responses::text(alloc, response)
}
