//! What a command tells, where nothing else is done for it.
ghost use Rattle.std.specs.Prelude.{◌≡◌, ◌≤◌, codes, length, is_some, option_to_list, IfOk, IfSome, None, Some};
ghost use Rattle.std.specs.List.{AllByRecursion};
ghost use Rattle.dp_command.specs.Names.{name_of};
ghost use Rattle.dp_features.specs.Features.{feature_named};
ghost use Rattle.dp_packet.specs.Parts.{flag};
ghost use Rattle.dp_wire.specs.Frames.{IsPacketText, command_limit};
ghost use Rattle.dp_engine.specs.Answers as spec;
ghost use Rattle.dp_engine.specs.Responses.{fault_response, status_response};
ghost use Rattle.dp_engine.specs.States.{phase_name, reason_name};
ghost use Rattle.dp_engine.specs.inner.Sizes.{Fits, HasRoom};
ghost use Rattle.dp_engine.specs.inner.Position.{phase_of, reason_at};
ghost use Rattle.dp_engine.specs.inner.Turns.{Responds, Tells};

use crate::responses;
use crate::session::SessionEnd;
use crate::states::Position;
use dp_break::Answered;
use dp_bytes::{Bytes, Memory};
use dp_command::{Addressee, CommandName};
use dp_features::{Feature, Features};
use dp_packet::{ErrorCode, Notify, Packet, Response, text_of};
use std::alloc::Global;

/// What one command tells, and how it has ended its session, if it has.
#[derive(Debug, Drop)]
pub(crate) struct Turn {
    /// The news that go before its response.
    pub(crate) before: Option<Notify>,
    pub(crate) response: Response,
    pub(crate) ended: Option<SessionEnd>,
}

/// A response, after which the session has ended so, or goes on.
fn turn_with(response: Response, ended: Option<SessionEnd>) -> Turn
    requires { Fits response }
    ensures { Responds response ended result }
{
    Turn {
        before: None,
        response,
        ended,
    }
}

/// A response behind news, if there are any, after which the session goes on.
pub(crate) fn tell_behind(answered: Answered) -> Turn
    requires fits { Fits answered.response }
    requires room { IfSome answered.notice HasRoom }
    ensures { Tells answered.notice answered.response None result }
{
    let Answered { notice, response } = answered;
    Turn {
        before: notice,
        response,
        ended: None,
    }
}

/// A response, after which the session goes on.
pub(crate) fn tell(response: Response) -> Turn
    requires { Fits response }
    ensures { Responds response None result }
{
    turn_with(response, None)
}

/// The text of news, if there are any.
pub(crate) fn news(alloc: Global, notice: Option<Notify>) -> Result<Option<Bytes>, Memory>
    requires { IfSome notice HasRoom }
    ensures value { IfOk result (λ before. option_to_list before ≡ spec.news notice) }
    ensures are_texts { IfOk result (λ before. AllByRecursion IsPacketText (option_to_list before)) }
{
    match notice {
        None => Ok(None),
        Some(notice) => Ok(Some(text_of(alloc, &Packet::Notify(notice))?)),
    }
}

/// An error with this code.
pub(crate) fn refuse(alloc: Global, to: &Addressee, code: ErrorCode) -> Result<Turn, Memory>
    ensures { IfOk result (Responds (fault_response to.now.command to.now.id code) None) }
{
    let response = responses::fault(alloc, to, code)?;
    Ok(tell(response))
}

/// The state and the reason of a session that stands so.
pub(crate) fn tell_status(alloc: Global, to: &Addressee, position: Position) -> Result<Turn, Memory>
    ensures { IfOk result (Responds (status_response to.now.command to.now.id
        (phase_name (phase_of position)) (reason_name (reason_at position))) None) }
{
    let status = position.phase().name();
    let reason = position.reason().name();
    let response = responses::status(alloc, to, status, reason)?;
    Ok(tell(response))
}

/// A feature's value, or whether there is a command of this name.
pub(crate) fn tell_feature(
    alloc: Global,
    to: &Addressee,
    features: &Features,
    feature: &[u8],
) -> Result<Turn, Memory>
    requires { length feature.now ≤ command_limit }
    ensures { IfOk result (Responds (spec.feature_known to.now.command to.now.id feature.now features.now) None) }
{
    match Feature::of(feature) {
        Some(found) => tell_value(alloc, to, features, feature, found),
        None => tell_command(alloc, to, features, feature),
    }
}

/// A feature's value.
fn tell_value(
    alloc: Global,
    to: &Addressee,
    features: &Features,
    feature: &[u8],
    found: Feature,
) -> Result<Turn, Memory>
    requires feature { length feature.now ≤ command_limit }
    requires found { feature_named feature.now ≡ Some found }
    ensures { IfOk result (Responds (spec.feature_known to.now.command to.now.id feature.now features.now) None) }
{
    let value = features.value(alloc, found)?;
    let response = responses::feature(alloc, to, feature, b"1", Some(value))?;
    Ok(tell(response))
}

/// Whether there is a command of a name that no feature has.
fn tell_command(
    alloc: Global,
    to: &Addressee,
    features: &Features,
    feature: &[u8],
) -> Result<Turn, Memory>
    requires feature { length feature.now ≤ command_limit }
    requires absent { feature_named feature.now ≡ None }
    ensures { IfOk result (Responds (spec.feature_known to.now.command to.now.id feature.now features.now) None) }
{
    let supported = supported(feature);
    let response = responses::feature(alloc, to, feature, supported, None)?;
    Ok(tell(response))
}

/// `1` if a command has this name, else `0`.
fn supported(name: &[u8]) -> &'static [u8]
    ensures text { result.now ≡ flag (is_some (name_of name.now)) }
    ensures short { length result.now ≤ 16 }
{
    responses::flag(CommandName::of(name).is_some())
}

/// The session has stopped, and ends so.
pub(crate) fn stop(alloc: Global, to: &Addressee, end: SessionEnd) -> Result<Turn, Memory>
    ensures { IfOk result (Responds (spec.stopped_response to.now.command to.now.id) (Some end)) }
{
    let response = responses::status(alloc, to, b"stopped", b"ok")?;
    Ok(turn_with(response, Some(end)))
}

/// The session ends, and the program runs on by itself.
pub(crate) fn detach(alloc: Global, to: &Addressee) -> Result<Turn, Memory>
    ensures { IfOk result (Responds
        (status_response to.now.command to.now.id (codes "stopping") (codes "ok")) (Some SessionEnd.Detached)) }
{
    let response = responses::status(alloc, to, b"stopping", b"ok")?;
    Ok(turn_with(response, Some(SessionEnd::Detached)))
}
