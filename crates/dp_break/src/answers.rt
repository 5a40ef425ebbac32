//! The answers to breakpoint commands.

ghost use Rattle.std.specs.Prelude.{◌≡◌, ◌<◌, ◌≤◌, Err, None, false, length, map, IfErr, IfOk, IfSome, OnOk};
ghost use Rattle.dp_break.specs.Changes.{held_as, with_change};
ghost use Rattle.dp_break.specs.Causes.{IsCause};
ghost use Rattle.dp_break.specs.Updates.{change};
ghost use Rattle.dp_break.specs.Commands as spec;
ghost use Rattle.dp_break.specs.Notices.{breakpoint_notice};
ghost use Rattle.dp_packet.specs.declared.packet.Packet.TheVariants as packet;
ghost use Rattle.dp_packet.specs.Packets.{HasMessage};
ghost use Rattle.dp_packet.specs.Text.{text};
ghost use Rattle.dp_tree.specs.FileNames.{AreFileNames};
ghost use Rattle.dp_wire.specs.Frames.{packet_limit};

use crate::breaks::Breaks;
use crate::change::breakpoint_change;
use crate::errors::BreakError;
use crate::lists::{list_response, one_response};
use crate::notices::{id_meant, line_asked, notice};
use crate::request::breakpoint_request;
use crate::responses::{bare_response, set_response};
use crate::wishes::{Answered, Wishes};
use dp_command::{Addressee, BreakpointAction, BreakpointRequest, BreakpointSet, BreakpointUpdate};
use dp_packet::{ErrorCode, Response};
use dp_tree::Bundle;
use std::alloc::Global;

/// Holds the breakpoint that is asked for.
fn set_breakpoint(
    alloc: Global,
    bundle: &Bundle,
    here: u32,
    to: &Addressee,
    set: BreakpointSet,
    breaks: &mut Breaks,
    resolve: bool,
) -> Result<Response, BreakError>
    requires files { length bundle.now.files ≤ u32.MAX }
    requires here { here < length bundle.now.files }
    ensures response { IfOk result (λ r. r
        ≡ spec.breakpoint_response resolve bundle.now to.now.command to.now.id breaks.old (BreakpointRequest.Set set)) }
    ensures accepted { OnOk result (spec.set_refusal resolve bundle.now here breaks.old set ≡ None) }
    ensures table { OnOk result (breaks.new ≡ spec.set_table resolve bundle.now here set breaks.old) }
    ensures refused { IfErr result (IsCause (spec.set_refusal resolve bundle.now here breaks.old set)) }
    ensures surely { spec.names_uri (BreakpointRequest.Set set) ≡ false
        → IfSome (spec.plain_set_refusal resolve bundle.now here breaks.old set) (λ code.
        result ≡ Err (BreakError.Code code)) }
    ensures unchanged { (code : ErrorCode) → result ≡ Err (BreakError.Code code) → breaks.new ≡ breaks.old }
    ensures short { IfOk result (λ r. length (text (packet.Response r)) ≤ packet_limit) }
{
    let request = breakpoint_request(alloc, bundle, here, set)?;
    let enabled = request.enabled;
    let resolved = resolve && request.line.is_some();
    let id = breaks.add(bundle, request, resolve)?;
    Ok(set_response(alloc, to, enabled, id, resolved)?)
}

/// Shows or takes out the breakpoint of this id.
fn act_on_breakpoint(
    alloc: Global,
    bundle: &Bundle,
    to: &Addressee,
    action: BreakpointAction,
    id: u32,
    breaks: &mut Breaks,
) -> Result<Response, BreakError>
    requires { AreFileNames (map (λ f. f.name) bundle.now.files) }
    ensures response { IfOk result (λ r. r
        ≡ spec.action_response bundle.now to.now.command to.now.id action (held_as breaks.old.held id)) }
    ensures accepted { OnOk result (spec.id_refusal breaks.old id ≡ None) }
    ensures table { OnOk result (breaks.new ≡ spec.acted_on action id breaks.old) }
    ensures refused { IfErr result (IsCause (spec.id_refusal breaks.old id)) }
    ensures surely { IfSome (spec.id_refusal breaks.old id) (λ code. result ≡ Err (BreakError.Code code)) }
    ensures unchanged { (code : ErrorCode) → result ≡ Err (BreakError.Code code) → breaks.new ≡ breaks.old }
    ensures short { IfOk result (λ r. length (text (packet.Response r)) ≤ packet_limit) }
{
    let Some(breakpoint) = breaks.get(id) else {
        return Err(BreakError::Code(ErrorCode::NoSuchBreakpoint));
    };
    match action {
        BreakpointAction::Get => Ok(one_response(alloc, bundle, to, breakpoint)?),
        BreakpointAction::Remove => {
            breaks.remove(id);
            Ok(bare_response(alloc, to)?)
        }
    }
}

/// Changes a breakpoint.
fn update_breakpoint(
    alloc: Global,
    bundle: &Bundle,
    to: &Addressee,
    update: &BreakpointUpdate,
    breaks: &mut Breaks,
    resolve: bool,
) -> Result<Response, BreakError>
    ensures response { IfOk result (λ r. r ≡ spec.bare_response to.now.command to.now.id) }
    ensures accepted { OnOk result (spec.update_refusal resolve bundle.now breaks.old update.now ≡ None) }
    ensures table { OnOk result
        (breaks.new ≡ with_change resolve bundle.now update.now.id (change update.now) breaks.old) }
    ensures refused { IfErr result (IsCause (spec.update_refusal resolve bundle.now breaks.old update.now)) }
    ensures surely { IfSome (spec.update_refusal resolve bundle.now breaks.old update.now) (λ code.
        result ≡ Err (BreakError.Code code)) }
    ensures unchanged { (code : ErrorCode) → result ≡ Err (BreakError.Code code) → breaks.new ≡ breaks.old }
    ensures short { IfOk result (λ r. length (text (packet.Response r)) ≤ packet_limit) }
{
    let Some(breakpoint) = breaks.get(update.id) else {
        return Err(BreakError::Code(ErrorCode::NoSuchBreakpoint));
    };
    let change = breakpoint_change(breakpoint.kind, update)?;
    breaks.update(bundle, update.id, change, resolve)?;
    Ok(bare_response(alloc, to)?)
}

/// Does what a breakpoint command asks for, and makes its response.
fn respond(
    alloc: Global,
    bundle: &Bundle,
    here: u32,
    to: &Addressee,
    request: BreakpointRequest,
    breaks: &mut Breaks,
    resolve: bool,
) -> Result<Response, BreakError>
    requires names { AreFileNames (map (λ f. f.name) bundle.now.files) }
    requires here { here < length bundle.now.files }
    ensures response { IfOk result (λ r. r
        ≡ spec.breakpoint_response resolve bundle.now to.now.command to.now.id breaks.old request) }
    ensures accepted { OnOk result (spec.breakpoint_refusal resolve bundle.now here breaks.old request ≡ None) }
    ensures table { OnOk result (breaks.new ≡ spec.breakpoint_table resolve bundle.now here request breaks.old) }
    ensures refused { IfErr result (IsCause (spec.breakpoint_refusal resolve bundle.now here breaks.old request)) }
    // Out of memory comes before a refusal only where a URI is to be decoded, or an expression is to be read.
    ensures surely { spec.names_uri request ≡ false
        → IfSome (spec.plain_breakpoint_refusal resolve bundle.now here breaks.old request) (λ code.
        result ≡ Err (BreakError.Code code)) }
    ensures unchanged { (code : ErrorCode) → result ≡ Err (BreakError.Code code) → breaks.new ≡ breaks.old }
    // A packet can be made of it.
    ensures known { IfOk result (λ r. HasMessage (packet.Response r)) }
    ensures short { IfOk result (λ r. length (text (packet.Response r)) ≤ packet_limit) }
{
    match request {
        BreakpointRequest::Set(set) => {
            set_breakpoint(alloc, bundle, here, to, set, breaks, resolve)
        }
        BreakpointRequest::One { action, id } => {
            act_on_breakpoint(alloc, bundle, to, action, id, breaks)
        }
        BreakpointRequest::Update(update) => {
            update_breakpoint(alloc, bundle, to, &update, breaks, resolve)
        }
        BreakpointRequest::List => Ok(list_response(alloc, bundle, to, breaks.list())?),
    }
}

/// Does what a breakpoint command asks for, at a moment in the file of this number, and answers it. DBGp 1.0,
/// "breakpoint_set", "breakpoint_get", "breakpoint_update", "breakpoint_remove", "breakpoint_list".
///
/// It is refused with the first code of its row whose test holds, and then nothing has changed: breakpoint_set with
/// 201, 3, 204, 200, 202, 203 or 207; breakpoint_update with 205, 3, 204, 202 or 203; breakpoint_get and
/// breakpoint_remove with 205. A list ends before the first breakpoint with which its text would have more than
/// 16,777,216 bytes. Where it is wished that lines may move, a breakpoint goes to the next line that has code, from
/// that which was asked for on, and 203 is for a line where that is none; and where that is to be told, news of each
/// that went to another line than the one that was asked for goes before the response. Once memory ran out nothing is
/// said of the breakpoints.
pub fn answer_breakpoints(
    alloc: Global,
    bundle: &Bundle,
    here: u32,
    to: &Addressee,
    request: BreakpointRequest,
    breaks: &mut Breaks,
    wishes: Wishes,
) -> Result<Answered, BreakError>
    requires names { AreFileNames (map (λ f. f.name) bundle.now.files) }
    requires here { here < length bundle.now.files }
    ensures response { IfOk result (λ a. a.response
        ≡ spec.breakpoint_response wishes.resolve bundle.now to.now.command to.now.id breaks.old request) }
    ensures notice { IfOk result (λ a. a.notice
        ≡ breakpoint_notice wishes bundle.now here breaks.old request) }
    ensures accepted { OnOk result (spec.breakpoint_refusal wishes.resolve bundle.now here breaks.old request ≡ None) }
    ensures table { OnOk result (breaks.new ≡ spec.breakpoint_table wishes.resolve bundle.now here request breaks.old) }
    ensures refused { IfErr result
        (IsCause (spec.breakpoint_refusal wishes.resolve bundle.now here breaks.old request)) }
    // Out of memory comes before a refusal only where a URI is to be decoded, or an expression is to be read.
    ensures surely { spec.names_uri request ≡ false
        → IfSome (spec.plain_breakpoint_refusal wishes.resolve bundle.now here breaks.old request) (λ code.
        result ≡ Err (BreakError.Code code)) }
    ensures unchanged { (code : ErrorCode) → result ≡ Err (BreakError.Code code) → breaks.new ≡ breaks.old }
    // A packet can be made of it.
    ensures known { IfOk result (λ a. HasMessage (packet.Response a.response)) }
    ensures short { IfOk result (λ a. length (text (packet.Response a.response)) ≤ packet_limit) }
    ensures notice_short { IfOk result (λ a. IfSome a.notice (λ n.
        length (text (packet.Notify n)) ≤ packet_limit)) }
{
    let asked = line_asked(&request);
    let id = id_meant(&request, breaks);
    let response = respond(alloc, bundle, here, to, request, breaks, wishes.resolve)?;
    let notice = if wishes.notify {
        notice(alloc, bundle, asked, id, breaks)?
    } else {
        None
    };
    Ok(Answered { notice, response })
}
