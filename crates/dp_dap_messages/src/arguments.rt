//! What a request asks for, by its arguments.

ghost use Rattle.std.specs.Prelude.{◌≡◌, [], IfOk, None, Some, codes, option_map};
ghost use Rattle.serde_json.specs.View.{view, items_view};
ghost use Rattle.dp_bodies.specs.Requests.{whole};
ghost use Rattle.dp_dap_messages.specs.Arguments as spec;

use crate::table::RequestName;
use dp_bodies::{php_text, whole};
use dp_bytes::{Bytes, Items, Memory};
use dp_command::{Continuation, number_of};
use serde_json::Value;
use std::alloc::Global;

/// The hit at which a breakpoint stops.
#[derive(Clone, Copy, Debug, PartialEq, Eq)]
pub enum Hits {
    /// It stops at each hit.
    Any,
    /// It stops at this hit alone; 0 is each.
    On(u32),
    /// What was asked for is no number.
    Bad,
}

/// A breakpoint that is asked for.
#[derive(Debug, Drop)]
pub struct Asked {
    pub line: u32,
    pub condition: Option<Bytes>,
    pub hits: Hits,
}

/// What a request asks for.
#[derive(Debug, Drop)]
pub enum Wish {
    Initialize,
    /// Whether to stop on entry.
    Launch(bool),
    ConfigurationDone,
    SetExceptionBreakpoints,
    /// The path of the file, and the breakpoints in it.
    SetBreakpoints(Bytes, Items<Asked>),
    Threads,
    /// The first frame, and the most frames: 0 are all.
    StackTrace(u32, u32),
    Scopes(u32),
    Variables(u32),
    GoOn(Continuation),
    Evaluate(Bytes),
    /// Whether the program runs on by itself.
    Disconnect(bool),
}

/// The argument of this name.
fn given<'v>(name: &str, arguments: Option<&'v Value>) -> Option<&'v Value>
    ensures { option_map (λ v. view v.now) result ≡ spec.given name.now (option_map (λ v. view v.now) arguments.entry) }
{
    match arguments {
        Some(value) => value.get(name),
        None => None,
    }
}

/// A number that has to be given.
fn needed_number(name: &str, arguments: Option<&Value>) -> Option<u32>
    ensures { result ≡ spec.needed whole name.now (option_map (λ v. view v.now) arguments.entry) }
{
    match given(name, arguments) {
        Some(value) => whole(value),
        None => None,
    }
}

/// A number that is 0 where it is missing.
fn optional_number(name: &str, arguments: Option<&Value>) -> Option<u32>
    ensures { result ≡ spec.optional 0 whole name.now (option_map (λ v. view v.now) arguments.entry) }
{
    match given(name, arguments) {
        Some(value) => whole(value),
        None => Some(0),
    }
}

/// A text without a character above U+00FF.
fn text_in(alloc: Global, value: &Value) -> Result<Option<Bytes>, Memory>
    ensures { IfOk result (λ text. text ≡ spec.text (view value.now)) }
{
    match value.as_str() {
        Some(text) => php_text(alloc, text),
        None => Ok(None),
    }
}

/// A text that has to be given.
fn needed_text(
    alloc: Global,
    name: &str,
    arguments: Option<&Value>,
) -> Result<Option<Bytes>, Memory>
    ensures { IfOk result (λ text.
        text ≡ spec.needed spec.text name.now (option_map (λ v. view v.now) arguments.entry)) }
{
    match given(name, arguments) {
        Some(value) => text_in(alloc, value),
        None => Ok(None),
    }
}

/// A text that may be missing: `None` where it is given and none.
fn optional_text(alloc: Global, name: &str, value: &Value) -> Result<Option<Option<Bytes>>, Memory>
    ensures { IfOk result (λ text. text ≡ spec.optional None spec.some_text name.now (Some (view value.now))) }
{
    match value.get(name) {
        Some(found) => match text_in(alloc, found)? {
            Some(text) => Ok(Some(Some(text))),
            None => Ok(None),
        },
        None => Ok(Some(None)),
    }
}

/// Whether this truth value is given.
fn is_flag(wanted: bool, name: &str, arguments: Option<&Value>) -> bool
    ensures { result ≡ spec.is_flag wanted name.now (option_map (λ v. view v.now) arguments.entry) }
{
    match given(name, arguments).and_then(Value::as_bool) {
        Some(flag) => flag == wanted,
        None => false,
    }
}

/// The hit at which it stops.
fn hits_of(words: Option<Bytes>) -> Hits
    ensures { result ≡ spec.hits_of words }
{
    match words {
        None => Hits::Any,
        Some(words) => match number_of(words.as_slice()) {
            Some(number) => Hits::On(number),
            None => Hits::Bad,
        },
    }
}

/// A breakpoint that is asked for.
fn breakpoint_in(alloc: Global, value: &Value) -> Result<Option<Asked>, Memory>
    ensures { IfOk result (λ asked. asked ≡ spec.breakpoint_in (view value.now)) }
{
    let Some(line) = needed_number("line", Some(value)) else {
        return Ok(None);
    };
    let Some(condition) = optional_text(alloc, "condition", value)? else {
        return Ok(None);
    };
    let Some(words) = optional_text(alloc, "hitCondition", value)? else {
        return Ok(None);
    };
    let hits = hits_of(words);
    Ok(Some(Asked {
        line,
        condition,
        hits,
    }))
}

/// The breakpoints that are asked for.
#[tactic(auto, using(crate::proofs::ArgumentLaws::one_more))]
fn all_in(alloc: Global, values: &[Value]) -> Result<Option<Items<Asked>>, Memory>
    ensures { IfOk result (λ asked. asked ≡ spec.breakpoints_in (items_view values.now)) }
{
    let mut all = Vec::new(alloc);
    for value in values {
        match breakpoint_in(alloc, value)? {
            Some(asked) => all.push(asked)?,
            None => return Ok(None),
        }
    }
    Ok(Some(Items::of(all)))
}

/// The list of breakpoints that is asked for: the empty one where it is missing.
fn breakpoints_in(alloc: Global, arguments: Option<&Value>) -> Result<Option<Items<Asked>>, Memory>
    ensures { IfOk result (λ asked. asked
        ≡ spec.optional [] spec.breakpoints (codes "breakpoints") (option_map (λ v. view v.now) arguments.entry)) }
{
    match given("breakpoints", arguments) {
        Some(value) => match value.as_array() {
            Some(values) => all_in(alloc, values.as_slice()),
            None => Ok(None),
        },
        None => Ok(Some(Items::of(Vec::new(alloc)))),
    }
}

/// What setBreakpoints asks for.
fn breakpoints_wish(alloc: Global, arguments: Option<&Value>) -> Result<Option<Wish>, Memory>
    ensures { IfOk result (λ wish. wish
        ≡ spec.wish_of RequestName.SetBreakpoints (option_map (λ v. view v.now) arguments.entry)) }
{
    let Some(path) = needed_text(alloc, "path", given("source", arguments))? else {
        return Ok(None);
    };
    match breakpoints_in(alloc, arguments)? {
        Some(asked) => Ok(Some(Wish::SetBreakpoints(path, asked))),
        None => Ok(None),
    }
}

/// What stackTrace asks for.
fn stack_wish(arguments: Option<&Value>) -> Option<Wish>
    ensures { result ≡ spec.wish_of RequestName.StackTrace (option_map (λ v. view v.now) arguments.entry) }
{
    let first = optional_number("startFrame", arguments)?;
    let most = optional_number("levels", arguments)?;
    Some(Wish::StackTrace(first, most))
}

/// What scopes asks for.
fn scopes_wish(arguments: Option<&Value>) -> Option<Wish>
    ensures { result ≡ spec.wish_of RequestName.Scopes (option_map (λ v. view v.now) arguments.entry) }
{
    let frame = needed_number("frameId", arguments)?;
    Some(Wish::Scopes(frame))
}

/// What variables asks for.
fn variables_wish(arguments: Option<&Value>) -> Option<Wish>
    ensures { result ≡ spec.wish_of RequestName.Variables (option_map (λ v. view v.now) arguments.entry) }
{
    let reference = needed_number("variablesReference", arguments)?;
    Some(Wish::Variables(reference))
}

/// Whether no frame is given, or the first one.
fn is_first_frame(arguments: Option<&Value>) -> bool
    ensures { result ≡ spec.is_first_frame (option_map (λ v. view v.now) arguments.entry) }
{
    match given("frameId", arguments) {
        Some(value) => match whole(value) {
            Some(number) => number == 1,
            None => false,
        },
        None => true,
    }
}

/// What evaluate asks for.
fn evaluation_wish(alloc: Global, arguments: Option<&Value>) -> Result<Option<Wish>, Memory>
    ensures { IfOk result (λ wish. wish
        ≡ spec.wish_of RequestName.Evaluate (option_map (λ v. view v.now) arguments.entry)) }
{
    if !is_first_frame(arguments) {
        return Ok(None);
    }
    match needed_text(alloc, "expression", arguments)? {
        Some(expression) => Ok(Some(Wish::Evaluate(expression))),
        None => Ok(None),
    }
}

/// What a request asks for, unless its arguments are bad.
pub fn read_wish(
    alloc: Global,
    name: RequestName,
    arguments: Option<&Value>,
) -> Result<Option<Wish>, Memory>
    ensures { IfOk result (λ wish. wish ≡ spec.wish_of name (option_map (λ v. view v.now) arguments.entry)) }
{
    match name {
        RequestName::Initialize => Ok(Some(Wish::Initialize)),
        RequestName::Launch => Ok(Some(Wish::Launch(is_flag(true, "stopOnEntry", arguments)))),
        RequestName::ConfigurationDone => Ok(Some(Wish::ConfigurationDone)),
        RequestName::SetExceptionBreakpoints => Ok(Some(Wish::SetExceptionBreakpoints)),
        RequestName::SetBreakpoints => breakpoints_wish(alloc, arguments),
        RequestName::Threads => Ok(Some(Wish::Threads)),
        RequestName::StackTrace => Ok(stack_wish(arguments)),
        RequestName::Scopes => Ok(scopes_wish(arguments)),
        RequestName::Variables => Ok(variables_wish(arguments)),
        RequestName::Continue => Ok(Some(Wish::GoOn(Continuation::Run))),
        RequestName::Next => Ok(Some(Wish::GoOn(Continuation::StepOver))),
        RequestName::StepIn => Ok(Some(Wish::GoOn(Continuation::StepInto))),
        RequestName::StepOut => Ok(Some(Wish::GoOn(Continuation::StepOut))),
        RequestName::Evaluate => evaluation_wish(alloc, arguments),
        RequestName::Disconnect => Ok(Some(Wish::Disconnect(is_flag(
            false,
            "terminateDebuggee",
            arguments,
        )))),
    }
}
