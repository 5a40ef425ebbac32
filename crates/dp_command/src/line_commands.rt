//! The typed command that a line is.

ghost use Rattle.std.specs.Prelude.{◌≡◌, Err, Some, IfNone, IfOk, IfSome, IsFalse, IsTrue, MatchResult, [], unwrap_or};
ghost use Rattle.dp_command.specs.Commands as spec;
ghost use Rattle.dp_command.specs.Letters as letter;
ghost use Rattle.dp_command.specs.Options.{mode_given, number_or_zero};
ghost use Rattle.dp_command.specs.Refusals.{code_of, first_refusal, fits_row, is_id};

use crate::command::{
    BreakpointAction, BreakpointRequest, BreakpointSet, BreakpointUpdate, Command, Continuation,
    Finish, LookRequest, PropertyPlace, PropertySet, Request, SessionRequest, SourceRange, Stream,
    WriteRequest,
};
use crate::errors::{CommandError, Refusal};
use crate::line::Line;
use crate::names::CommandName;
use crate::options::{copy_of, mode_given, number_given, number_or_zero, text_given};
use crate::refusals::{fits_row, id_of};
use dp_bytes::{Bytes, Memory};
use std::alloc::Global;

impl Command {
    /// The typed command of this name that a line is, or code 3 where its options or its payload
    /// are not those of the name's row. A refusal takes no memory. DBGp 1.0, "Core Commands",
    /// "Extended Commands".
    pub fn read(alloc: Global, line: &Line, name: CommandName) -> Result<Command, CommandError>
        // A line that does not fit the row is always answered with the code.
        ensures refused { IsFalse (fits_row name line.now)
            → result ≡ Err (CommandError.Code (code_of Refusal.InvalidOptions)) }
        // A line that fits it is always answered with its command, unless memory runs out.
        ensures accepted { IsTrue (fits_row name line.now) → MatchResult result
            (λ command. command ≡ spec.command_as line.now name) (λ e. e ≡ CommandError.Memory) }
    {
        if !fits_row(name, line) {
            return Err(CommandError::Code(Refusal::InvalidOptions.code()));
        }
        command_as(alloc, line, name)
    }

    /// The typed command that a line is, or the code of its first refusal: 2, 4 or 3. It is
    /// `CommandName::admit` and then `Command::read`. A refusal takes no memory.
    pub fn of(alloc: Global, line: &Line) -> Result<Command, CommandError>
        // A line that has a refusal is always answered with the code of the first.
        ensures refused { IfSome (first_refusal line.now)
            (λ refusal. result ≡ Err (CommandError.Code (code_of refusal))) }
        // A line that has none is always answered with its command, unless memory runs out.
        ensures accepted { IfNone (first_refusal line.now) (MatchResult result
            (λ command. spec.command_of line.now ≡ Some command)
            (λ e. e ≡ CommandError.Memory)) }
        // The id of a command is one.
        ensures id { IfOk result (λ command. IsTrue (is_id command.id)) }
    {
        match CommandName::admit(line) {
            Err(refusal) => Err(CommandError::Code(refusal.code())),
            Ok(name) => Command::read(alloc, line, name),
        }
    }
}

/// The typed command of this name that a line is: its transaction id and its request.
fn command_as(alloc: Global, line: &Line, name: CommandName) -> Result<Command, CommandError>
    ensures { MatchResult result
        (λ command. command ≡ spec.command_as line.now name) (λ e. e ≡ CommandError.Memory) }
{
    let id = Bytes::from_slice(alloc, id_of(line))?;
    let request = request_of(alloc, name, line)?;
    Ok(Command { id, request })
}

/// The request of the command of this name that a line is.
#[tactic(auto, unfolding(crate::specs::Commands::request_of))]
fn request_of(alloc: Global, name: CommandName, line: &Line) -> Result<Request, Memory>
    ensures { IfOk result (λ request. request ≡ spec.request_of name line.now) }
{
    match name {
        CommandName::Status => Ok(Request::Session(SessionRequest::Status)),
        CommandName::FeatureGet => feature_get(alloc, line),
        CommandName::FeatureSet => feature_set(alloc, line),
        CommandName::Run => Ok(Request::Session(SessionRequest::Continue(Continuation::Run))),
        CommandName::StepInto => Ok(Request::Session(SessionRequest::Continue(
            Continuation::StepInto,
        ))),
        CommandName::StepOver => Ok(Request::Session(SessionRequest::Continue(
            Continuation::StepOver,
        ))),
        CommandName::StepOut => Ok(Request::Session(SessionRequest::Continue(
            Continuation::StepOut,
        ))),
        CommandName::Stop => Ok(Request::Session(SessionRequest::Finish(Finish::Stop))),
        CommandName::Detach => Ok(Request::Session(SessionRequest::Finish(Finish::Detach))),
        CommandName::BreakpointSet => breakpoint_set(alloc, line),
        CommandName::BreakpointGet => Ok(breakpoint(BreakpointAction::Get, line)),
        CommandName::BreakpointRemove => Ok(breakpoint(BreakpointAction::Remove, line)),
        CommandName::BreakpointUpdate => breakpoint_update(alloc, line),
        CommandName::BreakpointList => Ok(Request::Breakpoints(BreakpointRequest::List)),
        CommandName::StackDepth => Ok(Request::Look(LookRequest::StackDepth)),
        CommandName::StackGet => Ok(stack_get(line)),
        CommandName::ContextNames => Ok(Request::Look(LookRequest::ContextNames)),
        CommandName::ContextGet => Ok(context_get(line)),
        CommandName::PropertyGet => property_get(alloc, line),
        CommandName::PropertyValue => property_value(alloc, line),
        CommandName::PropertySet => property_set(alloc, line),
        CommandName::Source => source(alloc, line),
        CommandName::Stdout => Ok(redirect(Stream::Stdout, line)),
        CommandName::Stderr => Ok(redirect(Stream::Stderr, line)),
        CommandName::Eval => eval(alloc, line),
    }
}

/// The request of `feature_get`: the name in `-n`.
#[tactic(auto, unfolding(crate::specs::Commands::request_of))]
fn feature_get(alloc: Global, line: &Line) -> Result<Request, Memory>
    ensures { IfOk result (λ r. r ≡ spec.request_of CommandName.FeatureGet line.now) }
{
    let name = text_given(alloc, line.options.as_slice(), b'n')?;
    Ok(Request::Session(SessionRequest::FeatureGet { name }))
}

/// The request of `feature_set`: the name in `-n` and the value in `-v`.
#[tactic(auto, unfolding(crate::specs::Commands::request_of))]
fn feature_set(alloc: Global, line: &Line) -> Result<Request, Memory>
    ensures { IfOk result (λ r. r ≡ spec.request_of CommandName.FeatureSet line.now) }
{
    let options = line.options.as_slice();
    let name = text_given(alloc, options, b'n')?;
    let value = text_given(alloc, options, b'v')?;
    Ok(Request::Session(SessionRequest::FeatureSet { name, value }))
}

/// The request of `breakpoint_set`: what its options give, and the payload as its expression.
fn breakpoint_set(alloc: Global, line: &Line) -> Result<Request, Memory>
    ensures { IfOk result (λ r. r ≡ spec.breakpoint_set line.now) }
{
    let options = line.options.as_slice();
    Ok(Request::Breakpoints(BreakpointRequest::Set(BreakpointSet {
        kind: text_given(alloc, options, b't')?,
        state: copy_of(alloc, options, b's')?,
        file: copy_of(alloc, options, b'f')?,
        line: copy_of(alloc, options, b'n')?,
        function: copy_of(alloc, options, b'm')?,
        exception: copy_of(alloc, options, b'x')?,
        hit_value: number_or_zero(options, b'h'),
        hit_rule: copy_of(alloc, options, b'o')?,
        temporary: copy_of(alloc, options, b'r')?,
        expression: payload_of(line)?,
    })))
}

/// A copy of the payload of a line, where it has one.
fn payload_of(line: &Line) -> Result<Option<Bytes>, Memory>
    ensures { IfOk result (λ payload. payload ≡ line.now.payload) }
{
    match &line.payload {
        Some(payload) => Ok(Some(payload.try_clone()?)),
        None => Ok(None),
    }
}

/// A copy of the payload of a line, empty where it has none.
fn payload_text(alloc: Global, line: &Line) -> Result<Bytes, Memory>
    ensures { IfOk result (λ text. text ≡ unwrap_or line.now.payload []) }
{
    match &line.payload {
        Some(payload) => payload.try_clone(),
        None => Ok(Bytes::of(Vec::new(alloc))),
    }
}

/// The request to act so on the breakpoint whose id stands in `-d`.
fn breakpoint(action: BreakpointAction, line: &Line) -> Request
    ensures { result
        ≡ Request.Breakpoints (BreakpointRequest.One action (number_or_zero letter.d line.now.options)) }
{
    let id = number_or_zero(line.options.as_slice(), b'd');
    Request::Breakpoints(BreakpointRequest::One { action, id })
}

/// The request of `breakpoint_update`: the id in `-d`, and what is given to be changed.
fn breakpoint_update(alloc: Global, line: &Line) -> Result<Request, Memory>
    ensures { IfOk result (λ r. r ≡ spec.breakpoint_update line.now.options) }
{
    let options = line.options.as_slice();
    Ok(Request::Breakpoints(BreakpointRequest::Update(BreakpointUpdate {
        id: number_or_zero(options, b'd'),
        state: copy_of(alloc, options, b's')?,
        line: number_given(options, b'n'),
        hit_value: number_given(options, b'h'),
        hit_rule: copy_of(alloc, options, b'o')?,
    })))
}

/// The request of `stack_get`: the level in `-d`, where one is given.
#[tactic(auto, unfolding(crate::specs::Commands::request_of))]
fn stack_get(line: &Line) -> Request
    ensures { result ≡ spec.request_of CommandName.StackGet line.now }
{
    let level = number_given(line.options.as_slice(), b'd');
    Request::Look(LookRequest::StackGet { level })
}

/// The request of `context_get`: the level in `-d` and the context in `-c`, each 0 where it is not given.
#[tactic(auto, unfolding(crate::specs::Commands::request_of))]
fn context_get(line: &Line) -> Request
    ensures { result ≡ spec.request_of CommandName.ContextGet line.now }
{
    let options = line.options.as_slice();
    Request::Look(LookRequest::ContextGet {
        level: number_or_zero(options, b'd'),
        context: number_or_zero(options, b'c'),
    })
}

/// The property that a line names: the name in `-n`, the level in `-d` and the context in `-c`, 0 where not given.
fn place_of(alloc: Global, line: &Line) -> Result<PropertyPlace, Memory>
    ensures { IfOk result (λ place. place ≡ spec.place_of line.now.options) }
{
    let options = line.options.as_slice();
    Ok(PropertyPlace {
        name: text_given(alloc, options, b'n')?,
        level: number_or_zero(options, b'd'),
        context: number_or_zero(options, b'c'),
    })
}

/// The request of `property_get`: the property, the page in `-p`, and the limit of data in `-m`.
#[tactic(auto, unfolding(crate::specs::Commands::request_of))]
fn property_get(alloc: Global, line: &Line) -> Result<Request, Memory>
    ensures { IfOk result (λ r. r ≡ spec.request_of CommandName.PropertyGet line.now) }
{
    let place = place_of(alloc, line)?;
    let options = line.options.as_slice();
    Ok(Request::Look(LookRequest::PropertyGet {
        place,
        page: number_or_zero(options, b'p'),
        max_data: number_given(options, b'm'),
    }))
}

/// The request of `property_value`: the property, and the limit of data in `-m`.
#[tactic(auto, unfolding(crate::specs::Commands::request_of))]
fn property_value(alloc: Global, line: &Line) -> Result<Request, Memory>
    ensures { IfOk result (λ r. r ≡ spec.request_of CommandName.PropertyValue line.now) }
{
    let place = place_of(alloc, line)?;
    let max_data = number_given(line.options.as_slice(), b'm');
    Ok(Request::Look(LookRequest::PropertyValue { place, max_data }))
}

/// The request of `property_set`: the property, the type in `-t`, the length in `-l`, and the payload as value.
fn property_set(alloc: Global, line: &Line) -> Result<Request, Memory>
    ensures { IfOk result (λ r. r ≡ spec.property_set line.now) }
{
    let options = line.options.as_slice();
    Ok(Request::Write(WriteRequest::PropertySet(PropertySet {
        place: place_of(alloc, line)?,
        kind: copy_of(alloc, options, b't')?,
        length: number_given(options, b'l'),
        value: payload_text(alloc, line)?,
    })))
}

/// The request of `source`: the file in `-f`, and the first and the last line in `-b` and `-e`.
fn source(alloc: Global, line: &Line) -> Result<Request, Memory>
    ensures { IfOk result (λ r. r ≡ spec.source line.now.options) }
{
    let options = line.options.as_slice();
    Ok(Request::Look(LookRequest::Source(SourceRange {
        file: copy_of(alloc, options, b'f')?,
        first: number_given(options, b'b'),
        last: number_given(options, b'e'),
    })))
}

/// The request of `stdout` or `stderr`: the stream, and the mode in `-c`.
fn redirect(stream: Stream, line: &Line) -> Request
    ensures { result
        ≡ Request.Session (SessionRequest.Redirect stream (mode_given letter.c line.now.options)) }
{
    let mode = mode_given(line.options.as_slice(), b'c');
    Request::Session(SessionRequest::Redirect { stream, mode })
}

/// The request of `eval`: the payload as its expression.
#[tactic(auto, unfolding(crate::specs::Commands::request_of))]
fn eval(alloc: Global, line: &Line) -> Result<Request, Memory>
    ensures { IfOk result (λ r. r ≡ spec.request_of CommandName.Eval line.now) }
{
    let expression = payload_text(alloc, line)?;
    Ok(Request::Write(WriteRequest::Eval { expression }))
}
