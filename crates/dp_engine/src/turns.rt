//! What commands lead to.
ghost use Rattle.std.specs.Prelude.{◌≡◌, ◌≢◌, ◌+◌, ◌≤◌, length, IfOk, None, Some};
ghost use Rattle.dp_wire.specs.Frames.{command_limit};
ghost use Rattle.dp_engine.specs.Refusals.{refusal_of_line};
ghost use Rattle.dp_engine.specs.Session.{moments_so_far, steps_between};
ghost use Rattle.dp_engine.specs.Wishes.{wishes_of};
ghost use Rattle.dp_engine.specs.ShortLines.{IsShort, IsShortLine};
ghost use Rattle.dp_engine.specs.inner.Sizes.{AreShortNames, IsShortRequest};

use crate::refusals::{feature_refusal, read_command};
use crate::replies::{Turn, detach, refuse, stop, tell, tell_behind, tell_feature, tell_status};
use crate::responses;
use crate::session::{Session, SessionEnd};
use crate::states::{Phase, Position};
use crate::writes::accept;
use dp_break::{BreakError, Wishes, answer_breakpoints};
use dp_bytes::Memory;
use dp_command::{
    Addressee, BreakpointRequest, CommandError, Continuation, Finish, Line, LookRequest, Request,
    SessionRequest, Stream, StreamMode, WriteRequest,
};
use dp_features::{Features, Setting};
use dp_packet::ErrorCode;
use dp_step::Steps;
use dp_view_commands::{ViewError, view_response};
use std::alloc::Global;
use std::sync::ledger::Ledger;

/// What the features say of breakpoints.
fn wishes(features: &Features) -> Wishes
    ensures { result ≡ wishes_of features.now }
{
    Wishes {
        resolve: features.resolves(),
        notify: features.notifies(),
    }
}

impl<'a> Session<'a> {
    ghost use Rattle.dp_engine.specs.Answers as spec;
    ghost use Rattle.dp_engine.specs.Responses.{fault_response};
    ghost use Rattle.dp_engine.specs.inner.Turns.{answered, IsTimely, IsTurn, Responds};

    /// Does what a command line asks for and makes its turn. Bytes that spell no line (`None`) are refused.
    pub(crate) fn turn<L: Ledger>(
        &mut self,
        alloc: Global,
        line: Option<Line>,
        steps: &mut Steps<L>,
    ) -> Result<Turn, Memory>
        requires { IsShortLine line }
        ensures turn { IfOk result (IsTurn (spec.turn_of line (refusal_of_line self.old line) self.old) self.new) }
        ensures steps { IfOk result (λ turn. steps.new ≡ steps.old + steps_between self.old self.new) }
    {
        match line {
            Some(line) => self.turn_on(alloc, &line, steps),
            None => refuse(alloc, &Addressee::nobody(alloc), ErrorCode::ParseError),
        }
    }

    /// The same of a line that was read: its first refusal, or what its request leads to.
    fn turn_on<L: Ledger>(
        &mut self,
        alloc: Global,
        line: &Line,
        steps: &mut Steps<L>,
    ) -> Result<Turn, Memory>
        requires { IsShort line.now }
        ensures turn { IfOk result (IsTurn (spec.turn_of (Some line.now)
            (refusal_of_line self.old (Some line.now)) self.old) self.new) }
        ensures steps { IfOk result (λ turn. steps.new ≡ steps.old + steps_between self.old self.new) }
    {
        let to = Addressee::of(alloc, line)?;
        match read_command(alloc, self.position.phase(), line) {
            Ok(command) => self.perform(alloc, &to, command.request, steps),
            Err(CommandError::Code(code)) => refuse(alloc, &to, code),
            Err(CommandError::Memory) => Err(Memory),
        }
    }

    /// What a request leads to.
    fn perform<L: Ledger>(
        &mut self,
        alloc: Global,
        to: &Addressee,
        request: Request,
        steps: &mut Steps<L>,
    ) -> Result<Turn, Memory>
        requires short { IsShortRequest request }
        requires timely { IsTimely self.old.phase request }
        ensures turn { IfOk result (IsTurn (answered to.now.command to.now.id request self.old) self.new) }
        ensures steps { IfOk result (λ turn. steps.new ≡ steps.old + steps_between self.old self.new) }
    {
        match request {
            Request::Session(request) => self.perform_here(alloc, to, &request, steps),
            Request::Breakpoints(request) => self.perform_on_breakpoints(alloc, to, request),
            Request::Look(request) => self.show(alloc, to, &request),
            Request::Write(request) => self.write(alloc, to, &request),
        }
    }

    /// What a request leads to that is answered from the session.
    fn perform_here<L: Ledger>(
        &mut self,
        alloc: Global,
        to: &Addressee,
        request: &SessionRequest,
        steps: &mut Steps<L>,
    ) -> Result<Turn, Memory>
        requires { AreShortNames request.now }
        ensures turn { IfOk result (IsTurn (answered to.now.command to.now.id (Request.Session request.now) self.old)
            self.new) }
        ensures steps { IfOk result (λ turn. steps.new ≡ steps.old + steps_between self.old self.new) }
    {
        match request {
            SessionRequest::Status => tell_status(alloc, to, self.position),
            SessionRequest::FeatureGet { name: feature } => {
                tell_feature(alloc, to, &self.features, feature.as_slice())
            }
            SessionRequest::FeatureSet {
                name: feature,
                value,
            } => self.put_feature(alloc, to, feature.as_slice(), value.as_slice()),
            SessionRequest::Continue(mode) => self.go_on(alloc, to, *mode, steps),
            SessionRequest::Finish(Finish::Stop) => stop(alloc, to, self.position.end_by_stop()),
            SessionRequest::Finish(Finish::Detach) => detach(alloc, to),
            SessionRequest::Redirect { stream, mode } => self.redirect(alloc, to, *stream, *mode),
        }
    }

    /// What a breakpoint command leads to. The breakpoints are changed at once.
    fn perform_on_breakpoints(
        &mut self,
        alloc: Global,
        to: &Addressee,
        request: BreakpointRequest,
    ) -> Result<Turn, Memory>
        ensures turn { IfOk result (IsTurn (answered to.now.command to.now.id (Request.Breakpoints request) self.old)
            self.new) }
        ensures stays { moments_so_far self.new ≡ moments_so_far self.old }
    {
        let Ok(program) = self.program() else {
            drop(request);
            return Err(Memory);
        };
        let file = program.file();
        let wishes = wishes(&self.features);
        match answer_breakpoints(
            alloc,
            self.bundle,
            file,
            to,
            request,
            &mut self.breaks,
            wishes,
        ) {
            Ok(answered) => Ok(tell_behind(answered)),
            Err(BreakError::Code(code)) => self.refuse(alloc, to, code),
            Err(BreakError::Memory) => Err(Memory),
        }
    }

    /// What is shown of the program, or why it is not.
    fn show(&self, alloc: Global, to: &Addressee, request: &LookRequest) -> Result<Turn, Memory>
        ensures { IfOk result (IsTurn (answered to.now.command to.now.id (Request.Look request.now) self.now)
            self.now) }
    {
        let program = self.program()?;
        let shown = view_response(
            alloc,
            self.bundle,
            program.file(),
            &self.features,
            program,
            to,
            request,
        );
        match shown {
            Ok(response) => Ok(tell(response)),
            Err(ViewError::Code(code)) => refuse(alloc, to, code),
            Err(ViewError::Memory) => Err(Memory),
        }
    }

    /// What a command that writes leads to. The write is made at once.
    fn write(
        &mut self,
        alloc: Global,
        to: &Addressee,
        request: &WriteRequest,
    ) -> Result<Turn, Memory>
        requires { self.old.phase ≡ Phase.Break }
        ensures turn { IfOk result (IsTurn (answered to.now.command to.now.id (Request.Write request.now) self.old)
            self.new) }
        ensures stays { moments_so_far self.new ≡ moments_so_far self.old }
    {
        if self.failed {
            return Err(Memory);
        }
        let made = accept(
            alloc,
            self.bundle,
            &self.features,
            self.machine.state_mut(),
            &mut self.writes,
            self.moment,
            to,
            request,
        );
        match made {
            Ok(response) => Ok(tell(response)),
            Err(ViewError::Code(code)) => self.refuse(alloc, to, code),
            Err(ViewError::Memory) => Err(Memory),
        }
    }

    /// An error changes nothing.
    fn refuse(&self, alloc: Global, to: &Addressee, code: ErrorCode) -> Result<Turn, Memory>
        ensures { IfOk result (Responds (fault_response to.now.command to.now.id code) None) }
    {
        refuse(alloc, to, code)
    }

    /// Sets a feature to a value, if it can have it.
    fn put_feature(
        &mut self,
        alloc: Global,
        to: &Addressee,
        feature: &[u8],
        value: &[u8],
    ) -> Result<Turn, Memory>
        requires feature { length feature.now ≤ command_limit }
        ensures turn { IfOk result (IsTurn (answered to.now.command to.now.id
            (Request.Session (SessionRequest.FeatureSet feature.now value.now)) self.old) self.new) }
        ensures stays { moments_so_far self.new ≡ moments_so_far self.old }
    {
        if let Some(code) = feature_refusal(feature, value) {
            return refuse(alloc, to, code);
        }
        if let Some(setting) = Setting::of(feature, value) {
            self.features = self.features.with(setting);
        }
        let response = responses::feature_set(alloc, to, feature)?;
        Ok(tell(response))
    }

    /// Tells where output goes. The program's output goes there from now on.
    fn redirect(
        &mut self,
        alloc: Global,
        to: &Addressee,
        stream: Stream,
        mode: StreamMode,
    ) -> Result<Turn, Memory>
        ensures turn { IfOk result (IsTurn (spec.redirected to.now.command to.now.id stream mode self.old) self.new) }
        ensures stays { moments_so_far self.new ≡ moments_so_far self.old }
    {
        let succeeds = match stream {
            Stream::Stdout => {
                self.stdout = mode;
                true
            }
            Stream::Stderr => false,
        };
        let response = responses::success(alloc, to, succeeds)?;
        Ok(tell(response))
    }

    /// A continuation. Once the program has ended it ends the session.
    fn go_on<L: Ledger>(
        &mut self,
        alloc: Global,
        to: &Addressee,
        mode: Continuation,
        steps: &mut Steps<L>,
    ) -> Result<Turn, Memory>
        ensures turn { IfOk result (IsTurn (spec.continued to.now.command to.now.id mode self.old.phase self.old)
            self.new) }
        ensures steps { IfOk result (λ turn. steps.new ≡ steps.old + steps_between self.old self.new) }
    {
        match self.position {
            Position::Starting => self.advance(alloc, to, mode, steps),
            Position::Break => self.advance(alloc, to, mode, steps),
            Position::Stopping(outcome) => stop(alloc, to, SessionEnd::Finished(outcome)),
        }
    }

    /// Goes on to the next stop or to the end, and tells which.
    fn advance<L: Ledger>(
        &mut self,
        alloc: Global,
        to: &Addressee,
        mode: Continuation,
        steps: &mut Steps<L>,
    ) -> Result<Turn, Memory>
        requires { self.old.phase ≢ Phase.Stopping }
        ensures turn { IfOk result (IsTurn (spec.advanced to.now.command to.now.id mode self.old) self.new) }
        ensures steps { IfOk result (λ turn. steps.new ≡ steps.old + steps_between self.old self.new) }
    {
        self.go_on_to_stop(mode, steps)?;
        tell_status(alloc, to, self.position)
    }
}
