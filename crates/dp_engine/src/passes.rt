//! A continuation that is passed moment by moment.
ghost use Rattle.std.specs.Prelude.{◌≡◌, ◌≢◌, ◌+◌, length, IfOk, OnErr, OnOk, Some, false, true};
ghost use Rattle.std.specs.List.{AllByRecursion};
ghost use Rattle.dp_command.specs.Lines.{line_of};
ghost use Rattle.dp_engine.specs.Passes as spec;
ghost use Rattle.dp_engine.specs.inner.Departures.{GivesGoing};
ghost use Rattle.dp_engine.specs.inner.Places.{passing_of};
ghost use Rattle.dp_engine.specs.inner.Position.{phase_of};
ghost use Rattle.dp_engine.specs.ShortLines.{IsShort, IsShortLine};
ghost use Rattle.dp_wire.specs.Frames.{IsCommand, IsPacketText};

use crate::moves::pass_one;
use crate::reached::{Passed, Reached};
use crate::refusals::read_command;
use crate::replies::tell_status;
use crate::session::{Answer, Session, give, line_in};
use crate::states::{Phase, Position};
use dp_bytes::Memory;
use dp_command::{Addressee, CommandError, Continuation, Line, Request, SessionRequest};
use dp_step::Steps;
use std::sync::ledger::Ledger;

/// A continuation on its way: which it is, the depth from which it went on, and how much of the program's output was
/// shown before.
#[derive(Debug, Drop)]
pub struct Going {
    pub(crate) to: Addressee,
    pub(crate) mode: Continuation,
    pub(crate) depth: u32,
    pub(crate) shown: usize,
}

/// What a session gives of a command.
#[derive(Debug, Drop)]
pub enum Departure {
    /// Its answer: it is no continuation, or one that is refused or comes after the program's end.
    Answered(Answer),
    /// A continuation on its way. Nothing has changed yet.
    Goes(Going),
}

/// What a moment is to a continuation.
#[derive(Clone, Copy, Debug, PartialEq, Eq)]
pub enum Passing {
    /// The program does not stop there.
    On,
    /// It stops there.
    Stop,
    /// No moment has come: the program has ended.
    End,
}

/// What it is to a continuation that a moment has come, or the end.
fn passing_by(passed: Passed) -> Passing
    ensures { result ≡ passing_of passed.reached passed.stops }
{
    match passed.reached {
        Reached::Moment {
            number: _,
            depth: _,
        } => {
            if passed.stops {
                Passing::Stop
            } else {
                Passing::On
            }
        }
        Reached::End(_) => Passing::End,
    }
}

/// The continuation that a request is.
fn continuation_in(request: &Request) -> Option<Continuation>
    ensures { result ≡ spec.continuation_in request.now }
{
    match request {
        Request::Session(request) => continuation_among(request),
        Request::Breakpoints(_) => None,
        Request::Look(_) => None,
        Request::Write(_) => None,
    }
}

/// The continuation that a request is which is answered from the session.
fn continuation_among(request: &SessionRequest) -> Option<Continuation>
    ensures { result ≡ spec.continuation_in (Request.Session request.now) }
{
    match request {
        SessionRequest::Status => None,
        SessionRequest::FeatureGet { name: _ } => None,
        SessionRequest::FeatureSet { name: _, value: _ } => None,
        SessionRequest::Continue(mode) => Some(*mode),
        SessionRequest::Finish(_) => None,
        SessionRequest::Redirect { stream: _, mode: _ } => None,
    }
}

/// The continuation that a request is where a session stands: none once its program has ended.
fn going_in(position: Position, request: &Request) -> Option<Continuation>
    ensures { result ≡ spec.going_in (phase_of position) request.now }
{
    match position {
        Position::Starting => continuation_in(request),
        Position::Break => continuation_in(request),
        Position::Stopping(_) => None,
    }
}

impl<'a> Session<'a> {
    ghost use Rattle.dp_conversation.specs.Folds.{reply_of};
    ghost use Rattle.dp_engine.specs.Session.{output_so_far, steps_between};

    /// Answers one whole command, without its NUL, but that a continuation only sets out: its program is passed moment
    /// by moment by `pass`, and `arrive` answers it. Where memory runs out the session has failed for good. The options
    /// of a command are read twice, once to see whether it is a continuation.
    ///
    /// No other command is given to the session before it arrives: that is the caller's to keep.
    pub fn depart<L: Ledger>(
        &mut self,
        line: &[u8],
        steps: &mut Steps<L>,
    ) -> Result<Departure, Memory>
        requires { IsCommand line.now }
        ensures departs { IfOk result (spec.Departs self.old (line_of line.now) self.new) }
        ensures are_texts { IfOk result spec.AreTextsOf }
        ensures steps { OnOk result (steps.new ≡ steps.old + steps_between self.old self.new) }
        ensures fails { OnErr result (self.new.failed ≡ true) }
        ensures stays { OnOk result (self.old.failed ≡ false) }
    {
        match self.depart_line(line, steps) {
            Ok(departure) => Ok(departure),
            Err(_) => Err(self.fail()),
        }
    }

    /// The same of a line that was read, or of bytes that spell none, as `line_in` answers them: they are not read
    /// again. For whoever looks at the line first.
    ///
    /// Its name and the values of its options are no longer than those of a command. Where memory runs out the session
    /// has failed for good. The options are read twice, as in `depart`.
    pub fn depart_read<L: Ledger>(
        &mut self,
        line: Option<Line>,
        steps: &mut Steps<L>,
    ) -> Result<Departure, Memory>
        requires { IsShortLine line }
        ensures departs { IfOk result (spec.Departs self.old line self.new) }
        ensures are_texts { IfOk result spec.AreTextsOf }
        ensures steps { OnOk result (steps.new ≡ steps.old + steps_between self.old self.new) }
        ensures fails { OnErr result (self.new.failed ≡ true) }
        ensures stays { OnOk result (self.old.failed ≡ false) }
    {
        match self.departure(line, steps) {
            Ok(departure) => Ok(departure),
            Err(_) => Err(self.fail()),
        }
    }

    /// What a command departs with; once memory ran out it is not noted yet.
    fn depart_line<L: Ledger>(
        &mut self,
        line: &[u8],
        steps: &mut Steps<L>,
    ) -> Result<Departure, Memory>
        requires { IsCommand line.now }
        ensures departs { IfOk result (spec.Departs self.old (line_of line.now) self.new) }
        ensures are_texts { IfOk result spec.AreTextsOf }
        ensures steps { OnOk result (steps.new ≡ steps.old + steps_between self.old self.new) }
        ensures stays { OnOk result (self.old.failed ≡ false) }
    {
        let line = line_in(self.alloc, line)?;
        self.departure(line, steps)
    }

    /// The same of a line that was read.
    fn departure<L: Ledger>(
        &mut self,
        line: Option<Line>,
        steps: &mut Steps<L>,
    ) -> Result<Departure, Memory>
        requires { IsShortLine line }
        ensures departs { IfOk result (spec.Departs self.old line self.new) }
        ensures are_texts { IfOk result spec.AreTextsOf }
        ensures steps { OnOk result (steps.new ≡ steps.old + steps_between self.old self.new) }
        ensures stays { OnOk result (self.old.failed ≡ false) }
    {
        let found = self.going(&line)?;
        match found {
            Some(going) => Ok(Departure::Goes(going)),
            None => {
                let answer = self.answer_read(line, steps)?;
                Ok(Departure::Answered(answer))
            }
        }
    }

    /// What of a line is a continuation on its way, if it asks for one.
    fn going(&self, line: &Option<Line>) -> Result<Option<Going>, Memory>
        requires { IsShortLine line.now }
        ensures going { IfOk result (GivesGoing self.now line.now) }
        ensures stays { OnOk result (self.now.failed ≡ false) }
    {
        let shown = self.shown()?;
        match line {
            None => Ok(None),
            Some(line) => self.going_from(line, shown),
        }
    }

    /// The same of a line, where so much of the program's output was shown.
    fn going_from(&self, line: &Line, shown: usize) -> Result<Option<Going>, Memory>
        requires short { IsShort line.now }
        requires shown { shown ≡ length (output_so_far self.now) }
        ensures { IfOk result (GivesGoing self.now (Some line.now)) }
    {
        let found = self.continuation(line)?;
        match found {
            None => Ok(None),
            Some(mode) => {
                let to = Addressee::of(self.alloc, line)?;
                Ok(Some(Going {
                    to,
                    mode,
                    depth: self.depth,
                    shown,
                }))
            }
        }
    }

    /// The continuation that a line asks for, unless it is refused or the program has ended.
    fn continuation(&self, line: &Line) -> Result<Option<Continuation>, Memory>
        ensures { IfOk result (λ mode. mode ≡ spec.departing self.now (Some line.now)) }
    {
        match read_command(self.alloc, self.position.phase(), line) {
            Ok(command) => Ok(going_in(self.position, &command.request)),
            Err(CommandError::Code(_)) => Ok(None),
            Err(CommandError::Memory) => Err(Memory),
        }
    }

    /// Passes one moment of a continuation: the program has come to the very next one, or to its end, and the
    /// breakpoints have the hits of that moment. It counts one step, and none for the end. Once the program has ended
    /// nothing changes.
    pub fn pass<L: Ledger>(
        &mut self,
        going: &Going,
        steps: &mut Steps<L>,
    ) -> Result<Passing, Memory>
        ensures passing { IfOk result (λ passing. passing
            ≡ spec.passing (spec.mode_of going.now) (spec.depth_from going.now) self.old) }
        ensures goes { OnOk result (self.new ≡ spec.passed self.old) }
        ensures steps { OnOk result (steps.new ≡ steps.old + steps_between self.old self.new) }
        ensures fails { OnErr result (self.new.failed ≡ true) }
        ensures stays { OnOk result (self.old.failed ≡ false) }
    {
        if self.failed {
            return Err(Memory);
        }
        match self.position {
            Position::Starting => self.pass_moment(going, steps),
            Position::Break => self.pass_moment(going, steps),
            Position::Stopping(_) => Ok(Passing::End),
        }
    }

    /// The same before the program's end; once memory ran out the session has failed.
    fn pass_moment<L: Ledger>(
        &mut self,
        going: &Going,
        steps: &mut Steps<L>,
    ) -> Result<Passing, Memory>
        requires before { self.old.phase ≢ Phase.Stopping }
        requires whole { self.old.failed ≡ false }
        ensures passing { IfOk result (λ passing. passing
            ≡ spec.passing_on going.now.mode going.now.depth self.old) }
        ensures goes { OnOk result (self.new ≡ spec.passed_on self.old) }
        ensures steps { OnOk result (steps.new ≡ steps.old + steps_between self.old self.new) }
        ensures fails { OnErr result (self.new.failed ≡ true) }
    {
        let Ok(passed) = pass_one(
            &mut self.machine,
            self.bundle,
            going.depth,
            going.mode,
            &mut self.breaks,
            steps,
        ) else {
            self.failed = true;
            return Err(Memory);
        };
        let (moment, depth, position) = passed.reached.place();
        self.moment = moment;
        self.depth = depth;
        self.position = position;
        Ok(passing_by(passed))
    }

    /// Answers a continuation where its session stands: at a stop, at any moment before, or at the program's end. What
    /// the program wrote on the way goes out before the response. Where memory runs out the session has failed for
    /// good.
    pub fn arrive(&mut self, going: Going) -> Result<Answer, Memory>
        ensures ok { IfOk result (λ answer. reply_of answer self.new
            ≡ spec.arrived (spec.addressee_of going).command (spec.addressee_of going).id
            (spec.shown_before going) self.old) }
        ensures are_texts { IfOk result (λ answer. AllByRecursion IsPacketText answer.packets) }
        ensures fails { OnErr result (self.new.failed ≡ true) }
        ensures stays { OnOk result (self.old.failed ≡ false) }
    {
        let answer = self.arrival(&going);
        drop(going);
        match answer {
            Ok(answer) => Ok(answer),
            Err(_) => Err(self.fail()),
        }
    }

    /// The answer to a continuation where its session stands.
    fn arrival(&self, going: &Going) -> Result<Answer, Memory>
        ensures ok { IfOk result (λ answer. reply_of answer self.now
            ≡ spec.arrived going.now.to.command going.now.to.id going.now.shown self.now) }
        ensures are_texts { IfOk result (λ answer. AllByRecursion IsPacketText answer.packets) }
        ensures stays { OnOk result (self.now.failed ≡ false) }
    {
        let written = self.written_past(going.shown)?;
        let turn = tell_status(self.alloc, &going.to, self.position)?;
        give(self.alloc, self.stdout, written, turn)
    }
}
