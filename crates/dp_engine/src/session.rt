//! One session of the engine with an IDE.
ghost use Rattle.std.specs.Prelude.{◌≡◌, ◌≢◌, ◌+◌, ◌≤◌, [], drop, false, length, map, true};
ghost use Rattle.std.specs.Prelude.{IfOk, IfSome, OnErr, OnOk, Some};
ghost use Rattle.std.specs.List.{AllByRecursion};
ghost use Rattle.dp_wire.specs.Frames.{IsCommand, IsPacketText};
ghost use Rattle.dp_outside.specs.Names.{key_limit};
ghost use Rattle.dp_engine.specs.Responses.{init_text, main_name};
ghost use Rattle.dp_engine.specs.ShortLines.{IsShortLine};
ghost use Rattle.dp_engine.specs.inner.Sizes.{Fits, HasRoom};
ghost use Rattle.dp_engine.specs.inner.Turns.{IsSent};
ghost use Rattle.dp_command.specs.Lines.{line_of};
ghost use Rattle.dp_tree.specs.FileNames.{AreFileNames, file_name_limit};

use crate::moves::go_on_from;
use crate::replies::{Turn, news};
use crate::responses;
use crate::states::{Phase, Position};
use crate::streams::{to_ide, to_program};
use dp_break::Breaks;
use dp_bytes::{Bytes, Memory};
use dp_command::{Continuation, Line, LineError, StreamMode, read_line};
use dp_features::Features;
use dp_meaning::NumberedWrite;
use dp_packet::{Init, Notify, Packet, Response, file_uri, text_of};
use dp_state::{Outcome, State};
use dp_step::{Machine, Steps};
use dp_tree::Bundle;
use std::alloc::Global;
use std::marker::Model;
use std::sync::ledger::Ledger;

/// How a command ends a session.
#[derive(Clone, Copy, Debug, PartialEq, Eq)]
pub enum SessionEnd {
    /// The program had come to its end.
    Finished(Outcome),
    /// The program was stopped before its end.
    Killed,
    /// The program runs on by itself.
    Detached,
}

/// What one command leads to.
pub type Answer = dp_conversation::Answer<SessionEnd>;

/// What one command leads to, of which nothing is made a text.
#[derive(Debug, Drop)]
pub struct Report {
    /// The news that go before the response.
    pub before: Option<Notify>,
    pub response: Response,
    /// What the program wrote, wherever it goes.
    pub written: Bytes,
    /// How the session has ended, if it has.
    pub ended: Option<SessionEnd>,
}

/// A session. Contracts see what it knows.
#[derive(Drop)]
pub struct Session<'a> {
    pub(crate) bundle: &'a Bundle,
    pub(crate) bound: u64,
    /// The writes that were accepted, none of them at a later moment.
    pub(crate) writes: Vec<NumberedWrite>,
    /// The number of the current moment, 0 before the first and after the end, and the depth there, else 1.
    pub(crate) moment: u64,
    pub(crate) depth: u32,
    pub(crate) position: Position,
    pub(crate) features: Features,
    pub(crate) stdout: StreamMode,
    /// The program, which stands at the moment or has ended.
    pub(crate) machine: Machine<'a>,
    /// Whether memory ran out: then the session answers so for good, and its machine may stand for nothing any more.
    pub(crate) failed: bool,
    pub(crate) breaks: Breaks,
    pub(crate) alloc: Global,
}

impl<'a> Model for Session<'a> {
    ghost use Rattle.std.specs.Coded.{codes};
    ghost use Rattle.std.specs.Prelude.{map};
    ghost use Rattle.dp_break.specs.Tables.{table_code};
    ghost use Rattle.dp_tree.specs.FileNames.{AreFileNames};
    ghost use Rattle.dp_tree.specs.contracts.bundle.Bundle as bundle_type;
    ghost use Rattle.dp_meaning.specs.contracts.writes.NumberedWrite as write_type;
    ghost use Rattle.dp_engine.specs.Session.{State as Known};

    ghost Value = { Known };

    ghost coded = { Prim.hlevel (codes, bundle_type.the_row.coded, write_type.the_row.coded, table_code) };

    ghost use Rattle.dp_engine.specs.inner.Position.{known, IsAt, IsDeep};

    ghost view = { λ s. known s.bundle.now s.bound s.writes.items s.moment s.position s.features s.stdout s.breaks
        s.failed };

    ghost invariant = { λ s. IsAt s.failed s.position s.bundle.now s.bound s.writes.items s.moment s.machine
        × IsDeep s.bundle.now s.bound s.writes.items s.moment s.depth
        × AreFileNames (map (λ f. f.name) s.bundle.now.files) };
}

/// The line that the bytes of a command spell, if they spell one; `Session::depart_read` takes it.
///
/// The bytes are those of a whole command, without its NUL. It answers that it is out of memory where the line has no
/// room. Each byte is looked at, and name, options and payload of the line are copied.
pub fn line_in(alloc: Global, bytes: &[u8]) -> Result<Option<Line>, Memory>
    requires { IsCommand bytes.now }
    ensures value { IfOk result (λ line. line ≡ line_of bytes.now) }
    ensures short { IfOk result IsShortLine }
{
    match read_line(alloc, bytes) {
        Ok(line) => Ok(Some(line)),
        Err(LineError::Parse) => Ok(None),
        Err(LineError::Memory) => Err(Memory),
    }
}

/// What follows so many bytes.
fn tail(bytes: &[u8], count: usize) -> &[u8]
    ensures { result.now ≡ drop count bytes.now }
{
    if count <= bytes.len() {
        &bytes[count..]
    } else {
        &[]
    }
}

/// What is sent of a turn in which so much was written. The texts are made here.
pub(crate) fn give(
    alloc: Global,
    mode: StreamMode,
    written: &[u8],
    turn: Turn,
) -> Result<Answer, Memory>
    requires fits { Fits turn.response }
    requires room { IfSome turn.before HasRoom }
    ensures ok { IfOk result (λ answer. IsSent mode written.now turn answer) }
    ensures are_texts { IfOk result (λ answer. AllByRecursion IsPacketText answer.packets) }
{
    let Turn {
        before,
        response,
        ended,
    } = turn;
    let before = news(alloc, before)?;
    let text = responses::text(alloc, response)?;
    let packets = to_ide(alloc, mode, written, before, text)?;
    let program = to_program(alloc, mode, written)?;
    Ok(Answer {
        packets,
        program,
        ended,
    })
}

impl<'a> Session<'a> {
    ghost use Rattle.dp_engine.specs.Answers as spec;
    ghost use Rattle.dp_engine.specs.Answers.{gone_on};
    ghost use Rattle.dp_engine.specs.Refusals.{refusal, refusal_of_line};
    ghost use Rattle.dp_engine.specs.Refused.{IsAnsweredBy};
    ghost use Rattle.dp_engine.specs.Session.{opening, outcome_of, output_so_far, program_of};
    ghost use Rattle.dp_engine.specs.Session.{steps_between, steps_left, unwritten, written_between};
    ghost use Rattle.dp_engine.specs.Served.{ending_after, rest_after};
    ghost use Rattle.dp_conversation.specs.Folds.{reply_of};
    ghost use Rattle.dp_state.specs.States.{IsOf};

    /// A session over a program that may have so many moments, in the state starting, and the text of its first packet.
    ///
    /// The key has at most 128 bytes, and the files of the program have names of files.
    #[tactic(auto, using(crate::proofs::ResponseSizes::main_short))]
    pub fn begin(
        alloc: Global,
        bundle: &'a Bundle,
        key: &[u8],
        bound: u64,
    ) -> Result<(Session<'a>, Bytes), Memory>
        requires key { length key.now ≤ key_limit }
        requires names { AreFileNames (map (λ f. f.name) bundle.now.files) }
        ensures opening { IfOk result (λ begun. begun.0 ≡ opening bundle.now bound) }
        ensures text { IfOk result (λ begun. begun.1 ≡ init_text bundle.now key.now) }
        ensures is_text { IfOk result (λ begun. IsPacketText begun.1) }
    {
        let init = first_packet(alloc, bundle, key)?;
        let machine = Machine::start(alloc, bundle, bound)?;
        let session = Session {
            bundle,
            bound,
            writes: Vec::new(alloc),
            moment: 0,
            depth: 1,
            position: Position::Starting,
            features: Features::new(),
            stdout: StreamMode::Disable,
            machine,
            failed: false,
            breaks: Breaks::new(alloc),
            alloc,
        };
        Ok((session, init))
    }

    /// The state of the session, of one that has failed too. Takes no memory.
    pub fn phase(&self) -> Phase
        ensures { result ≡ self.now.phase }
    {
        self.position.phase()
    }

    /// Answers one whole command, without its NUL. Where memory runs out the session has failed for good: each later
    /// call answers that it is out of memory.
    ///
    /// A session that has ended is not asked again: that it has ended is the caller's to keep. A command that goes on
    /// counts a step for each moment that comes on the way; no other command counts any.
    pub fn answer<L: Ledger>(&mut self, line: &[u8], steps: &mut Steps<L>) -> Result<Answer, Memory>
        requires { IsCommand line.now }
        ensures ok { IfOk result (λ answer. reply_of answer self.new ≡ spec.answer self.old line.now) }
        ensures are_texts { IfOk result (λ answer. AllByRecursion IsPacketText answer.packets) }
        ensures refused { IfOk result (λ answer.
            IsAnsweredBy (refusal self.old line.now) self.old line.now (reply_of answer self.new)) }
        ensures steps { IfOk result (λ answer. steps.new ≡ steps.old + steps_between self.old self.new) }
        ensures fails { OnErr result (self.new.failed ≡ true) }
        ensures stays { OnOk result (self.old.failed ≡ false) }
    {
        match self.answer_line(line, steps) {
            Ok(answer) => Ok(answer),
            Err(_) => Err(self.fail()),
        }
    }

    /// The same, but that nothing is made a text: the response and the news before it as values, and what the program
    /// wrote, wherever it goes. It is copied once.
    pub fn tell<L: Ledger>(&mut self, line: &[u8], steps: &mut Steps<L>) -> Result<Report, Memory>
        requires { IsCommand line.now }
        ensures ok { IfOk result (λ report. spec.turn_with report self.new ≡ spec.turn self.old line.now) }
        ensures written { IfOk result (λ report. report.written ≡ written_between self.old self.new) }
        ensures steps { IfOk result (λ report. steps.new ≡ steps.old + steps_between self.old self.new) }
        ensures fails { OnErr result (self.new.failed ≡ true) }
        ensures stays { OnOk result (self.old.failed ≡ false) }
    {
        match self.tell_line(line, steps) {
            Ok(report) => Ok(report),
            Err(_) => Err(self.fail()),
        }
    }

    /// From now on it answers that it is out of memory.
    pub(crate) fn fail(&mut self) -> Memory
        ensures { self.new.failed ≡ true }
    {
        self.failed = true;
        Memory
    }

    /// The answer to a command; once memory ran out it is not noted yet.
    fn answer_line<L: Ledger>(
        &mut self,
        line: &[u8],
        steps: &mut Steps<L>,
    ) -> Result<Answer, Memory>
        requires { IsCommand line.now }
        ensures ok { IfOk result (λ answer. reply_of answer self.new ≡ spec.answer self.old line.now) }
        ensures are_texts { IfOk result (λ answer. AllByRecursion IsPacketText answer.packets) }
        ensures steps { IfOk result (λ answer. steps.new ≡ steps.old + steps_between self.old self.new) }
        ensures stays { OnOk result (self.old.failed ≡ false) }
    {
        let line = line_in(self.alloc, line)?;
        self.answer_read(line, steps)
    }

    /// The answer to a line that was read.
    pub(crate) fn answer_read<L: Ledger>(
        &mut self,
        line: Option<Line>,
        steps: &mut Steps<L>,
    ) -> Result<Answer, Memory>
        requires { IsShortLine line }
        ensures ok { IfOk result (λ answer. reply_of answer self.new
            ≡ spec.sent self.old (spec.turn_of line (refusal_of_line self.old line) self.old)) }
        ensures are_texts { IfOk result (λ answer. AllByRecursion IsPacketText answer.packets) }
        ensures steps { IfOk result (λ answer. steps.new ≡ steps.old + steps_between self.old self.new) }
        ensures stays { OnOk result (self.old.failed ≡ false) }
    {
        let alloc = self.alloc;
        let mode = self.stdout;
        let shown = self.shown()?;
        let turn = self.turn(alloc, line, steps)?;
        let written = self.written_past(shown)?;
        give(alloc, mode, written, turn)
    }

    /// The report of a command; once memory ran out it is not noted yet.
    fn tell_line<L: Ledger>(&mut self, line: &[u8], steps: &mut Steps<L>) -> Result<Report, Memory>
        requires { IsCommand line.now }
        ensures ok { IfOk result (λ report. spec.turn_with report self.new ≡ spec.turn self.old line.now) }
        ensures written { IfOk result (λ report. report.written ≡ written_between self.old self.new) }
        ensures steps { IfOk result (λ report. steps.new ≡ steps.old + steps_between self.old self.new) }
        ensures stays { OnOk result (self.old.failed ≡ false) }
    {
        let alloc = self.alloc;
        let line = line_in(alloc, line)?;
        let shown = self.shown()?;
        let turn = self.turn(alloc, line, steps)?;
        let written = self.written_past(shown)?;
        let written = Bytes::from_slice(alloc, written)?;
        let Turn {
            before,
            response,
            ended,
        } = turn;
        Ok(Report {
            before,
            response,
            written,
            ended,
        })
    }

    /// How many bytes the program has written so far.
    pub(crate) fn shown(&self) -> Result<usize, Memory>
        ensures shown { IfOk result (λ shown. shown ≡ length (output_so_far self.now)) }
        ensures stays { OnOk result (self.now.failed ≡ false) }
    {
        let program = self.program()?;
        Ok(program.output.len())
    }

    /// What the program has written so far, behind so many bytes.
    pub(crate) fn written_past(&self, shown: usize) -> Result<&[u8], Memory>
        ensures written { IfOk result (λ written. written.now ≡ drop shown (output_so_far self.now)) }
        ensures stays { OnOk result (self.now.failed ≡ false) }
    {
        let program = self.program()?;
        Ok(tail(program.output.as_slice(), shown))
    }

    /// The program's state at the moment, or at its end, unless the session has failed.
    pub(crate) fn program(&self) -> Result<&State, Memory>
        ensures stays { OnOk result (self.now.failed ≡ false) }
        ensures state { IfOk result (λ program. program.now ≡ program_of self.now) }
        ensures of { IfOk result (λ program. IsOf self.now.bundle program.now) }
    {
        if self.failed {
            Err(Memory)
        } else {
            Ok(self.machine.state())
        }
    }

    /// Goes on to the next stop or to the end. The hits on the way are counted, and a step for each moment.
    pub(crate) fn go_on_to_stop<L: Ledger>(
        &mut self,
        mode: Continuation,
        steps: &mut Steps<L>,
    ) -> Result<(), Memory>
        requires { self.old.phase ≢ Phase.Stopping }
        ensures goes { OnOk result (self.new ≡ gone_on mode self.old) }
        ensures steps { OnOk result (steps.new ≡ steps.old + steps_between self.old self.new) }
    {
        if self.failed {
            return Err(Memory);
        }
        let Ok(reached) = go_on_from(
            &mut self.machine,
            self.bundle,
            self.depth,
            mode,
            &mut self.breaks,
            steps,
        ) else {
            self.failed = true;
            return Err(Memory);
        };
        let (moment, depth, position) = reached.place();
        self.moment = moment;
        self.depth = depth;
        self.position = position;
        Ok(())
    }

    /// Runs the program on to its end, if it has not ended, and answers the rest of its output and how it ended. A
    /// session that has failed answers that it is out of memory. A program that a command killed would be run on too:
    /// whoever serves such a session drops it instead.
    ///
    /// A step is counted for each moment that comes on the way.
    pub fn finish<L: Ledger>(mut self, steps: &mut Steps<L>) -> Result<(Bytes, Outcome), Memory>
        ensures rest { IfOk result (λ rest. rest.0 ≡ unwritten self.entry) }
        ensures outcome { IfOk result (λ rest. rest.1 ≡ outcome_of self.entry) }
        ensures steps { IfOk result (λ rest. steps.new ≡ steps.old + steps_left self.entry) }
        ensures stays { OnOk result (self.entry.failed ≡ false) }
    {
        let rest = self.run_out(steps);
        drop(self);
        rest
    }

    /// What becomes of the program once the session is over, by the command that ended it, if one did: it runs on to
    /// its end as in `finish`, and where a command killed it, it is left where it stands.
    pub fn finish_after<L: Ledger>(
        self,
        ended: Option<SessionEnd>,
        steps: &mut Steps<L>,
    ) -> Result<(Bytes, Option<Outcome>), Memory>
        ensures rest { IfOk result (λ end. end.0 ≡ rest_after ended self.entry) }
        ensures outcome { IfOk result (λ end. end.1 ≡ ending_after ended self.entry) }
        ensures stays { IfOk result (λ end. IfSome end.1 (λ outcome. self.entry.failed ≡ false)) }
    {
        match ended {
            Some(SessionEnd::Killed) => {
                let alloc = self.alloc;
                drop(self);
                Ok((Bytes::of(Vec::new(alloc)), None))
            }
            Some(SessionEnd::Detached) => self.run_to_end(steps),
            Some(SessionEnd::Finished(_)) => self.run_to_end(steps),
            None => self.run_to_end(steps),
        }
    }

    /// Runs the program on to its end, as `finish` does.
    fn run_to_end<L: Ledger>(self, steps: &mut Steps<L>) -> Result<(Bytes, Option<Outcome>), Memory>
        ensures rest { IfOk result (λ end. end.0 ≡ unwritten self.entry) }
        ensures outcome { IfOk result (λ end. end.1 ≡ Some (outcome_of self.entry)) }
        ensures stays { OnOk result (self.entry.failed ≡ false) }
    {
        let (rest, outcome) = self.finish(steps)?;
        Ok((rest, Some(outcome)))
    }

    /// Runs the program of a session that is lent on to its end, as `finish` does.
    fn run_out<L: Ledger>(&mut self, steps: &mut Steps<L>) -> Result<(Bytes, Outcome), Memory>
        ensures rest { IfOk result (λ rest. rest.0 ≡ unwritten self.old) }
        ensures outcome { IfOk result (λ rest. rest.1 ≡ outcome_of self.old) }
        ensures steps { IfOk result (λ rest. steps.new ≡ steps.old + steps_left self.old) }
        ensures stays { OnOk result (self.old.failed ≡ false) }
    {
        match self.position {
            Position::Starting => self.run_rest(steps),
            Position::Break => self.run_rest(steps),
            Position::Stopping(outcome) => {
                if self.failed {
                    return Err(Memory);
                }
                Ok((Bytes::of(Vec::new(self.alloc)), outcome))
            }
        }
    }

    /// The same where the program has not ended.
    fn run_rest<L: Ledger>(&mut self, steps: &mut Steps<L>) -> Result<(Bytes, Outcome), Memory>
        requires { self.old.phase ≢ Phase.Stopping }
        ensures rest { IfOk result (λ rest. rest.0 ≡ unwritten self.old) }
        ensures outcome { IfOk result (λ rest. rest.1 ≡ outcome_of self.old) }
        ensures steps { IfOk result (λ rest. steps.new ≡ steps.old + steps_left self.old) }
        ensures stays { OnOk result (self.old.failed ≡ false) }
    {
        if self.failed {
            return Err(Memory);
        }
        let shown = self.machine.state().output.len();
        match self.machine.run_out(steps) {
            Ok(outcome) => {
                self.position = Position::Stopping(outcome);
                let written = tail(self.machine.state().output.as_slice(), shown);
                let rest = Bytes::from_slice(self.alloc, written)?;
                Ok((rest, outcome))
            }
            Err(_) => {
                self.failed = true;
                Err(Memory)
            }
        }
    }
}

/// The text of the packet that opens a session.
fn first_packet(alloc: Global, bundle: &Bundle, key: &[u8]) -> Result<Bytes, Memory>
    requires key { length key.now ≤ key_limit }
    requires name { length (main_name bundle.now) ≤ file_name_limit }
    ensures text { IfOk result (λ text. text ≡ init_text bundle.now key.now) }
    ensures is_text { IfOk result IsPacketText }
{
    let idekey = Bytes::from_slice(alloc, key)?;
    let fileuri = file_uri(alloc, main_file(bundle))?;
    text_of(alloc, &Packet::Init(Init { idekey, fileuri }))
}

/// The name of the main file.
fn main_file(bundle: &Bundle) -> &[u8]
    ensures { result.now ≡ main_name bundle.now }
{
    match bundle.files.as_slice().first() {
        Some(file) => file.name.as_slice(),
        None => &[],
    }
}
