//! The gateway: requests over one session.

ghost use Rattle.std.specs.Prelude.{◌≡◌, ◌+◌, ◌++◌, false, filter, length, map, nat_le, not, option_map, true};
ghost use Rattle.std.specs.Prelude.{Err, Ok, Some, IfOk, IfErr, OnOk};
ghost use Rattle.std.specs.Str.{IsUtf8};
ghost use Rattle.serde_json.specs.View.{view};
ghost use Rattle.dp_bodies.specs.Requests.{request_seen};
ghost use Rattle.dp_bodies.specs.declared.errors.DapError.TheVariants as error;
ghost use Rattle.dp_engine.specs.Answers.{turn_with};
ghost use Rattle.dp_tree.specs.FileNames.{AreFileNames};
ghost use Rattle.dp_command.specs.Canonical.{canonical};
ghost use Rattle.dp_wire.specs.Frames.{IsCommand, has_no_nul};
ghost use Rattle.dp_dap.specs.Answers as spec;
ghost use Rattle.dp_dap.specs.Dap.{is_request, reply};
ghost use Rattle.dp_dap_messages.specs.Lines.{feature_line, frame_line, going_line, set_line};
ghost use Rattle.dp_dap_messages.specs.Messages.{HasNoFloat, verified};
ghost use Rattle.dp_dap.specs.inner.Effects.{Answers, DidSo, IsBare, IsNotReplied, IsReplied, Looks};
ghost use Rattle.dp_dap.specs.inner.Effects.{Advances, Refuses, Settles, effect_of};

use crate::breakpoints::{Kept, id_in, is_of};
use crate::effects::{DapAnswer, Effect, Unanswered};
use crate::replies::{
    code_of, contexts_in, fault_of, has_ended, held_at, result_in, shown_in, stacks_in,
};
use dp_bodies::{DapError, DapRequest, request_of};
use dp_bytes::{Bytes, Items, Memory};
use dp_command::Continuation;
use dp_dap_messages::{
    Asked, Hits, News, Place, Refusal, RequestName, Stage, StopReason, Wish, lines, messages, news,
    read_wish, shown,
};
use dp_engine::{Report, Session, SessionEnd, Steps};
use dp_tree::Bundle;
use dp_wire::COMMAND_LIMIT;
use serde_json::Value;
use std::alloc::Global;
use std::marker::Model;
use std::mem;
use std::sync::ledger::Ledger;

/// The key of the session.
const KEY: &[u8] = b"dap";

/// The most references at a time.
const REFERENCE_LIMIT: usize = 1_000_000;

/// A gateway. Contracts see what it knows.
#[derive(Drop)]
pub struct Gateway<'a> {
    pub(crate) session: Session<'a>,
    stage: Stage,
    /// Whether launch asked to stop on entry, once it has come; and whether configurationDone has.
    launched: Option<bool>,
    configured: bool,
    kept: Vec<Kept>,
    places: Vec<Place>,
    /// How many messages were sent.
    sent: u64,
    /// How the session ended with its program, if it has.
    over: Option<SessionEnd>,
    /// Whether memory ran out: then the gateway answers so for good.
    failed: bool,
    alloc: Global,
}

impl<'a> Model for Gateway<'a> {
    ghost use Rattle.std.specs.Coded.{codes};
    ghost use Rattle.dp_break.specs.Tables.{table_code};
    ghost use Rattle.dp_tree.specs.contracts.bundle.Bundle as bundle_type;
    ghost use Rattle.dp_meaning.specs.contracts.writes.NumberedWrite as write_type;
    ghost use Rattle.dp_dap.specs.Known.{Known};

    ghost Value = { Known };

    ghost coded = { Prim.hlevel (codes, bundle_type.the_row.coded, write_type.the_row.coded, table_code) };

    ghost view = { λ g. record {
      stage = g.stage;
      launched = g.launched;
      configured = g.configured;
      session = g.session;
      kept = g.kept.items;
      places = g.places.items;
      sent = g.sent;
      over = g.over;
      failed = g.failed;
    } };
}

/// An effect with a body alone.
fn bare(alloc: Global, body: Option<Value>) -> Effect
    ensures { IsBare body result }
{
    Effect {
        body,
        written: Bytes::of(Vec::new(alloc)),
        news: News::Nothing,
        ended: None,
    }
}

/// Removes a breakpoint from a session, if it is of a path.
fn remove_one<L: Ledger>(
    alloc: Global,
    session: &mut Session<'_>,
    path: &[u8],
    one: &Kept,
    steps: &mut Steps<L>,
) -> Result<(), Memory>
    ensures { OnOk result (session.new ≡ spec.removed_one path.now one.now session.old) }
{
    if !is_of(path, one) {
        return Ok(());
    }
    let line = lines::remove(alloc, one.id)?;
    session.tell(line.as_slice(), steps)?;
    Ok(())
}

/// Removes the breakpoints of a path from a session, in their order.
fn remove_all<L: Ledger>(
    alloc: Global,
    session: &mut Session<'_>,
    path: &[u8],
    kept: &[Kept],
    steps: &mut Steps<L>,
) -> Result<(), Memory>
    ensures { OnOk result (session.new ≡ spec.removed path.now kept.now session.old) }
{
    for one in kept {
        remove_one(alloc, session, path, one, steps)?;
    }
    Ok(())
}

/// The breakpoints of other paths.
fn others(path: &[u8], kept: Vec<Kept>) -> Vec<Kept>
    ensures { result.items ≡ filter (λ k. not (spec.is_of path.now k)) kept.items }
{
    let mut kept = kept;
    kept.retain(|one| !is_of(path, one));
    kept
}

impl<'a> Gateway<'a> {
    ghost use Rattle.dp_dap.specs.Known.{opening};

    /// A gateway over a program that may have so many moments, to which nothing has come.
    pub fn begin(alloc: Global, bundle: &'a Bundle, bound: u64) -> Result<Gateway<'a>, Memory>
        requires { AreFileNames (map (λ f. f.name) bundle.now.files) }
        ensures { IfOk result (λ gateway. gateway ≡ opening bundle.now bound) }
    {
        let (session, _init) = Session::begin(alloc, bundle, KEY, bound)?;
        Ok(Gateway {
            session,
            stage: Stage::New,
            launched: None,
            configured: false,
            kept: Vec::new(alloc),
            places: Vec::new(alloc),
            sent: 0,
            over: None,
            failed: false,
            alloc,
        })
    }

    /// The session. Takes no memory.
    pub(crate) fn into_session(self) -> Session<'a>
        ensures { result ≡ self.entry.session }
    {
        self.session
    }

    /// Answers one body. `NotRequest` where it is no request: nothing has changed. Where memory runs out the gateway
    /// has failed for good: each later call answers that it is out of memory.
    ///
    /// A gateway that has ended is not asked again: that it has ended is the caller's to keep.
    pub fn answer<L: Ledger>(
        &mut self,
        text: &[u8],
        steps: &mut Steps<L>,
    ) -> Result<DapAnswer, DapError>
        ensures ok { IfOk result (λ answer. Answers (reply self.old text.now) answer self.new) }
        ensures request { OnOk result (is_request text.now ≡ true) }
        ensures refused { result ≡ Err error.NotRequest → (is_request text.now ≡ false) × (self.new ≡ self.old) }
        ensures fails { result ≡ Err error.Memory → self.new.failed ≡ true }
        ensures for_good { self.old.failed ≡ true → result ≡ Err error.Memory }
    {
        if self.failed {
            return Err(DapError::Memory);
        }
        let request = match request_of(self.alloc, text) {
            Ok(request) => request,
            Err(DapError::NotRequest) => return Err(DapError::NotRequest),
            Err(DapError::Memory) => return Err(self.fail()),
        };
        match self.reply(&request, steps) {
            Ok(answer) => Ok(answer),
            Err(_) => Err(self.fail()),
        }
    }

    /// From now on it answers that it is out of memory.
    fn fail(&mut self) -> DapError
        ensures failed { self.new.failed ≡ true }
        ensures memory { result ≡ error.Memory }
    {
        self.failed = true;
        DapError::Memory
    }

    /// The answer to a request; once memory ran out it is not noted yet.
    fn reply<L: Ledger>(
        &mut self,
        request: &DapRequest,
        steps: &mut Steps<L>,
    ) -> Result<DapAnswer, Memory>
        requires { IsUtf8 request.now.command }
        ensures { IfOk result (λ answer. Answers (spec.answer self.old (request_seen request.now)) answer self.new) }
    {
        match self.try_request(request, steps) {
            Ok(effect) => self.tell(request, effect),
            Err(Unanswered::Refused(why)) => self.turn_down(request, why),
            Err(Unanswered::Memory) => Err(Memory),
        }
    }

    /// The answer with what a request led to.
    fn tell(&mut self, request: &DapRequest, effect: Effect) -> Result<DapAnswer, Memory>
        requires utf8 { IsUtf8 request.now.command }
        requires no_float { HasNoFloat (option_map view effect.body) }
        ensures { IfOk result (λ answer. Answers (spec.with_result (request_seen request.now) self.old
            (Ok (effect_of effect self.old))) answer self.new) }
    {
        let Effect {
            body,
            written,
            news,
            ended,
        } = effect;
        let texts = news::messages_of(
            self.alloc,
            self.sent,
            request,
            body,
            written.as_slice(),
            news,
        )?;
        self.count(texts.len())?;
        Ok(DapAnswer {
            messages: Items::of(texts),
            ended,
            program: written,
        })
    }

    /// The answer with why a request is refused.
    fn turn_down(&mut self, request: &DapRequest, why: Refusal) -> Result<DapAnswer, Memory>
        requires { IsUtf8 request.now.command }
        ensures { IfOk result (λ answer.
            Answers (spec.with_result (request_seen request.now) self.old (Err why)) answer self.new) }
    {
        let alloc = self.alloc;
        let texts = news::turned_down(alloc, self.sent, request, why)?;
        self.count(texts.len())?;
        Ok(DapAnswer {
            messages: Items::of(texts),
            ended: None,
            program: Bytes::of(Vec::new(alloc)),
        })
    }

    /// Counts messages. More than 64 bits can count do not fit into memory.
    fn count(&mut self, messages: usize) -> Result<(), Memory>
        ensures { OnOk result (self.new ≡ (record self.old { sent = self.old.sent + messages })) }
    {
        match self.sent.checked_add(messages as u64) {
            Some(sent) => {
                self.sent = sent;
                Ok(())
            }
            None => Err(Memory),
        }
    }

    /// Does what a request asks for, or tells why not.
    fn try_request<L: Ledger>(
        &mut self,
        request: &DapRequest,
        steps: &mut Steps<L>,
    ) -> Result<Effect, Unanswered>
        ensures ok { IfOk result (λ effect.
            DidSo (spec.tried (request_seen request.now) self.old) effect self.new) }
        ensures refused { IfErr result (λ why.
            Refuses (spec.tried (request_seen request.now) self.old) why self.old self.new) }
    {
        let Some(name) = RequestName::of(request.command.as_slice()) else {
            return Err(Unanswered::Refused(Refusal::Unsupported));
        };
        if !name.is_allowed(self.stage) || self.comes_again(name) {
            return Err(Unanswered::Refused(Refusal::NotNow));
        }
        match read_wish(self.alloc, name, request.arguments.as_ref())? {
            Some(wish) => self.perform(wish, steps),
            None => Err(Unanswered::Refused(Refusal::BadArguments)),
        }
    }

    /// Whether a request that comes once has come before.
    fn comes_again(&self, name: RequestName) -> bool
        ensures { result ≡ spec.comes_again name self.now }
    {
        match name {
            RequestName::Launch => self.launched.is_some(),
            RequestName::ConfigurationDone => self.configured,
            _ => false,
        }
    }

    /// Does what is asked for, or tells why not.
    fn perform<L: Ledger>(&mut self, wish: Wish, steps: &mut Steps<L>) -> Result<Effect, Unanswered>
        ensures ok { IfOk result (λ effect. DidSo (spec.performed wish self.old) effect self.new) }
        ensures refused { IfErr result (λ why. Refuses (spec.performed wish self.old) why self.old self.new) }
    {
        match wish {
            Wish::Initialize => Ok(self.initialize(steps)?),
            Wish::Launch(stops) => {
                self.launched = Some(stops);
                Ok(self.start(steps)?)
            }
            Wish::ConfigurationDone => {
                self.configured = true;
                Ok(self.start(steps)?)
            }
            Wish::SetExceptionBreakpoints => Ok(bare(self.alloc, None)),
            Wish::SetBreakpoints(path, asked) => Ok(self.set_breakpoints(path, asked, steps)?),
            Wish::Threads => {
                let body = messages::one_thread(self.alloc)?;
                Ok(bare(self.alloc, Some(body)))
            }
            Wish::StackTrace(first, most) => self.show_stack(first, most, steps),
            Wish::Scopes(frame) => self.show_scopes(frame, steps),
            Wish::Variables(reference) => self.show_variables(reference, steps),
            Wish::GoOn(mode) => Ok(self.continue_on(mode, steps)?),
            Wish::Evaluate(expression) => self.evaluate(expression, steps),
            Wish::Disconnect(detaches) => Ok(self.disconnect(detaches, steps)?),
        }
    }

    /// What the session answers to a line. One that is too long is not sent, and an error is a refusal.
    fn ask<L: Ledger>(&mut self, line: &[u8], steps: &mut Steps<L>) -> Result<Report, Unanswered>
        requires { has_no_nul line.now ≡ true }
        ensures ok { IfOk result (λ report. IsReplied line.now report self.old self.new) }
        ensures refused { IfErr result (λ why. IsNotReplied line.now why self.old self.new) }
    {
        if line.len() > COMMAND_LIMIT {
            return Err(Unanswered::Refused(Refusal::BadArguments));
        }
        let report = self.session.tell(line, steps)?;
        match fault_of(&report.response.body) {
            Some(code) => Err(Unanswered::Refused(Refusal::Code(code))),
            None => Ok(report),
        }
    }

    /// Nothing of arrays, or of texts, is left out.
    fn set_feature<L: Ledger>(&mut self, feature: &[u8], steps: &mut Steps<L>) -> Result<(), Memory>
        requires { IsCommand (canonical (feature_line feature.now)) }
        ensures { OnOk result (self.new ≡ (record self.old {
          session = (spec.turned self.old.session (feature_line feature.now)).next;
        })) }
    {
        let line = lines::feature(self.alloc, feature)?;
        self.session.tell(line.as_slice(), steps)?;
        Ok(())
    }

    /// Opens the session: arrays and texts are shown whole.
    #[tactic(auto, using(dp_dap_messages::proofs::NulLaws::children_sent, dp_dap_messages::proofs::NulLaws::data_sent))]
    fn initialize<L: Ledger>(&mut self, steps: &mut Steps<L>) -> Result<Effect, Memory>
        ensures { IfOk result (λ effect. DidSo (Ok (spec.initialized self.old)) effect self.new) }
    {
        let alloc = self.alloc;
        self.set_feature(b"max_children", steps)?;
        self.set_feature(b"max_data", steps)?;
        self.stage = Stage::Ready;
        let body = messages::capabilities(alloc)?;
        let mut effect = bare(alloc, Some(body));
        effect.news = News::Initialized;
        Ok(effect)
    }

    /// Starts the program, once launch and configurationDone have both come.
    fn start<L: Ledger>(&mut self, steps: &mut Steps<L>) -> Result<Effect, Memory>
        ensures { IfOk result (λ effect.
            DidSo (Ok (spec.start self.old.launched self.old.configured self.old)) effect self.new) }
    {
        match self.launched {
            Some(true) if self.configured => {
                self.go_on(Continuation::StepInto, StopReason::Entry, None, steps)
            }
            Some(false) if self.configured => {
                self.go_on(Continuation::Run, StopReason::Breakpoint, None, steps)
            }
            _ => Ok(bare(self.alloc, None)),
        }
    }

    /// Goes on from a stop.
    fn continue_on<L: Ledger>(
        &mut self,
        mode: Continuation,
        steps: &mut Steps<L>,
    ) -> Result<Effect, Memory>
        ensures { IfOk result (λ effect. DidSo (Ok (spec.continued mode self.old)) effect self.new) }
    {
        match mode {
            Continuation::Run => {
                let body = messages::all_continued(self.alloc)?;
                self.go_on(mode, StopReason::Breakpoint, Some(body), steps)
            }
            Continuation::StepInto => self.go_on(mode, StopReason::Step, None, steps),
            Continuation::StepOver => self.go_on(mode, StopReason::Step, None, steps),
            Continuation::StepOut => self.go_on(mode, StopReason::Step, None, steps),
        }
    }

    /// Goes on to the next stop or to the end.
    fn go_on<L: Ledger>(
        &mut self,
        mode: Continuation,
        reason: StopReason,
        body: Option<Value>,
        steps: &mut Steps<L>,
    ) -> Result<Effect, Memory>
        ensures { IfOk result (λ effect.
            DidSo (Ok (spec.gone_on mode reason (option_map view body) self.old)) effect self.new) }
    {
        let written = self.advance(mode, steps)?;
        let news = self.settle(reason, steps)?;
        let mut effect = bare(self.alloc, body);
        effect.written = written;
        effect.news = news;
        Ok(effect)
    }

    /// Goes on in the session, and forgets the references: what the program wrote.
    fn advance<L: Ledger>(
        &mut self,
        mode: Continuation,
        steps: &mut Steps<L>,
    ) -> Result<Bytes, Memory>
        ensures { IfOk result (λ written. Advances mode written self.old self.new) }
    {
        let line = lines::going(self.alloc, mode)?;
        let report = self.session.tell(line.as_slice(), steps)?;
        self.places = Vec::new(self.alloc);
        Ok(report.written)
    }

    /// What became of a program that went on: it stands, or has ended.
    fn settle<L: Ledger>(
        &mut self,
        reason: StopReason,
        steps: &mut Steps<L>,
    ) -> Result<News, Memory>
        ensures { IfOk result (λ news. Settles reason news self.old self.new) }
    {
        if has_ended(self.session.phase()) {
            return self.end(steps);
        }
        self.stage = Stage::Stopped;
        Ok(News::Stopped(reason))
    }

    /// Ends the session with its program, by one run more.
    fn end<L: Ledger>(&mut self, steps: &mut Steps<L>) -> Result<News, Memory>
        ensures { IfOk result (λ news. let last = spec.turned self.old.session (going_line Continuation.Run) in
            (news ≡ News.Ended (spec.code_of last.ended))
            × (self.new ≡ (record self.old { stage = Stage.Over; session = last.next; over = last.ended }))) }
    {
        let line = lines::going(self.alloc, Continuation::Run)?;
        let report = self.session.tell(line.as_slice(), steps)?;
        self.stage = Stage::Over;
        self.over = report.ended;
        Ok(News::Ended(code_of(report.ended)))
    }

    /// Removes the breakpoints of a path, and sets those that are asked for.
    fn set_breakpoints<L: Ledger>(
        &mut self,
        path: Bytes,
        asked: Items<Asked>,
        steps: &mut Steps<L>,
    ) -> Result<Effect, Memory>
        ensures { IfOk result (λ effect.
            DidSo (Ok (spec.breakpoints_set path asked self.old)) effect self.new) }
    {
        let alloc = self.alloc;
        self.clear_breakpoints(path.as_slice(), steps)?;
        let told = self.set_each(path.as_slice(), asked.as_slice(), steps)?;
        let body = messages::list(alloc, "breakpoints", told)?;
        Ok(bare(alloc, Some(body)))
    }

    /// Sets breakpoints in their order, and tells of each.
    fn set_each<L: Ledger>(
        &mut self,
        path: &[u8],
        asked: &[Asked],
        steps: &mut Steps<L>,
    ) -> Result<Vec<Value>, Memory>
        ensures { IfOk result (λ told. (map view told.items, self.new) ≡ spec.set_all path.now asked.now self.old) }
    {
        let mut told = Vec::new(self.alloc);
        for one in asked {
            told.push(self.set_breakpoint(path, one, steps)?)?;
        }
        Ok(told)
    }

    /// Removes the breakpoints of a path.
    fn clear_breakpoints<L: Ledger>(
        &mut self,
        path: &[u8],
        steps: &mut Steps<L>,
    ) -> Result<(), Memory>
        ensures { OnOk result (self.new ≡ spec.cleared path.now self.old) }
    {
        let alloc = self.alloc;
        let kept = mem::replace(&mut self.kept, Vec::new(alloc));
        remove_all(alloc, &mut self.session, path, kept.as_slice(), steps)?;
        self.kept = others(path, kept);
        Ok(())
    }

    /// Sets a breakpoint, and tells of it.
    fn set_breakpoint<L: Ledger>(
        &mut self,
        path: &[u8],
        asked: &Asked,
        steps: &mut Steps<L>,
    ) -> Result<Value, Memory>
        ensures { IfOk result (λ value. (view value, self.new) ≡ spec.set_one path.now asked.now self.old) }
    {
        match asked.hits {
            Hits::Any => self.set_with(path, asked, None, steps),
            Hits::On(hits) => self.set_with(path, asked, Some(hits), steps),
            Hits::Bad => messages::unverified(self.alloc, Refusal::BadArguments),
        }
    }

    /// Sets a breakpoint, which stops at the hit of this number if one is asked for, and tells of it.
    fn set_with<L: Ledger>(
        &mut self,
        path: &[u8],
        asked: &Asked,
        hits: Option<u32>,
        steps: &mut Steps<L>,
    ) -> Result<Value, Memory>
        ensures { IfOk result (λ value. (view value, self.new) ≡ spec.set_by path.now asked.now.line self.old
            (spec.replied self.old (set_line path.now asked.now.line hits asked.now.condition))) }
    {
        let alloc = self.alloc;
        let line = lines::set(alloc, path, asked.line, hits, &asked.condition)?;
        match self.ask(line.as_slice(), steps) {
            Ok(report) => self.keep(path, asked.line, &report),
            Err(Unanswered::Refused(why)) => messages::unverified(alloc, why),
            Err(Unanswered::Memory) => Err(Memory),
        }
    }

    /// Keeps a breakpoint that was set, and tells of it.
    fn keep(&mut self, path: &[u8], line: u32, report: &Report) -> Result<Value, Memory>
        ensures value { IfOk result (λ value. view value
            ≡ verified (spec.id_in (turn_with report.now self.old.session)) line) }
        ensures kept { OnOk result (self.new ≡ spec.with_kept path.now (turn_with report.now self.old.session)
            self.old) }
    {
        let alloc = self.alloc;
        let id = id_in(&report.response);
        let path = Bytes::from_slice(alloc, path)?;
        self.kept.push(Kept { path, id })?;
        messages::verified(alloc, id, line)
    }

    /// Shows frames of the stack.
    fn show_stack<L: Ledger>(
        &mut self,
        first: u32,
        most: u32,
        steps: &mut Steps<L>,
    ) -> Result<Effect, Unanswered>
        ensures ok { IfOk result (λ effect. DidSo (spec.stack_shown first most self.old) effect self.new) }
        ensures refused { IfErr result (λ why. Refuses (spec.stack_shown first most self.old) why self.old self.new) }
    {
        let alloc = self.alloc;
        let line = lines::stack(alloc)?;
        let report = self.ask(line.as_slice(), steps)?;
        let all = stacks_in(&report.response.body);
        let frames = shown::frames(alloc, first, most, all)?;
        let body = messages::frames_body(alloc, frames, all.len())?;
        Ok(bare(alloc, Some(body)))
    }

    /// Lists places behind the others.
    fn list(&mut self, places: Vec<Place>) -> Result<(), Memory>
        ensures ok { OnOk result (self.new ≡ (record self.old { places = self.old.places ++ places.items })) }
    {
        let mut places = places;
        self.places.append(&mut places)?;
        Ok(())
    }

    /// How many places are listed.
    fn listed(&self) -> usize
        ensures { result ≡ length self.now.places }
    {
        self.places.len()
    }

    /// Whether so many places more are too many.
    fn is_full(&self, more: usize) -> bool
        ensures { result ≡ not (nat_le (length self.now.places + more) spec.reference_limit) }
    {
        match self.listed().checked_add(more) {
            Some(count) => count > REFERENCE_LIMIT,
            None => true,
        }
    }

    /// The contexts of a frame. What the session refuses is that there is no such frame (301).
    fn ask_contexts<L: Ledger>(
        &mut self,
        level: u32,
        steps: &mut Steps<L>,
    ) -> Result<Report, Unanswered>
        ensures ok { IfOk result (λ report. Looks
            (spec.frame_known self.old level (spec.replied self.old (frame_line level))) report self.old self.new) }
        ensures refused { IfErr result (λ why. Refuses
            (spec.frame_known self.old level (spec.replied self.old (frame_line level))) why self.old self.new) }
    {
        let line = lines::frame(self.alloc, level)?;
        match self.ask(line.as_slice(), steps) {
            Ok(_) => {}
            Err(Unanswered::Refused(_)) => return Err(Unanswered::Refused(Refusal::BadArguments)),
            Err(Unanswered::Memory) => return Err(Unanswered::Memory),
        }
        let line = lines::contexts(self.alloc)?;
        self.ask(line.as_slice(), steps)
    }

    /// Shows the scopes of a frame; frames are numbered from 1.
    fn show_scopes<L: Ledger>(
        &mut self,
        frame: u32,
        steps: &mut Steps<L>,
    ) -> Result<Effect, Unanswered>
        ensures ok { IfOk result (λ effect. DidSo (spec.scopes_shown frame self.old) effect self.new) }
        ensures refused { IfErr result (λ why. Refuses (spec.scopes_shown frame self.old) why self.old self.new) }
    {
        let alloc = self.alloc;
        let Some(level) = frame.checked_sub(1) else {
            return Err(Unanswered::Refused(Refusal::BadArguments));
        };
        let report = self.ask_contexts(level, steps)?;
        let contexts = contexts_in(&report.response.body);
        let count = contexts.len();
        if self.is_full(count) {
            return Err(Unanswered::Refused(Refusal::TooManyReferences));
        }
        let scopes = shown::scopes(alloc, self.listed(), contexts)?;
        let places = shown::context_places(alloc, level, contexts)?;
        self.list(places)?;
        let body = messages::list(alloc, "scopes", scopes)?;
        Ok(bare(alloc, Some(body)))
    }

    /// What a reference stands for.
    fn place_at(&self, reference: u32) -> Option<&Place>
        ensures { option_map (λ p. p.now) result ≡ spec.place_at reference self.now }
    {
        let index = reference.checked_sub(1)?;
        self.places.as_slice().get(index as usize)
    }

    /// Shows what a reference stands for.
    fn show_variables<L: Ledger>(
        &mut self,
        reference: u32,
        steps: &mut Steps<L>,
    ) -> Result<Effect, Unanswered>
        ensures ok { IfOk result (λ effect.
            DidSo (spec.place_shown (spec.place_at reference self.old) self.old) effect self.new) }
        ensures refused { IfErr result (λ why.
            Refuses (spec.place_shown (spec.place_at reference self.old) self.old) why self.old self.new) }
    {
        let place = match self.place_at(reference) {
            Some(place) => lines::copy(self.alloc, place)?,
            None => return Err(Unanswered::Refused(Refusal::BadArguments)),
        };
        self.show_place(&place, steps)
    }

    /// Shows the variables of a context, or the entries of an array.
    fn show_place<L: Ledger>(
        &mut self,
        place: &Place,
        steps: &mut Steps<L>,
    ) -> Result<Effect, Unanswered>
        ensures ok { IfOk result (λ effect. DidSo (spec.place_shown (Some place.now) self.old) effect self.new) }
        ensures refused { IfErr result (λ why.
            Refuses (spec.place_shown (Some place.now) self.old) why self.old self.new) }
    {
        let alloc = self.alloc;
        let line = lines::look(alloc, place)?;
        let report = self.ask(line.as_slice(), steps)?;
        let held = held_at(place, shown_in(&report.response.body));
        let places = shown::places_of(alloc, place, held)?;
        let count = places.len();
        if self.is_full(count) {
            return Err(Unanswered::Refused(Refusal::TooManyReferences));
        }
        let variables = shown::variables(alloc, self.listed(), held)?;
        self.list(places)?;
        let body = messages::list(alloc, "variables", variables)?;
        Ok(bare(alloc, Some(body)))
    }

    /// Evaluates an expression.
    fn evaluate<L: Ledger>(
        &mut self,
        expression: Bytes,
        steps: &mut Steps<L>,
    ) -> Result<Effect, Unanswered>
        ensures ok { IfOk result (λ effect. DidSo (spec.evaluated expression self.old) effect self.new) }
        ensures refused { IfErr result (λ why. Refuses (spec.evaluated expression self.old) why self.old self.new) }
    {
        let alloc = self.alloc;
        let line = lines::eval(alloc, expression.as_slice())?;
        let report = self.ask(line.as_slice(), steps)?;
        let text = result_in(alloc, shown_in(&report.response.body))?;
        let body = messages::result_body(alloc, text.as_slice())?;
        let mut effect = bare(alloc, Some(body));
        effect.written = report.written;
        Ok(effect)
    }

    /// Ends the gateway, and its session unless that has ended.
    fn disconnect<L: Ledger>(
        &mut self,
        detaches: bool,
        steps: &mut Steps<L>,
    ) -> Result<Effect, Memory>
        ensures { IfOk result (λ effect.
            DidSo (Ok (spec.disconnected self.old.stage detaches self.old)) effect self.new) }
    {
        match self.stage {
            Stage::New => self.close(detaches, steps),
            Stage::Ready => self.close(detaches, steps),
            Stage::Stopped => self.close(detaches, steps),
            Stage::Over => {
                let mut effect = bare(self.alloc, None);
                effect.ended = self.over;
                Ok(effect)
            }
        }
    }

    /// Ends the gateway with its session.
    fn close<L: Ledger>(&mut self, detaches: bool, steps: &mut Steps<L>) -> Result<Effect, Memory>
        ensures { IfOk result (λ effect. DidSo (Ok (spec.closed detaches self.old)) effect self.new) }
    {
        let alloc = self.alloc;
        let mut effect = bare(alloc, None);
        let line = lines::finish(alloc, detaches)?;
        let report = self.session.tell(line.as_slice(), steps)?;
        effect.ended = report.ended;
        Ok(effect)
    }
}
