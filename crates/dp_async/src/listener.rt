//! A session that listens, from its first packet to its end.
ghost use Rattle.std.specs.Prelude.{◌≡◌, ◌+◌, ◌<◌, ◌≤◌, [], ◌∷◌, None, false, length, option_map, take, IfOk};
ghost use Rattle.std.specs.Prelude.{MatchResult, OnErr, OnOk};
ghost use Rattle.dp_conversation.specs.Service.{piece_limit};
ghost use Rattle.dp_wire.specs.Frames.{BeginsNoCommand, IsCommand, IsPacketText, packet_frame};
ghost use Rattle.dp_engine.specs.Session.{opening};
ghost use Rattle.dp_engine.specs.Passes.{depth_from, mode_of, passed, passing, AreTextsOf};
ghost use Rattle.dp_async.specs.Heard.{byte_limit, number_of_arrival, on_its_way, GoesOn, MayGoOn, SetOut, Stage};
ghost use Rattle.dp_async.specs.Heard.{Stopped};
ghost use Rattle.dp_async.specs.inner.Standing as spec;
ghost use Rattle.dp_async.specs.inner.Standing.{objects_of, stage_of, Objects, Start, IsCut, IsSame, StandsAt};
ghost use Rattle.dp_async.specs.inner.Standing.{StandsOver};
ghost use Rattle.dp_async.specs.Served.{IsLater, input_of};

use crate::answers::{own_text, running_answer};
use crate::arrival::Arrival;
use dp_bytes::{Bytes, Items, Memory};
use dp_conversation::{Fault, SessionOver, deliver, send};
use dp_engine::{Answer, Departure, Going, Passing, Phase, Session, SessionEnd, Steps, line_in};
use dp_outside::Sink;
use dp_polled::{Look, Polled};
use dp_wire::Commands;
use std::alloc::Global;
use std::sync::ledger::Ledger;

/// The most bytes that one session reads.
pub const BYTE_LIMIT: usize = 16_777_216;

/// The most bytes that are read at once.
pub(crate) const PIECE: usize = 8192;

/// After this command the program's output goes to the program alone.
const QUIET: &[u8] = b"stdout -i 1 -c 0";

/// Why no more is read, or how a command has ended the session.
pub(crate) type Over = SessionOver<SessionEnd>;

/// What cuts a session short.
pub(crate) type Cut = Fault<SessionEnd>;

/// What a look brought.
#[derive(Clone, Copy, Debug, PartialEq, Eq)]
enum Came {
    /// Nothing was there yet.
    NotYet,
    /// More is held.
    More,
    /// The input is at its end.
    Ceased,
    /// It has failed.
    Failed,
}

/// What a command in front of a continuation on its way is to it.
#[derive(Clone, Copy, Debug, PartialEq, Eq)]
enum Hearing {
    /// It was answered.
    Answered,
    /// It stops the program.
    Stops,
    /// It stays, or none is there.
    Stays,
}

/// What a moment is to a continuation, once what came there was heard.
#[derive(Debug, Drop)]
enum Moment {
    /// It goes on.
    Goes,
    /// The program has stopped, or has ended.
    Halts,
    /// No more is read.
    Over(Over),
}

/// A session, what is held of what it read, and what it heard.
#[derive(Drop)]
pub(crate) struct Listener<'a> {
    pub(crate) session: Session<'a>,
    pub(crate) log: Vec<Arrival>,
    pub(crate) held: Commands,
    /// How many moments of the program have come.
    pub(crate) moments: u64,
    /// How many bytes were read.
    pub(crate) count: usize,
    pub(crate) alloc: Global,
}

/// A number more by one. None is as great as to have no room.
fn one_more(number: u64) -> Result<u64, Memory>
    ensures { IfOk result (λ more. more ≡ number + 1) }
{
    if number == u64::MAX {
        return Err(Memory);
    }
    Ok(number + 1)
}

impl<'a> Listener<'a> {
    /// A session that has heard nothing yet. Takes no memory.
    pub(crate) fn new(alloc: Global, session: Session<'a>) -> Self
        ensures session { result.session ≡ session.entry }
        ensures log { result.log.items ≡ [] }
        ensures held { result.held.held ≡ [] }
        ensures moments { result.moments ≡ 0 }
        ensures count { result.count ≡ 0 }
    {
        Listener {
            session,
            log: Vec::new(alloc),
            held: Commands::new(alloc),
            moments: 0,
            count: 0,
            alloc,
        }
    }

    // ---- what comes

    /// The number of the moment at which something comes.
    fn number(&self) -> Result<u64, Memory>
        ensures { IfOk result (λ number. number ≡ number_of_arrival self.now.session self.now.moments) }
    {
        match self.session.phase() {
            Phase::Starting => Ok(self.moments),
            Phase::Break => Ok(self.moments),
            Phase::Stopping => one_more(self.moments),
        }
    }

    /// Notes what came now, and holds it.
    fn note(&mut self, piece: &[u8]) -> Result<(), Memory>
        requires { self.old.count + length piece.now ≤ byte_limit }
        ensures session { self.new.session ≡ self.old.session }
        ensures moments { self.new.moments ≡ self.old.moments }
        ensures notes { OnOk result (spec.Notes (number_of_arrival self.old.session self.old.moments) piece.now
            self.old self.new) }
        ensures log { spec.LogGrows self.old self.new }
        ensures kept { OnErr result (self.new.held.held ≡ self.old.held.held) }
        ensures counted { OnErr result (self.new.count ≡ self.old.count) }
    {
        let moment = self.number()?;
        let bytes = Bytes::from_slice(self.alloc, piece)?;
        self.log.push(Arrival { moment, bytes })?;
        self.held.feed(piece)?;
        self.count += piece.len();
        Ok(())
    }

    /// How many bytes may be read at once.
    fn room(&self) -> usize
        requires { self.now.count < byte_limit }
        ensures some { 0 < result }
        ensures few { result ≤ piece_limit }
        ensures fits { self.now.count + result ≤ byte_limit }
    {
        PIECE.min(BYTE_LIMIT - self.count)
    }

    /// Looks once whether something came, and waits for nobody.
    fn look<Q: Polled>(&mut self, polled: &mut Q, buffer: &mut [u8]) -> Result<Came, Memory>
        requires some { 0 < length buffer.old }
        requires fits { self.old.count + length buffer.old ≤ byte_limit }
        ensures session { self.new.session ≡ self.old.session }
        ensures moments { self.new.moments ≡ self.old.moments }
        ensures brings { IfOk result (λ came. spec.Brings came (number_of_arrival self.old.session self.old.moments)
            self.old self.new (input_of Q.Polled polled.old) (input_of Q.Polled polled.new)) }
        ensures log { spec.LogGrows self.old self.new }
        ensures count { self.new.count ≤ self.old.count + length buffer.old }
        ensures kept { OnErr result (self.new.held.held ≡ self.old.held.held) }
        ensures counted { OnErr result (self.new.count ≡ self.old.count) }
        ensures looks { Q.looks polled.new ≡ Q.looks polled.old + 1 }
        ensures later { IsLater (input_of Q.Polled polled.old) (input_of Q.Polled polled.new) }
    {
        match polled.look(buffer) {
            Err(_) => {
                self.note(&[])?;
                Ok(Came::Failed)
            }
            Ok(Look::NotYet) => Ok(Came::NotYet),
            Ok(Look::End) => {
                self.note(&[])?;
                Ok(Came::Ceased)
            }
            Ok(Look::Bytes(count)) => {
                self.note(&buffer[..count])?;
                Ok(Came::More)
            }
        }
    }

    /// Waits until something comes. Answers why nothing does, if that is so.
    fn wait<Q: Polled>(&mut self, polled: &mut Q, buffer: &mut [u8]) -> Result<Option<Over>, Memory>
        requires some { 0 < length buffer.old }
        requires fits { self.old.count + length buffer.old ≤ byte_limit }
        ensures session { self.new.session ≡ self.old.session }
        ensures moments { self.new.moments ≡ self.old.moments }
        ensures brings { IfOk result (λ over. spec.WaitBrings over
            (number_of_arrival self.old.session self.old.moments) self.old self.new
            (input_of Q.Polled polled.old) (input_of Q.Polled polled.new)) }
        ensures log { spec.LogGrows self.old self.new }
        ensures count { self.new.count ≤ self.old.count + length buffer.old }
        ensures looks { Q.looks polled.new ≡ Q.looks polled.old }
        ensures later { IsLater (input_of Q.Polled polled.old) (input_of Q.Polled polled.new) }
    {
        match polled.wait(buffer) {
            Err(_) => {
                self.note(&[])?;
                Ok(Some(SessionOver::ReadFault))
            }
            Ok(0) => {
                self.note(&[])?;
                Ok(Some(SessionOver::LinkEnd))
            }
            Ok(count) => {
                self.note(&buffer[..count])?;
                Ok(None)
            }
        }
    }

    /// Whether a limit was passed: no command begins what is held, or the most bytes were read.
    fn too_much(&self) -> Option<Over>
        ensures { spec.IsTooMuchBy result self.now.held.held self.now.count }
    {
        if self.held.next().is_err() {
            let offset = self.count.saturating_sub(self.held.bytes().len()) as u64;
            return Some(SessionOver::BadCommandFrame { offset });
        }
        if self.count >= BYTE_LIMIT {
            return Some(SessionOver::ByteLimit);
        }
        None
    }

    // ---- while a continuation is on its way

    /// Hears the command at the front, if it is one that a running program hears.
    fn hear<K: Sink>(&mut self, sink: &mut K) -> Result<Hearing, Cut>
        ensures count { self.new.count ≡ self.old.count }
        ensures shrinks { length self.new.held.held ≤ length self.old.held.held }
        ensures less { IfOk result (λ h. h ≡ Hearing.Answered
            → length self.new.held.held < length self.old.held.held) }
        ensures position { (start : Start) (going : Going) (o : Objects)
            → StandsAt start (on_its_way going GoesOn) self.old (spec.over_link K.Sink sink.old o)
            → MatchResult result
            (λ h. spec.HearsAt h start going self.new (spec.over_link K.Sink sink.new o))
            (λ fault. IsCut start fault self.new.log.items self.new.session
            (spec.over_link K.Sink sink.new o)) }
    {
        let alloc = self.alloc;
        let range = match self.held.next() {
            Ok(Some(range)) => range,
            Ok(None) => return Ok(Hearing::Stays),
            Err(_) => return Ok(Hearing::Stays),
        };
        let line = line_in(alloc, &self.held.bytes()[..range.end])?;
        let Some(told) = running_answer(alloc, &line)? else {
            return Ok(Hearing::Stays);
        };
        self.held.drop_front();
        send(alloc, told.text.as_slice(), sink)?;
        Ok(hearing_of(told.stops))
    }

    /// Hears all that a running program hears, up to what stops it. Answers whether that came.
    fn hear_all<K: Sink>(&mut self, sink: &mut K) -> Result<bool, Cut>
        ensures count { self.new.count ≡ self.old.count }
        ensures shrinks { length self.new.held.held ≤ length self.old.held.held }
        ensures position { (start : Start) (going : Going) (o : Objects)
            → StandsAt start (on_its_way going GoesOn) self.old (spec.over_link K.Sink sink.old o)
            → MatchResult result
            (λ stops. spec.HearsAllAt stops start going self.new
            (spec.over_link K.Sink sink.new o))
            (λ fault. IsCut start fault self.new.log.items self.new.session
            (spec.over_link K.Sink sink.new o)) }
    {
        'commands: loop {
            match self.hear(sink)? {
                Hearing::Answered => {}
                Hearing::Stops => return Ok(true),
                Hearing::Stays => return Ok(false),
            }
        }
    }

    /// Answers a continuation where its program has stopped.
    fn arrive<K: Sink, E: Sink>(
        &mut self,
        going: Going,
        sink: &mut K,
        out: &mut E,
    ) -> Result<(), Cut>
        ensures count { self.new.count ≡ self.old.count }
        ensures held { self.new.held.held ≡ self.old.held.held }
        ensures position { (start : Start) (o : Objects)
            → StandsAt start (on_its_way going Stopped) self.old
            (spec.over_sinks K.Sink E.Sink sink.old out.old o)
            → MatchResult result
            (λ _. StandsAt start None self.new
            (spec.over_sinks K.Sink E.Sink sink.new out.new o))
            (λ fault. IsCut start fault self.new.log.items self.new.session
            (spec.over_sinks K.Sink E.Sink sink.new out.new o)) }
    {
        let answer = self.session.arrive(going)?;
        deliver(self.alloc, answer, sink, out)?;
        Ok(())
    }

    /// Lets a continuation go on without an answer: what the program wrote on the way goes to its own output, as what
    /// it writes from here on does.
    fn leave<K: Sink, E: Sink, L: Ledger>(
        &mut self,
        going: Going,
        sink: &mut K,
        out: &mut E,
        steps: &mut Steps<L>,
    ) -> Result<(), Cut>
        ensures log { self.new.log.items ≡ self.old.log.items }
        ensures count { self.new.count ≡ self.old.count }
        ensures held { self.new.held.held ≡ self.old.held.held }
        ensures position { (start : Start) (stage : Stage) (o : Objects)
            → StandsOver start (on_its_way going stage) self.old
            (spec.over_sinks K.Sink E.Sink sink.old out.old o)
            → MatchResult result
            (λ _. StandsOver start None self.new
            (spec.over_sinks K.Sink E.Sink sink.new out.new o))
            (λ fault. IsCut start fault self.new.log.items self.new.session
            (spec.over_sinks K.Sink E.Sink sink.new out.new o)) }
    {
        drop(self.session.answer(QUIET, steps)?);
        let arrived = self.session.arrive(going)?;
        let answer = without_packets(self.alloc, arrived);
        deliver(self.alloc, answer, sink, out)?;
        Ok(())
    }

    /// Passes the next moment of a continuation.
    fn pass<L: Ledger>(&mut self, going: &Going, steps: &mut Steps<L>) -> Result<Passing, Memory>
        ensures same { IsSame self.old self.new }
        ensures passing { IfOk result (λ p. p ≡ passing (mode_of going.now) (depth_from going.now) self.old.session) }
        ensures session { OnOk result (self.new.session ≡ passed self.old.session) }
        ensures moments { IfOk result (λ p. self.new.moments ≡ spec.moments_past p self.old.moments) }
    {
        let passing = self.session.pass(going, steps)?;
        match passing {
            Passing::On => self.moments = one_more(self.moments)?,
            Passing::Stop => self.moments = one_more(self.moments)?,
            Passing::End => {}
        }
        Ok(passing)
    }

    /// Passes the next moment, and if the program does not stop there looks once and hears what is held: where it has
    /// just set out, or more has come.
    fn moment<Q: Polled, K: Sink, L: Ledger>(
        &mut self,
        going: &Going,
        fresh: bool,
        polled: &mut Q,
        sink: &mut K,
        steps: &mut Steps<L>,
        buffer: &mut [u8; PIECE],
    ) -> Result<Moment, Cut>
        requires { self.old.count < byte_limit }
        ensures within { self.new.count ≤ byte_limit }
        ensures later { self.old.count ≤ self.new.count }
        ensures shrinks { length self.new.held.held + self.old.count ≤ length self.old.held.held + self.new.count }
        ensures position { (start : Start) (o : Objects)
            → StandsAt start (on_its_way going.now (stage_of fresh)) self.old
            (spec.over_input Q.Polled K.Sink polled.old sink.old o)
            → MayGoOn (stage_of fresh) self.old.held.held → (BeginsNoCommand self.old.held.held → ⊥)
            → MatchResult result
            (λ m. spec.MomentAt m start going.now self.new
            (spec.over_input Q.Polled K.Sink polled.new sink.new o))
            (λ fault. IsCut start fault self.new.log.items self.new.session
            (spec.over_input Q.Polled K.Sink polled.new sink.new o)) }
    {
        match self.pass(going, steps)? {
            Passing::On => {}
            Passing::Stop => return Ok(Moment::Halts),
            Passing::End => return Ok(Moment::Halts),
        }
        let room = self.room();
        match self.look(polled, &mut buffer[..room])? {
            Came::NotYet => self.hear_if(fresh, sink),
            Came::More => self.hear_if(true, sink),
            Came::Ceased => Ok(Moment::Over(SessionOver::LinkEnd)),
            Came::Failed => Ok(Moment::Over(SessionOver::ReadFault)),
        }
    }

    /// Hears what is held, if that was not heard yet.
    fn hear_if<K: Sink>(&mut self, unheard: bool, sink: &mut K) -> Result<Moment, Cut>
        ensures count { self.new.count ≡ self.old.count }
        ensures shrinks { length self.new.held.held ≤ length self.old.held.held }
        ensures position { (start : Start) (going : Going) (o : Objects)
            → StandsAt start (on_its_way going GoesOn) self.old (spec.over_link K.Sink sink.old o)
            → (unheard ≡ false → spec.IsHeardOut self.old.held.held)
            → MatchResult result
            (λ m. spec.MomentAt m start going self.new (spec.over_link K.Sink sink.new o))
            (λ fault. IsCut start fault self.new.log.items self.new.session
            (spec.over_link K.Sink sink.new o)) }
    {
        if !unheard {
            return Ok(Moment::Goes);
        }
        if self.hear_all(sink)? {
            return Ok(Moment::Halts);
        }
        Ok(Moment::Goes)
    }

    /// A continuation goes on, from moment to moment, until it is answered or no more is read.
    fn go<Q: Polled, K: Sink, E: Sink, L: Ledger>(
        &mut self,
        going: Going,
        polled: &mut Q,
        sink: &mut K,
        out: &mut E,
        steps: &mut Steps<L>,
        buffer: &mut [u8; PIECE],
    ) -> Result<Option<Over>, Cut>
        requires { self.old.count ≤ byte_limit }
        ensures within { self.new.count ≤ byte_limit }
        ensures later { self.old.count ≤ self.new.count }
        ensures shrinks { length self.new.held.held + self.old.count ≤ length self.old.held.held + self.new.count }
        ensures position { (start : Start)
            → StandsAt start (on_its_way going SetOut) self.old
            (objects_of Q.Polled K.Sink E.Sink polled.old sink.old out.old)
            → MatchResult result
            (λ over. spec.Obeyed over start self.new
            (objects_of Q.Polled K.Sink E.Sink polled.new sink.new out.new))
            (λ fault. IsCut start fault self.new.log.items self.new.session
            (objects_of Q.Polled K.Sink E.Sink polled.new sink.new out.new)) }
    {
        let mut fresh = true;
        'moments: for _ in 0..u64::MAX {
            if let Some(over) = self.too_much() {
                self.leave(going, sink, out, steps)?;
                return Ok(Some(over));
            }
            match self.moment(&going, fresh, polled, sink, steps, buffer)? {
                Moment::Goes => fresh = false,
                Moment::Halts => {
                    self.arrive(going, sink, out)?;
                    return Ok(None);
                }
                Moment::Over(over) => {
                    self.leave(going, sink, out, steps)?;
                    return Ok(Some(over));
                }
            }
        }
        // No run has so many moments.
        Err(Fault::Memory)
    }

    // ---- while none is

    /// What the session gives of a command at the front, which has so many bytes.
    fn depart<L: Ledger>(&mut self, end: usize, steps: &mut Steps<L>) -> Result<Departure, Memory>
        requires within { end ≤ length self.old.held.held }
        requires command { IsCommand (take end self.old.held.held) }
        ensures same { IsSame self.old self.new }
        ensures moments { self.new.moments ≡ self.old.moments }
        ensures departs { IfOk result (λ departure. spec.DepartsAt departure self.old.session self.new.session
            (take end self.old.held.held)) }
        ensures are_texts { IfOk result AreTextsOf }
    {
        let line = line_in(self.alloc, &self.held.bytes()[..end])?;
        match own_text(self.alloc, &line)? {
            None => self.session.depart_read(line, steps),
            Some(text) => Ok(Departure::Answered(answer_of(self.alloc, text)?)),
        }
    }

    /// Delivers the answer to a command, or lets a continuation go on. Answers why no more is read, if that is so.
    fn obey<Q: Polled, K: Sink, E: Sink, L: Ledger>(
        &mut self,
        departure: Departure,
        polled: &mut Q,
        sink: &mut K,
        out: &mut E,
        steps: &mut Steps<L>,
        buffer: &mut [u8; PIECE],
    ) -> Result<Option<Over>, Cut>
        requires within { self.old.count ≤ byte_limit }
        requires are_texts { AreTextsOf departure }
        ensures within { self.new.count ≤ byte_limit }
        ensures later { self.old.count ≤ self.new.count }
        ensures shrinks { length self.new.held.held + self.old.count ≤ length self.old.held.held + self.new.count }
        ensures position { (start : Start)
            → spec.IsDue departure start self.old
            (objects_of Q.Polled K.Sink E.Sink polled.old sink.old out.old)
            → MatchResult result
            (λ over. spec.Obeyed over start self.new
            (objects_of Q.Polled K.Sink E.Sink polled.new sink.new out.new))
            (λ fault. IsCut start fault self.new.log.items self.new.session
            (objects_of Q.Polled K.Sink E.Sink polled.new sink.new out.new)) }
    {
        match departure {
            Departure::Goes(going) => self.go(going, polled, sink, out, steps, buffer),
            Departure::Answered(answer) => {
                let ended = deliver(self.alloc, answer, sink, out)?;
                Ok(over_by(ended))
            }
        }
    }

    /// Answers the whole commands that are held. Answers why no more is read, or nothing where more of a command has to
    /// come.
    fn answer_held<Q: Polled, K: Sink, E: Sink, L: Ledger>(
        &mut self,
        polled: &mut Q,
        sink: &mut K,
        out: &mut E,
        steps: &mut Steps<L>,
        buffer: &mut [u8; PIECE],
    ) -> Result<Option<Over>, Cut>
        requires { self.old.count ≤ byte_limit }
        ensures within { self.new.count ≤ byte_limit }
        ensures later { self.old.count ≤ self.new.count }
        ensures room { IfOk result (λ over. over ≡ None → self.new.count < byte_limit) }
        ensures position { (start : Start)
            → StandsAt start None self.old
            (objects_of Q.Polled K.Sink E.Sink polled.old sink.old out.old)
            → MatchResult result
            (λ over. spec.HeldAnswered over start self.new
            (objects_of Q.Polled K.Sink E.Sink polled.new sink.new out.new))
            (λ fault. IsCut start fault self.new.log.items self.new.session
            (objects_of Q.Polled K.Sink E.Sink polled.new sink.new out.new)) }
    {
        'commands: loop {
            let range = match self.held.next() {
                Ok(Some(range)) => range,
                Ok(None) => return Ok(self.too_much()),
                Err(_) => return Ok(self.too_much()),
            };
            let departure = self.depart(range.end, steps)?;
            self.held.drop_front();
            let over = self.obey(departure, polled, sink, out, steps, buffer)?;
            if over.is_some() {
                return Ok(over);
            }
        }
    }

    /// Waits until something comes. Answers why no more is read, if that is so.
    fn wait_on<Q: Polled>(
        &mut self,
        polled: &mut Q,
        buffer: &mut [u8; PIECE],
    ) -> Result<Option<Over>, Cut>
        requires { self.old.count < byte_limit }
        ensures within { self.new.count ≤ byte_limit }
        ensures more { IfOk result (λ over. over ≡ None → self.old.count < self.new.count) }
        ensures position { (start : Start) (o : Objects)
            → spec.HeldAnswered None start self.old
            (spec.over_polled Q.Polled polled.old o)
            → MatchResult result
            (λ over. spec.Obeyed over start self.new
            (spec.over_polled Q.Polled polled.new o))
            (λ fault. IsCut start fault self.new.log.items self.new.session
            (spec.over_polled Q.Polled polled.new o)) }
    {
        let room = self.room();
        let over = self.wait(polled, &mut buffer[..room])?;
        Ok(over)
    }

    /// Sends the first packet, and answers each command that comes.
    pub(crate) fn listen<Q: Polled, K: Sink, E: Sink, L: Ledger>(
        &mut self,
        init: &[u8],
        polled: &mut Q,
        sink: &mut K,
        out: &mut E,
        steps: &mut Steps<L>,
    ) -> Result<Over, Cut>
        requires text { IsPacketText init.now }
        requires none { self.old.count ≡ 0 }
        requires held { self.old.held.held ≡ [] }
        requires log { self.old.log.items ≡ [] }
        requires moments { self.old.moments ≡ 0 }
        ensures within { self.new.count ≤ byte_limit }
        ensures position { (start : Start) → start.first ≡ packet_frame init.now
            → self.old.session ≡ opening start.bundle start.bound
            → start.before ≡ objects_of Q.Polled K.Sink E.Sink polled.old sink.old out.old
            → MatchResult result
            (λ over. spec.EndsAt over start self.new
            (objects_of Q.Polled K.Sink E.Sink polled.new sink.new out.new))
            (λ fault. IsCut start fault self.new.log.items self.new.session
            (objects_of Q.Polled K.Sink E.Sink polled.new sink.new out.new)) }
    {
        send(self.alloc, init, sink)?;
        let mut buffer = [0; PIECE];
        'pieces: loop {
            let over = self.answer_held(polled, sink, out, steps, &mut buffer)?;
            if let Some(over) = over {
                return Ok(over);
            }
            let over = self.wait_on(polled, &mut buffer)?;
            if let Some(over) = over {
                return Ok(over);
            }
        }
    }
}

/// What a command that was answered is to a continuation.
fn hearing_of(stops: bool) -> Hearing
    ensures { result ≡ spec.hearing_of stops }
{
    if stops {
        Hearing::Stops
    } else {
        Hearing::Answered
    }
}

/// How a command has ended the session, if one has.
fn over_by(ended: Option<SessionEnd>) -> Option<Over>
    ensures { result ≡ option_map (λ end. SessionOver.Ended end) ended }
{
    match ended {
        Some(end) => Some(SessionOver::Ended(end)),
        None => None,
    }
}

/// An answer without its packets.
fn without_packets(alloc: Global, answer: Answer) -> Answer
    ensures { result ≡ record answer { packets = [] } }
{
    let Answer {
        packets: _,
        program,
        ended,
    } = answer;
    Answer {
        packets: Items::of(Vec::new(alloc)),
        program,
        ended,
    }
}

/// An answer of one packet.
fn answer_of(alloc: Global, text: Bytes) -> Result<Answer, Memory>
    ensures { IfOk result (λ answer. answer ≡ record { packets = text ∷ []; program = []; ended = None }) }
{
    let mut packets = Vec::new(alloc);
    packets.push(text)?;
    Ok(Answer {
        packets: Items::of(packets),
        program: Bytes::of(Vec::new(alloc)),
        ended: None,
    })
}
