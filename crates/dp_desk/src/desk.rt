//! The registry shared by threads. A call takes the turn, calls the registry, and puts it back.

ghost use Rattle.std.specs.Prelude.{ℕ, ◌≡◌, ◌≤◌, [], ◌∷◌, true, false, None, Contains, IfOk, length};
ghost use mathlib.Core.List.{IsPrefix};
ghost use Rattle.dp_registry.specs.declared.entry.Entry.TheVariants as entry;
ghost use Rattle.dp_registry.specs.Journal.{live};
ghost use Rattle.dp_registry.specs.Legal.{IsLegal};
ghost use Rattle.dp_outside.specs.Names.{IsHost, IsKey};
ghost use Rattle.dp_registry.specs.Verdicts.{register_verdict, stop_verdict, admit_verdict, reply_of};
ghost use Rattle.dp_registry.specs.Verdicts.{admit_reply_of};
ghost use Rattle.dp_desk.specs.Made.{Counts, all_shares};
ghost use Rattle.dp_desk.specs.Turns.{view, times, last_of, IsLonger, IsGrown, held_now};
ghost use Rattle.dp_desk.specs.Desks.{held_after, Called, Dismissed, IsNew, IsTwin, Lost, Met, Gained};

use crate::held::{Held, Shares};
use crate::turns::{Both, Count, InOneOrder, Look, PutBack, Take, Twin, View};
use atomic_table::{Refused, Seat, Table};
use dp_bytes::Memory;
use dp_registry::{Pass, Refusal, Registry};
use std::alloc::Global;
use std::marker::Model;
use std::sync::Wait;
use std::sync::ledger::{Blank, Ledger};
use std::thread::yield_now;

/// A registry shared by threads. Contracts see which desk it is.
///
/// It is a table of two words and one slot: word 0 counts the journal, word 1 is 1 while a call has the
/// turn, and the slot has the registry. Its calls other than `split`, `share`, `meet` and `give_back`
/// wait until the turn is free, and try again as long as it is not.
#[derive(Drop)]
pub struct Desk<A: Ledger, B: Ledger, C: Ledger> {
    table: Table<Option<Held<A, B, C>>, View, (), InOneOrder<A, B, C>, Global>,
}

impl<A: Ledger, B: Ledger, C: Ledger> Model for Desk<A, B, C> {
    ghost use Rattle.std.specs.Prelude.{◌≡◌};
    ghost use Rattle.atomic_table.specs.Seated.{TableId, table_id_coded};

    ghost Value = { TableId };

    ghost coded = { table_id_coded };

    ghost view = { λ d. d.table.shared.table_id };

    ghost invariant = { λ d. (d.table.shared.table_id.words ≡ 2) × (d.table.shared.table_id.slots ≡ 1) };
}

/// A caller's token. Contracts see what the caller knows: the journal as it last saw it, the sessions
/// that it was given and has not dismissed, the entries that it made, and its share of the desk.
#[derive(Drop)]
pub struct Clerk<A: Ledger, B: Ledger, C: Ledger> {
    seat: Seat<Option<Held<A, B, C>>, View>,
    shares: Shares<A, B, C>,
}

impl<A: Ledger, B: Ledger, C: Ledger> Model for Clerk<A, B, C> {
    ghost use Rattle.std.specs.Prelude.{◌≡◌, [], false};
    ghost use Rattle.dp_desk.specs.Desks.{Known};
    ghost use Rattle.dp_desk.specs.Turns.{known};

    ghost Value = { Known };

    ghost view = { λ c. known c.seat.table_id c.seat.me.0 c.shares };

    ghost invariant = { λ c. (c.seat.me.1 ≡ []) × (c.seat.me.0.turn ≡ false) × (c.seat.me.0.met ≡ []) };
}

impl<A: Ledger, B: Ledger, C: Ledger> Clerk<A, B, C> {
    /// How many of the 65,536 shares of the desk the clerk has. Takes no memory.
    pub fn share(&self) -> u64
        ensures { result ≡ self.now.share }
    {
        self.shares.share()
    }
}

impl<A: Ledger, B: Ledger, C: Ledger> Desk<A, B, C> {
    /// Takes the turn, and the registry.
    fn take<R: Wait>(&self, rt: &R, seat: &mut Seat<Option<Held<A, B, C>>, View>) -> Held<A, B, C>
        requires desk { seat.old.table_id ≡ self.now }
        requires empty { seat.old.me.1 ≡ [] }
        ensures desk { seat.new.table_id ≡ seat.old.table_id }
        ensures me { seat.new.me ≡ (view result.registry seat.old.me.0.met seat.old.me.0.held true, (0, None) ∷ []) }
        ensures seen { IsPrefix seat.old.me.0.seen result.registry }
        ensures legal { IsLegal result.registry }
        ensures live { (k : ℕ) → times k seat.old.me.0.held ≤ times k (live result.registry) }
    {
        let shared = &self.table.shared;
        for _ in rt.forever() {
            let found = shared.swap::<Take<A, B, C>>(seat, 1, 1);
            if found == 0 {
                return shared.exchange(seat, 0, None).unwrap();
            }
            yield_now();
        }
        unreachable!()
    }

    /// Puts the registry and the turn back, with nothing kept.
    fn put_back(&self, seat: &mut Seat<Option<Held<A, B, C>>, View>, held: Held<A, B, C>)
        requires desk { seat.old.table_id ≡ self.now }
        requires turn { (seat.old.me.1 ≡ (0, None) ∷ []) × (seat.old.me.0.turn ≡ true) }
        requires same { held.registry ≡ seat.old.me.0.seen }
        ensures desk { seat.new.table_id ≡ seat.old.table_id }
        ensures me { seat.new.me ≡ (view seat.old.me.0.seen seat.old.me.0.met seat.old.me.0.held false, []) }
    {
        let shared = &self.table.shared;
        drop(shared.exchange(seat, 0, Some(held)));
        shared.store::<PutBack>(seat, 1, 0);
    }

    /// Counts the last entry of the registry, and puts it and the turn back.
    fn count(&self, seat: &mut Seat<Option<Held<A, B, C>>, View>, held: Held<A, B, C>)
        requires desk { seat.old.table_id ≡ self.now }
        requires turn { (seat.old.me.1 ≡ (0, None) ∷ []) × (seat.old.me.0.turn ≡ true) }
        requires longer { IsLonger seat.old.me.0.seen seat.old.me.0.held held.registry }
        requires legal { IsLegal held.registry }
        ensures desk { seat.new.table_id ≡ seat.old.table_id }
        ensures me { seat.new.me ≡ (
          view held.registry seat.old.me.0.met
              (held_after (last_of held.registry) seat.old.me.0.held) false,
          [],
        ) }
    {
        let shared = &self.table.shared;
        drop(shared.exchange(seat, 0, Some(held)));
        shared.fetch_add::<Count<A, B, C>>(seat, 0, 1);
        shared.store::<PutBack>(seat, 1, 0);
    }

    /// Ends a turn: what the registry has more than before is counted.
    fn settle(&self, seat: &mut Seat<Option<Held<A, B, C>>, View>, held: Held<A, B, C>, before: u64)
        requires desk { seat.old.table_id ≡ self.now }
        requires turn { (seat.old.me.1 ≡ (0, None) ∷ []) × (seat.old.me.0.turn ≡ true) }
        requires before { before ≡ length seat.old.me.0.seen }
        requires grown { IsGrown seat.old.me.0.seen seat.old.me.0.held held.registry }
        ensures desk { seat.new.table_id ≡ seat.old.table_id }
        ensures me { seat.new.me ≡ (
          view held.registry seat.old.me.0.met
              (held_now seat.old.me.0.seen held.registry seat.old.me.0.held) false,
          [],
        ) }
        ensures legal { IsLegal held.registry }
    {
        if held.length() > before {
            self.count(seat, held);
        } else {
            self.put_back(seat, held);
        }
    }

    /// A desk over a registry before any call, and a clerk with all its shares.
    pub fn new(
        alloc: Global,
        registers: Blank,
        admits: Blank,
        dismissals: Blank,
    ) -> Result<(Desk<A, B, C>, Clerk<A, B, C>), Memory>
        requires registers { (registers.name ≡ A.name) × (registers.parts ≡ A.parts) × (registers.parts ≡ all_shares) }
        requires admits { (admits.name ≡ B.name) × (admits.parts ≡ B.parts) × (admits.parts ≡ all_shares) }
        requires dismissals { (dismissals.name ≡ C.name) × (dismissals.parts ≡ C.parts)
            × (dismissals.parts ≡ all_shares) }
        ensures { IfOk result (λ d. IsNew d.0 d.1) }
    {
        let (held, shares) = Held::new(alloc, registers, admits, dismissals);
        let mut slots = Vec::with_capacity(alloc, 1)?;
        slots.push_reserved(Some(held));
        match Table::new(alloc, &[0, 0], slots, &()) {
            Ok((table, seat)) => Ok((Desk { table }, Clerk { seat, shares })),
            Err(Refused { slots: _ }) => Err(Memory),
        }
    }

    /// A new clerk that has seen what this one has. Its share is 1, which this one loses. Takes no memory.
    pub fn split(&self, clerk: &mut Clerk<A, B, C>) -> Clerk<A, B, C>
        requires desk { clerk.old.desk ≡ self.now }
        requires share { 2 ≤ clerk.old.share }
        ensures new { IsTwin clerk.old result }
        ensures left { Lost clerk.old clerk.new }
    {
        Clerk {
            seat: self.table.shared.split_seat::<Twin>(&mut clerk.seat),
            shares: clerk.shares.split(),
        }
    }

    /// Registers a key, as `Registry::register` does at the journal that the call finds.
    ///
    /// `Full` and `Memory` leave nothing: the journal is as it was found.
    pub fn register<R: Wait>(
        &self,
        rt: &R,
        clerk: &mut Clerk<A, B, C>,
        host: &[u8],
        port: u16,
        key: &[u8],
        multiple: bool,
    ) -> Result<(), Refusal>
        requires desk { clerk.old.desk ≡ self.now }
        requires host { IsHost host.now }
        requires key { IsKey key.now }
        ensures { Called clerk.old clerk.new (λ journal. register_verdict journal host.now port key.now)
            (λ reply. entry.Register host.now port key.now multiple reply) reply_of result }
    {
        let mut held = self.take(rt, &mut clerk.seat);
        let before = held.length();
        let answer = held.register(&mut clerk.shares, host, port, key, multiple);
        self.settle(&mut clerk.seat, held, before);
        answer
    }

    /// Stops a registration, as `Registry::stop` does at the journal that the call finds.
    ///
    /// `Full` and `Memory` leave nothing: the journal is as it was found.
    pub fn stop<R: Wait>(
        &self,
        rt: &R,
        clerk: &mut Clerk<A, B, C>,
        host: &[u8],
        key: &[u8],
    ) -> Result<(), Refusal>
        requires desk { clerk.old.desk ≡ self.now }
        requires host { IsHost host.now }
        requires key { IsKey key.now }
        ensures { Called clerk.old clerk.new (λ journal. stop_verdict journal host.now key.now)
            (λ reply. entry.Stop host.now key.now reply) reply_of result }
    {
        let mut held = self.take(rt, &mut clerk.seat);
        let before = held.length();
        let answer = held.stop(&mut clerk.shares, host, key);
        self.settle(&mut clerk.seat, held, before);
        answer
    }

    /// Gives an engine the next session under a key, as `Registry::admit` does at the journal that the
    /// call finds. The clerk holds the session until it dismisses it.
    ///
    /// `Full` and `Memory` leave nothing: the journal is as it was found.
    pub fn admit<R: Wait>(
        &self,
        rt: &R,
        clerk: &mut Clerk<A, B, C>,
        key: &[u8],
    ) -> Result<Pass, Refusal>
        requires desk { clerk.old.desk ≡ self.now }
        requires key { IsKey key.now }
        ensures called { Called clerk.old clerk.new (λ journal. admit_verdict journal key.now)
            (λ reply. entry.Admit key.now reply) admit_reply_of result }
        ensures holds { IfOk result (λ pass. Contains clerk.new.held pass.session) }
        ensures reached { IfOk result (λ pass. IsHost pass.host) }
    {
        let mut held = self.take(rt, &mut clerk.seat);
        let before = held.length();
        let answer = held.admit(&mut clerk.shares, key);
        self.settle(&mut clerk.seat, held, before);
        answer
    }

    /// Ends a session that the clerk holds. Takes no memory, and is never refused.
    pub fn dismiss<R: Wait>(&self, rt: &R, clerk: &mut Clerk<A, B, C>, pass: Pass)
        requires desk { clerk.old.desk ≡ self.now }
        requires held { Contains clerk.old.held pass.session }
        ensures { Dismissed clerk.old clerk.new pass.session }
    {
        let mut held = self.take(rt, &mut clerk.seat);
        let before = held.length();
        held.dismiss(&mut clerk.shares, pass);
        self.settle(&mut clerk.seat, held, before);
    }

    /// Afterwards the clerk has seen what the other had seen. Takes no memory.
    pub fn meet(&self, clerk: &mut Clerk<A, B, C>, other: &mut Clerk<A, B, C>)
        requires desk { clerk.old.desk ≡ self.now }
        requires same { other.old.desk ≡ self.now }
        ensures met { Met clerk.old other.old clerk.new }
        ensures other { other.new ≡ other.old }
    {
        let shared = &self.table.shared;
        let copy = shared.split_seat::<Twin>(&mut other.seat);
        shared.join_seat::<Both>(&mut clerk.seat, copy);
        shared.load::<Look>(&mut clerk.seat, 0);
    }

    /// Hands on all that the clerk has: its share, what it made, holds and has seen. Takes no memory.
    pub fn give_back(&self, clerk: Clerk<A, B, C>, to: &mut Clerk<A, B, C>)
        requires desk { clerk.desk ≡ self.now }
        requires same { to.old.desk ≡ self.now }
        ensures { Gained to.old clerk to.new }
    {
        let Clerk { seat, shares } = clerk;
        let shared = &self.table.shared;
        shared.join_seat::<Both>(&mut to.seat, seat);
        shared.load::<Look>(&mut to.seat, 0);
        shares.give_back(&mut to.shares);
    }

    /// The registry, once all shares came back. Its journal begins with what the clerk has seen, and has
    /// of each kind just the entries that the clerk has made. Takes no memory.
    pub fn shut<R: Wait>(self, rt: &R, clerk: Clerk<A, B, C>) -> Registry
        requires desk { clerk.desk ≡ self }
        requires share { clerk.share ≡ all_shares }
        ensures seen { IsPrefix clerk.seen result }
        ensures legal { IsLegal result }
        ensures counts { Counts result clerk.made }
    {
        let Clerk { mut seat, shares } = clerk;
        self.take(rt, &mut seat).close(shares)
    }
}
