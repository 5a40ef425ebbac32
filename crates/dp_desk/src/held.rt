//! What lies in the slot of a desk, and what a clerk has of its ledgers.

ghost use Rattle.std.specs.Prelude.{◌≡◌, ◌+◌, ◌<◌, ◌≤◌, ◌++◌, ◌∷◌, [], Contains, IfOk, length, count_by};
ghost use Rattle.dp_registry.specs.declared.entry.Entry.TheVariants as entry;
ghost use Rattle.dp_registry.specs.Journal.{live};
ghost use Rattle.dp_registry.specs.Legal.{IsLegal};
ghost use Rattle.dp_outside.specs.Names.{IsHost, IsKey};
ghost use Rattle.dp_registry.specs.Verdicts.{register_verdict, stop_verdict, admit_verdict, reply_of};
ghost use Rattle.dp_registry.specs.Verdicts.{admit_reply_of, noted, IsAnswer};
ghost use Rattle.dp_desk.specs.Made.{made, plus, made_by, is_register, is_admit, is_dismissal, Counts};
ghost use Rattle.dp_desk.specs.Made.{all_shares};
ghost use Rattle.dp_desk.specs.Turns.{account, Raised};

use dp_registry::{Pass, Refusal, Registry};
use std::alloc::Global;
use std::marker::Model;
use std::sync::ledger::{Blank, Book, Ledger, Share};

/// How many shares a desk has.
const ALL_SHARES: u64 = 65_536;

/// The registry with the books of the three ledgers, whose totals are the entries of their kinds.
#[derive(Drop)]
pub(crate) struct Held<A: Ledger, B: Ledger, C: Ledger> {
    registry: Registry,
    registers: Book<A>,
    admits: Book<B>,
    dismissals: Book<C>,
    ghost registers_are: { registers.total ≡ count_by is_register registry },
    ghost admits_are: { admits.total ≡ count_by is_admit registry },
    ghost dismissals_are: { dismissals.total ≡ count_by is_dismissal registry },
}

/// A clerk's shares of the three ledgers.
#[derive(Drop)]
pub(crate) struct Shares<A: Ledger, B: Ledger, C: Ledger> {
    parts: u64,
    registers: Share<A>,
    admits: Share<B>,
    dismissals: Share<C>,
}

impl<A: Ledger, B: Ledger, C: Ledger> Model for Shares<A, B, C> {
    ghost use Rattle.std.specs.Prelude.{◌≡◌, ◌<◌};
    ghost use Rattle.dp_desk.specs.Made.{made, all_shares};
    ghost use Rattle.dp_desk.specs.Turns.{Account, account};

    ghost Value = { Account };

    ghost view = { λ c. account (made c.registers.amount c.admits.amount c.dismissals.amount) c.parts };

    ghost invariant = { λ c. (0 < c.parts) × (c.registers.parts ≡ c.parts) × (c.admits.parts ≡ c.parts)
        × (c.dismissals.parts ≡ c.parts) × (A.parts ≡ all_shares) × (B.parts ≡ all_shares) × (C.parts ≡ all_shares) };
}

impl<A: Ledger, B: Ledger, C: Ledger> Held<A, B, C> {
    /// A registry before any call, and all shares of its ledgers. Takes no memory.
    pub(crate) fn new(
        alloc: Global,
        registers: Blank,
        admits: Blank,
        dismissals: Blank,
    ) -> (Held<A, B, C>, Shares<A, B, C>)
        requires registers { (registers.name ≡ A.name) × (registers.parts ≡ A.parts) × (registers.parts ≡ all_shares) }
        requires admits { (admits.name ≡ B.name) × (admits.parts ≡ B.parts) × (admits.parts ≡ all_shares) }
        requires dismissals { (dismissals.name ≡ C.name) × (dismissals.parts ≡ C.parts)
            × (dismissals.parts ≡ all_shares) }
        ensures registry { result.0.registry ≡ [] }
        ensures shares { result.1 ≡ account (made 0 0 0) all_shares }
    {
        let (first, registers) = registers.open::<A>();
        let (second, admits) = admits.open::<B>();
        let (third, dismissals) = dismissals.open::<C>();
        (
            Held {
                registry: Registry::new(alloc),
                registers: first,
                admits: second,
                dismissals: third,
            },
            Shares {
                parts: ALL_SHARES,
                registers,
                admits,
                dismissals,
            },
        )
    }

    /// How many entries the journal has.
    pub(crate) fn length(&self) -> u64
        ensures length { result ≡ length self.now.registry }
        ensures legal { IsLegal self.now.registry }
    {
        self.registry.journal().len() as u64
    }

    /// Registers a key, and books the entry that it left.
    pub(crate) fn register(
        &mut self,
        shares: &mut Shares<A, B, C>,
        host: &[u8],
        port: u16,
        key: &[u8],
        multiple: bool,
    ) -> Result<(), Refusal>
        requires host { IsHost host.now }
        requires key { IsKey key.now }
        ensures verdict { IsAnswer (register_verdict self.old.registry host.now port key.now) result }
        ensures journal { self.new.registry ≡ noted self.old.registry
            (λ reply. entry.Register host.now port key.now multiple reply) (reply_of result) }
        ensures made { Raised shares.old (made_by
            (λ reply. entry.Register host.now port key.now multiple reply) (reply_of result)) shares.new }
    {
        let Held {
            registry,
            registers,
            admits: _,
            dismissals: _,
        } = self;
        let before = registry.journal().len();
        let answer = registry.register(host, port, key, multiple);
        let after = registry.journal().len();
        registers.add(&mut shares.registers, (after - before) as u64);
        answer
    }

    /// Stops a registration, and books the entry that it left.
    pub(crate) fn stop(
        &mut self,
        shares: &mut Shares<A, B, C>,
        host: &[u8],
        key: &[u8],
    ) -> Result<(), Refusal>
        requires host { IsHost host.now }
        requires key { IsKey key.now }
        ensures verdict { IsAnswer (stop_verdict self.old.registry host.now key.now) result }
        ensures journal { self.new.registry ≡ noted self.old.registry
            (λ reply. entry.Stop host.now key.now reply) (reply_of result) }
        ensures made { Raised shares.old (made_by (λ reply. entry.Stop host.now key.now reply)
            (reply_of result)) shares.new }
    {
        let Held {
            registry,
            registers,
            admits: _,
            dismissals: _,
        } = self;
        let before = registry.journal().len();
        let answer = registry.stop(host, key);
        let after = registry.journal().len();
        registers.add(&mut shares.registers, (after - before) as u64);
        answer
    }

    /// Admits an engine, and books the entry that it left.
    pub(crate) fn admit(
        &mut self,
        shares: &mut Shares<A, B, C>,
        key: &[u8],
    ) -> Result<Pass, Refusal>
        requires key { IsKey key.now }
        ensures verdict { IsAnswer (admit_verdict self.old.registry key.now) result }
        ensures journal { self.new.registry ≡ noted self.old.registry (λ reply. entry.Admit key.now reply)
            (admit_reply_of result) }
        ensures reached { IfOk result (λ pass. IsHost pass.host) }
        ensures made { Raised shares.old (made_by (λ reply. entry.Admit key.now reply)
            (admit_reply_of result)) shares.new }
    {
        let Held {
            registry,
            registers: _,
            admits,
            dismissals: _,
        } = self;
        let before = registry.journal().len();
        let answer = registry.admit(key);
        let after = registry.journal().len();
        admits.add(&mut shares.admits, (after - before) as u64);
        answer
    }

    /// Ends a live session, and books the entry. Takes no memory.
    pub(crate) fn dismiss(&mut self, shares: &mut Shares<A, B, C>, pass: Pass)
        requires { Contains (live self.old.registry) pass.session }
        ensures journal { self.new.registry ≡ self.old.registry ++ entry.Dismiss pass.session ∷ [] }
        ensures made { Raised shares.old (made 0 0 1) shares.new }
    {
        let Held {
            registry,
            registers: _,
            admits: _,
            dismissals,
        } = self;
        registry.dismiss(pass);
        dismissals.add(&mut shares.dismissals, 1);
    }

    /// The registry. Where these are all shares, its journal has just the entries that they count.
    pub(crate) fn close(self, shares: Shares<A, B, C>) -> Registry
        requires { shares.share ≡ all_shares }
        ensures same { result ≡ self.registry }
        ensures counts { Counts result shares.made }
    {
        let Held {
            registry,
            mut registers,
            mut admits,
            mut dismissals,
        } = self;
        let Shares {
            parts: _,
            registers: mut first,
            admits: mut second,
            dismissals: mut third,
        } = shares;
        registers.audit(&mut first);
        admits.audit(&mut second);
        dismissals.audit(&mut third);
        registry
    }
}

impl<A: Ledger, B: Ledger, C: Ledger> Shares<A, B, C> {
    /// How many parts of each ledger are held.
    pub(crate) fn share(&self) -> u64
        ensures { result ≡ self.now.share }
    {
        self.parts
    }

    /// One part of each ledger, with nothing made.
    pub(crate) fn split(&mut self) -> Shares<A, B, C>
        requires { 2 ≤ self.old.share }
        ensures new { result ≡ account (made 0 0 0) 1 }
        ensures left { (self.new.made ≡ self.old.made) × (self.new.share + 1 ≡ self.old.share) }
    {
        self.parts -= 1;
        Shares {
            parts: 1,
            registers: self.registers.split_off(1, 0),
            admits: self.admits.split_off(1, 0),
            dismissals: self.dismissals.split_off(1, 0),
        }
    }

    /// Gives the parts back to those of another, with what was made.
    pub(crate) fn give_back(self, to: &mut Shares<A, B, C>)
        ensures { (to.new.made ≡ plus to.old.made self.made) × (to.new.share ≡ to.old.share + self.share) }
    {
        let Shares {
            parts,
            registers,
            admits,
            dismissals,
        } = self;
        to.registers.merge(registers);
        to.admits.merge(admits);
        to.dismissals.merge(dismissals);
        to.parts += parts;
    }
}
