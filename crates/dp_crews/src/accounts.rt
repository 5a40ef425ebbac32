//! What comes back of a crew of workers is gathered.
ghost use Rattle.std.specs.Prelude.{◌≡◌, ◌+◌, ⊤, [], false, ℕ, length, vec_len, vec_capacity, IfOk, MatchResult, OnOk};
ghost use Rattle.dp_crews.specs.Tallies.{tally};
ghost use Rattle.dp_crews.specs.Twins.{Each};
ghost use Rattle.dp_crews.specs.inner.Accounts.{FoldsBoth, HasRoom, TookGate, TookOver, TookPort, TookUndone, added};

use crate::tallies::Tally;
use crate::tasks::{Closed, Port, Task, TaskOver};
use dp_desk::{Clerk, Desk};
use dp_outside::Memory;
use std::alloc::Global;
use std::sync::ledger::Ledger;

/// The gates that came back of a crew, what was counted, and whether a gate failed or a start was refused.
#[derive(Drop)]
pub(crate) struct Account<G, H> {
    pub(crate) ides: Vec<G>,
    pub(crate) engines: Vec<H>,
    pub(crate) tally: Tally,
    pub(crate) gate_fault: bool,
    pub(crate) no_thread: bool,
}

/// The account before anything came back, with room for so many gates of each kind.
pub(crate) fn account_of<G: Drop, H: Drop>(
    alloc: Global,
    gates: usize,
) -> Result<Account<G, H>, Memory>
    ensures room { IfOk result (λ account. HasRoom gates (vec_len account.ides) (vec_capacity account.ides)
        (vec_len account.engines) (vec_capacity account.engines)) }
    ensures ides { IfOk result (λ account. account.ides.items ≡ []) }
    ensures engines { IfOk result (λ account. account.engines.items ≡ []) }
    ensures tally { IfOk result (λ account. account.tally ≡ tally 0 0 0 0) }
    ensures faultless { IfOk result (λ account. (account.gate_fault ≡ false) × (account.no_thread ≡ false)) }
{
    let ides = Vec::with_capacity(alloc, gates)?;
    let engines = Vec::with_capacity(alloc, gates)?;
    Ok(Account {
        ides,
        engines,
        tally: Tally::new(),
        gate_fault: false,
        no_thread: false,
    })
}

/// Two tallies in one.
fn sum_of(one: Tally, other: Tally) -> Tally
    ensures { result ≡ added one other }
{
    Tally {
        full: one.full.saturating_add(other.full),
        unfit: one.unfit.saturating_add(other.unfit),
        failed: one.failed.saturating_add(other.failed),
        starved: one.starved.saturating_add(other.starved),
    }
}

/// Takes back the gate of a task that is over.
fn take_gate<G: Drop, H: Drop>(account: &mut Account<G, H>, closed: Closed<G, H>)
    requires room { HasRoom 1 (vec_len account.old.ides) (vec_capacity account.old.ides) (vec_len account.old.engines)
        (vec_capacity account.old.engines) }
    ensures gate { TookGate closed account.old account.new }
    ensures room { (more : ℕ)
        → HasRoom (more + 1) (vec_len account.old.ides) (vec_capacity account.old.ides) (vec_len account.old.engines)
        (vec_capacity account.old.engines)
        → HasRoom more (vec_len account.new.ides) (vec_capacity account.new.ides) (vec_len account.new.engines)
        (vec_capacity account.new.engines) }
    ensures gate_fault { account.new.gate_fault ≡ account.old.gate_fault }
    ensures no_thread { account.new.no_thread ≡ account.old.no_thread }
{
    match closed {
        Closed::Ides(gate) => account.ides.push_reserved(gate),
        Closed::Engines { gate, tally } => {
            account.engines.push_reserved(gate);
            account.tally = sum_of(account.tally, tally);
        }
    }
}

/// Takes back the gate of a task that no thread began.
fn take_port<G: Drop, H: Drop, D: Drop, P: Drop>(
    account: &mut Account<G, H>,
    port: Port<G, H, D, P>,
)
    requires room { HasRoom 1 (vec_len account.old.ides) (vec_capacity account.old.ides) (vec_len account.old.engines)
        (vec_capacity account.old.engines) }
    ensures gate { TookPort port account.old account.new }
    ensures room { (more : ℕ)
        → HasRoom (more + 1) (vec_len account.old.ides) (vec_capacity account.old.ides) (vec_len account.old.engines)
        (vec_capacity account.old.engines)
        → HasRoom more (vec_len account.new.ides) (vec_capacity account.new.ides) (vec_len account.new.engines)
        (vec_capacity account.new.engines) }
    ensures tally { account.new.tally ≡ account.old.tally }
    ensures gate_fault { account.new.gate_fault ≡ account.old.gate_fault }
    ensures no_thread { account.new.no_thread ≡ account.old.no_thread }
{
    match port {
        Port::Ides(gate) => account.ides.push_reserved(gate),
        Port::Engines {
            gate,
            dialer: _,
            spawner: _,
        } => account.engines.push_reserved(gate),
    }
}

/// Takes back what became of a task.
pub(crate) fn take_back<'a, A: Ledger, B: Ledger, C: Ledger, G: Drop, H: Drop, D: Drop, P: Drop>(
    desk: &Desk<A, B, C>,
    clerk: &mut Clerk<A, B, C>,
    account: &mut Account<G, H>,
    answer: Result<TaskOver<G, H, A, B, C>, Task<'a, G, H, D, P, A, B, C>>,
)
    requires desk { clerk.old.desk ≡ desk.now }
    requires own { MatchResult answer (λ over. OnOk over.over (over.clerk.desk ≡ desk.now)) (λ _. ⊤) }
    requires room { HasRoom 1 (vec_len account.old.ides) (vec_capacity account.old.ides) (vec_len account.old.engines)
        (vec_capacity account.old.engines) }
    ensures took { MatchResult answer.entry
        (λ over. TookOver over.closed over.clerk over.over clerk.old clerk.new account.old account.new)
        (λ task. TookUndone task.port clerk.old clerk.new account.old account.new) }
    ensures room { (more : ℕ)
        → HasRoom (more + 1) (vec_len account.old.ides) (vec_capacity account.old.ides) (vec_len account.old.engines)
        (vec_capacity account.old.engines)
        → HasRoom more (vec_len account.new.ides) (vec_capacity account.new.ides) (vec_len account.new.engines)
        (vec_capacity account.new.engines) }
    ensures desk { clerk.new.desk ≡ clerk.old.desk }
{
    match answer {
        Ok(
            TaskOver {
                clerk: own,
                closed,
                over,
            },
        ) => {
            take_gate(account, closed);
            match over {
                Ok(()) => desk.give_back(own, clerk),
                Err(_) => account.gate_fault = true,
            }
        }
        Err(
            Task {
                desk: _,
                clerk: _,
                count: _,
                port,
            },
        ) => {
            take_port(account, port);
            account.no_thread = true;
        }
    }
}

/// Gathers what became of the tasks of a crew.
#[tactic(auto, using(crate::proofs::AccountLaws::both_more, crate::proofs::AccountLaws::each_at))]
pub(crate) fn gather<'a, A: Ledger, B: Ledger, C: Ledger, G: Drop, H: Drop, D: Drop, P: Drop>(
    desk: &Desk<A, B, C>,
    clerk: &mut Clerk<A, B, C>,
    account: &mut Account<G, H>,
    answers: Vec<Result<TaskOver<G, H, A, B, C>, Task<'a, G, H, D, P, A, B, C>>>,
)
    requires desk { clerk.old.desk ≡ desk.now }
    requires own { Each (λ answer. MatchResult answer (λ over. OnOk over.over (over.clerk.desk ≡ desk.now)) (λ _. ⊤))
        answers.items }
    requires room { HasRoom (length answers.items) (vec_len account.old.ides) (vec_capacity account.old.ides)
        (vec_len account.old.engines) (vec_capacity account.old.engines) }
    ensures took { FoldsBoth (λ answer v w x y. MatchResult answer
        (λ over. TookOver over.closed over.clerk over.over v w x y)
        (λ task. TookUndone task.port v w x y))
        answers.entry.items clerk.old clerk.new account.old account.new }
    ensures desk { clerk.new.desk ≡ clerk.old.desk }
{
    for answer in answers {
        take_back(desk, clerk, account, answer);
    }
}
