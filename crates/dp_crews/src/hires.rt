//! The tasks of a crew: links are shared out among workers, and each is given a clerk.
ghost use Rattle.std.specs.Prelude.{◌≡◌, ◌+◌, ◌<◌, ◌≤◌, ◌/◌, vec_len, vec_capacity};
ghost use Rattle.dp_crews.specs.declared.tasks.Port.TheVariants.{Ides};
ghost use Rattle.dp_crews.specs.Relays.{IsUndialed};
ghost use Rattle.dp_crews.specs.inner.Accounts.{Folds};
ghost use Rattle.dp_crews.specs.inner.Hires.{Dialers, Hired, IsEngines, roster};

use crate::errors::AllError;
use crate::tasks::{Port, Task};
use dp_desk::{Clerk, Desk};
use dp_outside::{Dialer, Gate, Spawner};
use std::alloc::Global;
use std::sync::ledger::Ledger;

/// How many of the links that are left are one worker's, of so many workers. The last one's are all.
#[tactic(auto, using(crate::proofs::HireLaws::part_within, crate::proofs::HireLaws::part_last))]
fn part_of(left: u32, workers: u32) -> u32
    requires some { 0 < workers }
    ensures part { result ≡ left / workers }
    ensures within { result ≤ left }
    ensures last { workers ≡ 1 → result ≡ left }
{
    left / workers
}

/// Twins of a dialer, one for each worker.
pub(crate) fn dialers_of<D: Dialer>(
    alloc: Global,
    dialer: &mut D,
    workers: u32,
) -> Result<Vec<D>, AllError>
    ensures dialers { Dialers vec_len workers (D.faults dialer.old) (D.faults dialer.new) result }
    ensures undialed { IsUndialed D.Dialer dialer.old dialer.new }
{
    let mut dialers = Vec::with_capacity(alloc, workers as usize)?;
    'dialers: for _ in 0..workers {
        match dialer.twin() {
            Ok(twin) => dialers.push_reserved(twin),
            Err(_) => return Err(AllError::GateFault),
        }
    }
    Ok(dialers)
}

/// A task for each gate of IDEs, among which so many links are shared out.
#[tactic(auto, using(crate::proofs::AccountLaws::folds_more))]
pub(crate) fn hire_ides<'a, A: Ledger, B: Ledger, C: Ledger, G: Drop, H: Drop, D: Drop, P: Drop>(
    desk: &'a Desk<A, B, C>,
    clerk: &mut Clerk<A, B, C>,
    gates: Vec<G>,
    count: u32,
    tasks: &mut Vec<Task<'a, G, H, D, P, A, B, C>>,
)
    requires desk { clerk.old.desk ≡ desk.now }
    requires share { vec_len gates + 1 ≤ clerk.old.share }
    requires some { 0 < vec_len gates }
    requires few { vec_len gates ≤ 64 }
    requires room { vec_len tasks.old + vec_len gates ≤ vec_capacity tasks.old }
    ensures hired { Folds (λ gate. Hired (λ task. task.clerk) (λ task. task.port) (λ task. task.count)
        (λ port. port ≡ Ides gate)) gates.items (roster clerk.old tasks.old.items count)
        (roster clerk.new tasks.new.items 0) }
    ensures desk { clerk.new.desk ≡ clerk.old.desk }
    ensures share { clerk.new.share + vec_len gates ≡ clerk.old.share }
    ensures room { vec_capacity tasks.new ≡ vec_capacity tasks.old }
    ensures more { vec_len tasks.new ≡ vec_len tasks.old + vec_len gates }
{
    let mut left = count;
    let mut workers = gates.len() as u32;
    for gate in gates {
        let part = part_of(left, workers);
        left -= part;
        workers -= 1;
        tasks.push_reserved(Task {
            desk,
            clerk: desk.split(clerk),
            count: part,
            port: Port::Ides(gate),
        });
    }
}

/// A task for each gate of engines, with a dialer and a spawner, among which so many sessions are shared out.
#[tactic(auto, using(crate::proofs::AccountLaws::folds_more))]
pub(crate) fn hire_engines<
    'a,
    A: Ledger,
    B: Ledger,
    C: Ledger,
    G: Drop,
    H: Drop,
    D: Drop,
    P: Spawner,
>(
    desk: &'a Desk<A, B, C>,
    clerk: &mut Clerk<A, B, C>,
    gates: Vec<H>,
    mut dialers: Vec<D>,
    spawner: &P,
    count: u32,
    tasks: &mut Vec<Task<'a, G, H, D, P, A, B, C>>,
)
    requires desk { clerk.old.desk ≡ desk.now }
    requires share { vec_len gates + 1 ≤ clerk.old.share }
    requires some { 0 < vec_len gates }
    requires few { vec_len gates ≤ 64 }
    requires dialers { vec_len dialers ≡ vec_len gates }
    requires room { vec_len tasks.old + vec_len gates ≤ vec_capacity tasks.old }
    ensures hired { Folds (λ gate. Hired (λ task. task.clerk) (λ task. task.port) (λ task. task.count)
        (IsEngines gate)) gates.items (roster clerk.old tasks.old.items count)
        (roster clerk.new tasks.new.items 0) }
    ensures desk { clerk.new.desk ≡ clerk.old.desk }
    ensures share { clerk.new.share + vec_len gates ≡ clerk.old.share }
    ensures room { vec_capacity tasks.new ≡ vec_capacity tasks.old }
    ensures more { vec_len tasks.new ≡ vec_len tasks.old + vec_len gates }
{
    let mut left = count;
    let mut workers = gates.len() as u32;
    for gate in gates {
        let Some(dialer) = dialers.pop() else {
            // There are as many dialers as gates, so this is proved not to come.
            unreachable!()
        };
        let part = part_of(left, workers);
        left -= part;
        workers -= 1;
        tasks.push_reserved(Task {
            desk,
            clerk: desk.split(clerk),
            count: part,
            port: Port::Engines {
                gate,
                dialer,
                spawner: spawner.twin(),
            },
        });
    }
}
