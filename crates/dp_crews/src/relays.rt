//! A running proxy: IDEs and engines are served by one crew of workers.
ghost use Rattle.std.specs.Prelude.{◌≡◌, ◌+◌, ◌≤◌, ◌<◌, false, vec_len};
ghost use Rattle.dp_desk.specs.Desks.{IsNew};
ghost use Rattle.dp_desk.specs.Made.{all_shares};
ghost use Rattle.dp_crews.specs.Bounds.{IsBounded};
ghost use Rattle.dp_crews.specs.Relays.{AllServed, IsUndialed, faults};
ghost use Rattle.dp_crews.specs.inner.Crewed.{Crewed, Ended, Gated};

use crate::accounts::{Account, account_of, gather};
use crate::crew::run_tasks;
use crate::errors::AllError;
use crate::hires::{dialers_of, hire_engines, hire_ides};
use crate::summaries::{Summary, summary_of};
use crate::twins::{lacks_twin, twins_of};
use dp_desk::{Clerk, Desk};
use dp_outside::{Dialer, Gate, Spawner};
use dp_registry::Registry;
use std::alloc::Global;
use std::sync::Wait;
use std::sync::ledger::{Blank, Ledger};
use std::thread::Threads;

/// How many registrations and how many sessions are served.
#[derive(Clone, Copy, Debug, PartialEq, Eq)]
pub struct Sizes {
    pub registrations: u32,
    pub sessions: u32,
}

/// What serving all came to, and the gates.
type AllServed<G, H> = (Result<(Summary, Registry), AllError>, Vec<G>, Vec<H>);

/// What serving all comes to, once the workers' tasks were gathered.
fn end_of<R: Wait, A: Ledger, B: Ledger, C: Ledger, G: Drop, H: Drop>(
    rt: &R,
    desk: Desk<A, B, C>,
    clerk: Clerk<A, B, C>,
    account: Account<G, H>,
) -> AllServed<G, H>
    requires desk { clerk.desk ≡ desk }
    requires share { account.gate_fault ≡ false → account.no_thread ≡ false → clerk.share ≡ all_shares }
    ensures ended { Ended clerk account.gate_fault account.no_thread account.tally result.0 }
    ensures ides { result.1 ≡ account.ides }
    ensures engines { result.2 ≡ account.engines }
{
    let Account {
        ides,
        engines,
        tally,
        gate_fault,
        no_thread,
    } = account;
    if gate_fault {
        return (Err(AllError::GateFault), ides, engines);
    }
    if no_thread {
        return (Err(AllError::NoThread), ides, engines);
    }
    let registry = desk.shut(rt, clerk);
    let summary = summary_of(registry.journal(), tally);
    (Ok((summary, registry)), ides, engines)
}

/// Has so many links of these gates served by a crew of workers, one for each gate.
fn serve_crew<
    R: Threads + Wait + Sync,
    A: Ledger + Send + Sync,
    B: Ledger + Send + Sync,
    C: Ledger + Send + Sync,
    G: Gate,
    H: Gate,
    D: Dialer,
    P: Spawner,
>(
    rt: &R,
    alloc: Global,
    desk: Desk<A, B, C>,
    mut clerk: Clerk<A, B, C>,
    ides: Vec<G>,
    engines: Vec<H>,
    dialers: Vec<D>,
    spawner: &mut P,
    sizes: Sizes,
) -> AllServed<G, H>
    requires new { IsNew desk clerk }
    requires ides { (0 < vec_len ides) × (vec_len ides ≤ 8) }
    requires engines { (0 < vec_len engines) × (vec_len engines ≤ 64) }
    requires dialers { vec_len dialers ≡ vec_len engines }
    requires few { sizes.sessions ≤ 65535 }
    ensures crewed { Crewed G.Gate H.Gate ides.items engines.items sizes.registrations sizes.sessions
        (faults (P.faults spawner.old) (P.faults spawner.new)) result.1.items result.2.items result.0 }
    ensures later { P.faults spawner.old ≤ P.faults spawner.new }
{
    let askers = ides.len();
    let servers = engines.len();
    let Ok(mut tasks) = Vec::with_capacity(alloc, askers + servers) else {
        return (Err(AllError::Memory), ides, engines);
    };
    let Ok(mut account) = account_of(alloc, askers + servers) else {
        return (Err(AllError::Memory), ides, engines);
    };
    hire_ides(&desk, &mut clerk, ides, sizes.registrations, &mut tasks);
    hire_engines(
        &desk,
        &mut clerk,
        engines,
        dialers,
        spawner,
        sizes.sessions,
        &mut tasks,
    );
    match run_tasks(rt, alloc, spawner, tasks) {
        Ok(answers) => gather(&desk, &mut clerk, &mut account, answers),
        Err(_) => return (Err(AllError::Memory), Vec::new(alloc), Vec::new(alloc)),
    }
    end_of(rt, desk, clerk, account)
}

/// Serves so many links of these gates, each by a worker of its own.
fn serve_gates<
    R: Threads + Wait + Sync,
    A: Ledger + Send + Sync,
    B: Ledger + Send + Sync,
    C: Ledger + Send + Sync,
    G: Gate,
    H: Gate,
    D: Dialer,
    P: Spawner,
>(
    rt: &R,
    alloc: Global,
    blanks: (Blank, Blank, Blank),
    ides: Vec<G>,
    engines: Vec<H>,
    dialer: &mut D,
    spawner: &mut P,
    sizes: Sizes,
) -> AllServed<G, H>
    requires registers { (blanks.0.name ≡ A.name) × (blanks.0.parts ≡ A.parts) × (blanks.0.parts ≡ all_shares) }
    requires admits { (blanks.1.name ≡ B.name) × (blanks.1.parts ≡ B.parts) × (blanks.1.parts ≡ all_shares) }
    requires dismissals { (blanks.2.name ≡ C.name) × (blanks.2.parts ≡ C.parts) × (blanks.2.parts ≡ all_shares) }
    requires ides { (0 < vec_len ides) × (vec_len ides ≤ 8) }
    requires engines { (0 < vec_len engines) × (vec_len engines ≤ 64) }
    requires few { sizes.sessions ≤ 65535 }
    ensures gated { Gated G.Gate H.Gate ides.items engines.items sizes.registrations sizes.sessions
        (faults (D.faults dialer.old) (D.faults dialer.new)) (faults (P.faults spawner.old) (P.faults spawner.new))
        result.1.items result.2.items result.0 }
    ensures later { P.faults spawner.old ≤ P.faults spawner.new }
    ensures dialer { IsUndialed D.Dialer dialer.old dialer.new }
{
    let dialers = match dialers_of(alloc, dialer, engines.len() as u32) {
        Ok(dialers) => dialers,
        Err(why) => return (Err(why), ides, engines),
    };
    let (registers, admits, dismissals) = blanks;
    let Ok((desk, clerk)) = Desk::<A, B, C>::new(alloc, registers, admits, dismissals) else {
        return (Err(AllError::Memory), ides, engines);
    };
    serve_crew(
        rt, alloc, desk, clerk, ides, engines, dialers, spawner, sizes,
    )
}

/// Serves so many IDEs and so many engines, each by a worker of a crew, and gives the registry, the numbers and all
/// gates. There are at most 8 workers for IDEs and at most 64 for engines; each has a gate, the one that is handed in
/// or a twin of it, serves its part of the links one after another, and retires them. It waits.
///
/// # Errors
///
/// `GateFault` where a gate gave no link or no twin, or the dialer no twin; `NoThread` where no thread was started for
/// a worker; `Memory`, after which gates may be missing. What was served till then is done.
pub fn serve_all<
    R: Threads + Wait + Sync,
    A: Ledger + Send + Sync,
    B: Ledger + Send + Sync,
    C: Ledger + Send + Sync,
    G: Gate,
    H: Gate,
    D: Dialer,
    P: Spawner,
>(
    rt: &R,
    alloc: Global,
    blanks: (Blank, Blank, Blank),
    ides: G,
    engines: H,
    dialer: &mut D,
    spawner: &mut P,
    sizes: Sizes,
) -> AllServed<G, H>
    requires registrations { (1 ≤ sizes.registrations) × (sizes.registrations ≤ 65535) }
    requires sessions { (1 ≤ sizes.sessions) × (sizes.sessions ≤ 65535) }
    requires registers { (blanks.0.name ≡ A.name) × (blanks.0.parts ≡ A.parts) × (blanks.0.parts ≡ all_shares) }
    requires admits { (blanks.1.name ≡ B.name) × (blanks.1.parts ≡ B.parts) × (blanks.1.parts ≡ all_shares) }
    requires dismissals { (blanks.2.name ≡ C.name) × (blanks.2.parts ≡ C.parts) × (blanks.2.parts ≡ all_shares) }
    ensures served { AllServed G.Gate H.Gate ides engines sizes.registrations sizes.sessions
        (faults (D.faults dialer.old) (D.faults dialer.new)) (faults (P.faults spawner.old) (P.faults spawner.new))
        result.1.items result.2.items result.0 }
    ensures bounds { IsBounded G.Gate H.Gate ides engines sizes.registrations sizes.sessions result.1.items
        result.2.items result.0 }
    ensures dialer { IsUndialed D.Dialer dialer.old dialer.new }
{
    let Ok(asking) = Vec::with_capacity(alloc, 8) else {
        return (Err(AllError::Memory), Vec::new(alloc), Vec::new(alloc));
    };
    let Ok(serving) = Vec::with_capacity(alloc, 64) else {
        return (Err(AllError::Memory), Vec::new(alloc), Vec::new(alloc));
    };
    let askers = sizes.registrations.min(8);
    let servers = sizes.sessions.min(64);
    let (asked, ides) = twins_of(ides, askers, asking);
    let (served, engines) = twins_of(engines, servers, serving);
    if lacks_twin(asked, served) {
        return (Err(AllError::GateFault), ides, engines);
    }
    serve_gates::<R, A, B, C, G, H, D, P>(rt, alloc, blanks, ides, engines, dialer, spawner, sizes)
}
