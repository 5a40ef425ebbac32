//! A worker's task: so many links of a gate are served by a clerk.
ghost use Rattle.std.specs.Prelude.{◌≡◌};
ghost use Rattle.dp_crews.specs.Tasks.{Did};

use crate::ides::serve_ides;
use crate::sessions::serve_sessions;
use crate::tallies::Tally;
use dp_desk::{Clerk, Desk};
use dp_outside::{Dialer, Failed, Gate, Spawner};
use std::alloc::Global;
use std::sync::Wait;
use std::sync::ledger::Ledger;

/// The gate of a worker, and what it serves with.
#[derive(Drop)]
pub(crate) enum Port<G, H, D, P> {
    Ides(G),
    Engines { gate: H, dialer: D, spawner: P },
}

/// The gate of a worker whose task is over, and the tally of its sessions.
#[derive(Drop)]
pub(crate) enum Closed<G, H> {
    Ides(G),
    Engines { gate: H, tally: Tally },
}

/// Serves so many links of a gate. The clerk is one of the desk.
#[derive(Drop)]
pub(crate) struct Task<'a, G, H, D, P, A: Ledger, B: Ledger, C: Ledger> {
    pub(crate) desk: &'a Desk<A, B, C>,
    pub(crate) clerk: Clerk<A, B, C>,
    pub(crate) count: u32,
    pub(crate) port: Port<G, H, D, P>,
    ghost own: { clerk.desk ≡ desk.now },
}

/// A task that is over: its clerk and its gate come back, and whether the gate failed.
#[derive(Drop)]
pub(crate) struct TaskOver<G, H, A: Ledger, B: Ledger, C: Ledger> {
    pub(crate) clerk: Clerk<A, B, C>,
    pub(crate) closed: Closed<G, H>,
    pub(crate) over: Result<(), Failed>,
}

/// Does a task.
pub(crate) fn run_task<
    'a,
    R: Wait,
    A: Ledger,
    B: Ledger,
    C: Ledger,
    G: Gate,
    H: Gate,
    D: Dialer,
    P: Spawner,
>(rt: &R, alloc: Global, task: Task<'a, G, H, D, P, A, B, C>) -> TaskOver<G, H, A, B, C>
    ensures { Did G.Gate H.Gate D.Dialer P.Spawner task.entry.port task.entry.clerk task.entry.count
        result.closed result.clerk result.over }
{
    let Task {
        desk,
        mut clerk,
        count,
        port,
    } = task;
    match port {
        Port::Ides(mut gate) => {
            let over = serve_ides(rt, alloc, desk, &mut clerk, &mut gate, count);
            TaskOver {
                clerk,
                closed: Closed::Ides(gate),
                over,
            }
        }
        Port::Engines {
            mut gate,
            mut dialer,
            mut spawner,
        } => {
            let mut tally = Tally::new();
            let over = serve_sessions(
                rt,
                alloc,
                desk,
                &mut clerk,
                &mut gate,
                &mut dialer,
                &mut spawner,
                &mut tally,
                count,
            );
            TaskOver {
                clerk,
                closed: Closed::Engines { gate, tally },
                over,
            }
        }
    }
}
