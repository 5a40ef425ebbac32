//! The IDEs that come to a gate are served one after another.
ghost use Rattle.std.specs.Prelude.{◌≡◌, MatchResult};
ghost use Rattle.dp_crews.specs.Gates.{Works, gating};
ghost use Rattle.dp_crews.specs.Workers.{AskedFor, NoIde, ServedIde, post};

use dp_desk::{Clerk, Desk};
use dp_outside::{Failed, Gate};
use dp_relay::serve_registration;
use std::alloc::Global;
use std::sync::Wait;
use std::sync::ledger::Ledger;

/// Serves the next IDE of a gate, and retires its link.
#[tactic(auto, using(crate::proofs::AskLaws::asked_one, crate::proofs::AskLaws::asked_idle))]
fn serve_ide<R: Wait, A: Ledger, B: Ledger, C: Ledger, G: Gate>(
    rt: &R,
    alloc: Global,
    desk: &Desk<A, B, C>,
    clerk: &mut Clerk<A, B, C>,
    gate: &mut G,
) -> Result<(), Failed>
    requires desk { clerk.old.desk ≡ desk.now }
    ensures one { AskedFor 1 clerk.old clerk.new }
    ensures served { MatchResult result
        (λ _. ServedIde (post clerk.old (gating G.Gate gate.old)) (post clerk.new (gating G.Gate gate.new)))
        (λ _. NoIde (post clerk.old (gating G.Gate gate.old)) (post clerk.new (gating G.Gate gate.new))) }
{
    let (mut source, mut sink, host) = gate.accept()?;
    let answered = serve_registration(rt, alloc, desk, clerk, &host, &mut source, &mut sink);
    drop(answered);
    gate.retire(source, sink);
    Ok(())
}

/// Serves so many IDEs of a gate. It ends early where the gate gives no link.
#[tactic(auto, using(crate::proofs::AskLaws::asked_none, crate::proofs::AskLaws::asked_stopped))]
pub(crate) fn serve_ides<R: Wait, A: Ledger, B: Ledger, C: Ledger, G: Gate>(
    rt: &R,
    alloc: Global,
    desk: &Desk<A, B, C>,
    clerk: &mut Clerk<A, B, C>,
    gate: &mut G,
    count: u32,
) -> Result<(), Failed>
    requires desk { clerk.old.desk ≡ desk.now }
    ensures all { AskedFor count clerk.old clerk.new }
    ensures served { Works ServedIde NoIde count (post clerk.old (gating G.Gate gate.old))
        (post clerk.new (gating G.Gate gate.new)) result }
{
    'ides: for _ in 0..count {
        serve_ide(rt, alloc, desk, clerk, gate)?;
    }
    Ok(())
}
