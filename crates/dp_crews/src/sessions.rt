//! The engines that come to a gate are served one after another.
ghost use Rattle.std.specs.Prelude.{◌≡◌, ◌<◌, option_map, MatchResult, OnOk};
ghost use Rattle.dp_relay.specs.Ends.{ends};
ghost use Rattle.dp_crews.specs.Gates.{Works, gating};
ghost use Rattle.dp_wire.specs.Received.{last_place};
ghost use Rattle.dp_crews.specs.Tallies.{counted};
ghost use Rattle.dp_crews.specs.Workers.{Booked, NoEngine, Retires, ServedEngine, engine_post, means};

use crate::tallies::Tally;
use dp_desk::{Clerk, Desk};
use dp_outside::{Dialer, Failed, Gate, Spawner};
use dp_relay::serve_engine;
use std::alloc::Global;
use std::sync::Wait;
use std::sync::ledger::Ledger;

/// Gives the link to an IDE back to the dialer, where there is one.
fn retire_ide<D: Dialer, P: Spawner>(dialer: &mut D, ide: Option<(D::In, D::Out)>, _spawner: &P)
    ensures retired { Retires (option_map (λ two. ends D.In.Source D.Out.Sink two.0 two.1) ide)
        (means D.Dialer P.Spawner dialer.old _spawner.now) (means D.Dialer P.Spawner dialer.new _spawner.now) }
    ensures dials { D.dials dialer.new ≡ D.dials dialer.old }
    ensures faults { D.faults dialer.new ≡ D.faults dialer.old }
{
    if let Some((source, sink)) = ide {
        dialer.retire(source, sink);
    }
}

/// Serves the next engine of a gate, counts it, and retires its links.
fn serve_session<R: Wait, A: Ledger, B: Ledger, C: Ledger, H: Gate, D: Dialer, P: Spawner>(
    rt: &R,
    alloc: Global,
    desk: &Desk<A, B, C>,
    clerk: &mut Clerk<A, B, C>,
    gate: &mut H,
    dialer: &mut D,
    spawner: &mut P,
    tally: &mut Tally,
) -> Result<(), Failed>
    requires desk { clerk.old.desk ≡ desk.now }
    requires room { counted tally.old < last_place }
    ensures one { MatchResult result (λ _. Booked 1 clerk.old clerk.new tally.old tally.new)
        (λ _. clerk.new ≡ clerk.old) }
    ensures served { MatchResult result
        (λ _. ServedEngine
        (engine_post clerk.old (gating H.Gate gate.old) (means D.Dialer P.Spawner dialer.old spawner.old) tally.old)
        (engine_post clerk.new (gating H.Gate gate.new) (means D.Dialer P.Spawner dialer.new spawner.new) tally.new))
        (λ _. NoEngine
        (engine_post clerk.old (gating H.Gate gate.old) (means D.Dialer P.Spawner dialer.old spawner.old) tally.old)
        (engine_post clerk.new (gating H.Gate gate.new) (means D.Dialer P.Spawner dialer.new spawner.new) tally.new)) }
{
    let (source, sink, host) = gate.accept()?;
    drop(host);
    let (end, source, sink, ide) = serve_engine(
        rt, alloc, desk, clerk, source, sink, dialer, spawner,
    );
    tally.note(&end);
    drop(end);
    retire_ide(dialer, ide, spawner);
    gate.retire(source, sink);
    Ok(())
}

/// Serves so many engines of a gate. It ends early where the gate gives no link.
pub(crate) fn serve_sessions<
    R: Wait,
    A: Ledger,
    B: Ledger,
    C: Ledger,
    H: Gate,
    D: Dialer,
    P: Spawner,
>(
    rt: &R,
    alloc: Global,
    desk: &Desk<A, B, C>,
    clerk: &mut Clerk<A, B, C>,
    gate: &mut H,
    dialer: &mut D,
    spawner: &mut P,
    tally: &mut Tally,
    count: u32,
) -> Result<(), Failed>
    requires desk { clerk.old.desk ≡ desk.now }
    requires new { counted tally.old ≡ 0 }
    ensures booked { OnOk result (Booked count clerk.old clerk.new tally.old tally.new) }
    ensures served { Works ServedEngine NoEngine count
        (engine_post clerk.old (gating H.Gate gate.old) (means D.Dialer P.Spawner dialer.old spawner.old) tally.old)
        (engine_post clerk.new (gating H.Gate gate.new) (means D.Dialer P.Spawner dialer.new spawner.new) tally.new)
        result }
{
    'engines: for _ in 0..count {
        serve_session(rt, alloc, desk, clerk, gate, dialer, spawner, tally)?;
    }
    Ok(())
}
