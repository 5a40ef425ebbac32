//! Serving one session that listens.
ghost use Rattle.std.specs.Prelude.{◌<◌, ◌≤◌, ◌-◌, ◌^◌, map, MatchResult};
ghost use Rattle.dp_engine.specs.RestOfRun.{Closes, ClosesCut};
ghost use Rattle.dp_outside.specs.Changes.{change};
ghost use Rattle.dp_outside.specs.Names.{IsKey};
ghost use Rattle.dp_tree.specs.FileNames.{AreFileNames};
ghost use Rattle.dp_async.specs.Served.{Hears, IsLater, input_of};

use crate::arrival::Arrival;
use crate::listener::{Cut, Listener, Over};
use dp_bytes::Items;
use dp_engine::{ServeEnd, Served, Session, Steps, close, close_cut};
use dp_outside::Sink;
use dp_polled::Polled;
use dp_tree::Bundle;
use std::alloc::Global;
use std::sync::ledger::Ledger;

/// A session that was served, and all that it heard.
#[derive(Debug, Drop)]
pub struct AsyncServed {
    pub served: Served,
    pub log: Items<Arrival>,
}

/// What becomes of the program once the session is over, or was cut short.
fn closed<E: Sink, L: Ledger>(
    session: Session<'_>,
    over: Result<Over, Cut>,
    out: &mut E,
    steps: &mut Steps<L>,
) -> Served
    ensures closes { MatchResult over
        (λ reason. Closes reason result session.entry (change E.taken E.faults out.old out.new))
        (λ fault. ClosesCut fault result session.entry (change E.taken E.faults out.old out.new)) }
    ensures out_later { E.faults out.old ≤ E.faults out.new }
{
    match over {
        Ok(reason) => close(session, reason, out, steps),
        Err(fault) => close_cut(session, fault, out, steps),
    }
}

/// Serves one session that listens while its program runs: sends its first packet and answers each command that comes,
/// up to an end. At each moment at which a continuation does not stop it looks once whether something came, and hears
/// `status` and `break`; outside of one it waits.
///
/// The program's own output goes to `out`. If the input ends or fails first, or a limit is passed, the program runs on
/// to its end. The link is ended as soon as the session is over, before the program runs on. All that was heard is
/// logged, with the number of the moment at which it came.
pub fn serve_polled<Q: Polled, K: Sink, E: Sink, L: Ledger>(
    alloc: Global,
    bundle: &Bundle,
    key: &[u8],
    bound: u64,
    polled: &mut Q,
    sink: &mut K,
    out: &mut E,
    steps: &mut Steps<L>,
) -> AsyncServed
    requires key { IsKey key.now }
    requires bound { bound < 2 ^ 64 - 1 }
    requires names { AreFileNames (map (λ f. f.name) bundle.now.files) }
    ensures hears { Hears result bundle.now bound key.now (input_of Q.Polled polled.old) (input_of Q.Polled polled.new)
        (change K.taken K.faults sink.old sink.new) (change E.taken E.faults out.old out.new) }
    ensures polled_later { IsLater (input_of Q.Polled polled.old) (input_of Q.Polled polled.new) }
    ensures sink_later { K.faults sink.old ≤ K.faults sink.new }
    ensures out_later { E.faults out.old ≤ E.faults out.new }
{
    let Ok((session, init)) = Session::begin(alloc, bundle, key, bound) else {
        sink.finish();
        return AsyncServed {
            served: Served {
                end: ServeEnd::Memory,
                outcome: None,
            },
            log: Items::of(Vec::new(alloc)),
        };
    };
    let mut listener = Listener::new(alloc, session);
    let over = listener.listen(init.as_slice(), polled, sink, out, steps);
    let Listener {
        session,
        log,
        held: _,
        moments: _,
        count: _,
        alloc: _,
    } = listener;
    sink.finish();
    let served = closed(session, over, out, steps);
    AsyncServed {
        served,
        log: Items::of(log),
    }
}
