//! Two clerks at work in two threads, who meet.

ghost use Rattle.std.specs.Prelude.{◌≡◌, IfOk};
ghost use Rattle.dp_registry.specs.Legal.{IsLegal};
ghost use Rattle.dp_outside.specs.Names.{IsHost, IsKey};
ghost use Rattle.dp_desk.specs.Made.{all_shares};

use dp_desk::{Clerk, Desk};
use dp_registry::{Refusal, Registry};
use std::alloc::Global;
use std::sync::Wait;
use std::sync::ledger::{Blank, Ledger};
use std::thread::{Threads, join};

/// Registers a key, admits an engine under it and lets it go.
fn serve<R: Wait, A: Ledger, B: Ledger, C: Ledger>(
    rt: &R,
    desk: &Desk<A, B, C>,
    mut clerk: Clerk<A, B, C>,
    host: &[u8],
    key: &[u8],
) -> Result<Clerk<A, B, C>, Refusal>
    requires desk { clerk.desk ≡ desk.now }
    requires host { IsHost host.now }
    requires key { IsKey key.now }
    ensures desk { IfOk result (λ w. w.desk ≡ clerk.desk) }
    ensures share { IfOk result (λ w. w.share ≡ clerk.share) }
{
    desk.register(rt, &mut clerk, host, 9000, key, false)?;
    let pass = desk.admit(rt, &mut clerk, key)?;
    desk.dismiss(rt, &mut clerk, pass);
    Ok(clerk)
}

/// Two threads register a key each, and admit an engine under it. Then the first clerk meets the second, and
/// stops the second's registration. What that is answered, and the registry.
pub(crate) fn served_by_two<
    R: Threads + Wait + Sync,
    A: Ledger + Send + Sync,
    B: Ledger + Send + Sync,
    C: Ledger + Send + Sync,
>(
    rt: &R,
    alloc: Global,
    registers: Blank,
    admits: Blank,
    dismissals: Blank,
) -> Result<(Result<(), Refusal>, Registry), Refusal>
    requires registers { (registers.name ≡ A.name) × (registers.parts ≡ A.parts) × (registers.parts ≡ all_shares) }
    requires admits { (admits.name ≡ B.name) × (admits.parts ≡ B.parts) × (admits.parts ≡ all_shares) }
    requires dismissals { (dismissals.name ≡ C.name) × (dismissals.parts ≡ C.parts) × (dismissals.parts ≡ all_shares) }
    ensures { IfOk result (λ r. IsLegal r.1) }
{
    let Ok((desk, mut one)) = Desk::<A, B, C>::new(alloc, registers, admits, dismissals) else {
        return Err(Refusal::Memory);
    };
    let two = desk.split(&mut one);
    let shared = &desk;
    let (a, b) = join(
        rt,
        move || -> Result<Clerk<A, B, C>, Refusal>
            requires { one.desk ≡ shared.now }
            ensures { IfOk result (λ w. (w.desk ≡ one.desk) × (w.share ≡ one.share)) }
        { serve(rt, shared, one, b"10.0.0.1".as_slice(), b"A".as_slice()) },
        move || -> Result<Clerk<A, B, C>, Refusal>
            requires { two.desk ≡ shared.now }
            ensures { IfOk result (λ w. (w.desk ≡ two.desk) × (w.share ≡ two.share)) }
        { serve(rt, shared, two, b"10.0.0.2".as_slice(), b"B".as_slice()) },
    );
    let mut one = a?;
    let mut two = b?;
    desk.meet(&mut one, &mut two);
    let answer = desk.stop(rt, &mut one, b"10.0.0.2".as_slice(), b"B".as_slice());
    desk.give_back(two, &mut one);
    Ok((answer, desk.shut(rt, one)))
}
