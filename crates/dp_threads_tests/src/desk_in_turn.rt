//! Two clerks at work in turn, of whom three calls are refused.

ghost use Rattle.std.specs.Prelude.{◌≡◌, IfOk};
ghost use Rattle.dp_registry.specs.Legal.{IsLegal};
ghost use Rattle.dp_desk.specs.Made.{all_shares};

use dp_desk::Desk;
use dp_registry::{Pass, Refusal, Registry};
use std::alloc::Global;
use std::sync::Wait;
use std::sync::ledger::{Blank, Ledger};

/// What three calls of the second clerk were answered: a registration of the key of the first, an admission while the
/// session of the first lives, and a stop of that key.
#[derive(Drop)]
pub(crate) struct Answers {
    pub(crate) taken: Result<(), Refusal>,
    pub(crate) busy: Result<Pass, Refusal>,
    pub(crate) stopped: Result<(), Refusal>,
}

/// The first clerk registers a key and is given a session under it, which it dismisses; the second asks for the same,
/// and is given the next session. Then all comes back to the first, and the desk is shut.
pub(crate) fn served_in_turn<R: Wait, A: Ledger, B: Ledger, C: Ledger>(
    rt: &R,
    alloc: Global,
    registers: Blank,
    admits: Blank,
    dismissals: Blank,
) -> Result<(Answers, Registry), Refusal>
    requires registers { (registers.name ≡ A.name) × (registers.parts ≡ A.parts) × (registers.parts ≡ all_shares) }
    requires admits { (admits.name ≡ B.name) × (admits.parts ≡ B.parts) × (admits.parts ≡ all_shares) }
    requires dismissals { (dismissals.name ≡ C.name) × (dismissals.parts ≡ C.parts) × (dismissals.parts ≡ all_shares) }
    ensures { IfOk result (λ r. IsLegal r.1) }
{
    let (near, far, key) = (
        b"10.0.0.1".as_slice(),
        b"10.0.0.2".as_slice(),
        b"A".as_slice(),
    );
    let Ok((desk, mut one)) = Desk::<A, B, C>::new(alloc, registers, admits, dismissals) else {
        return Err(Refusal::Memory);
    };
    let mut two = desk.split(&mut one);
    desk.register(rt, &mut one, near, 9000, key, false)?;
    let taken = desk.register(rt, &mut two, far, 9000, key, false);
    let first = desk.admit(rt, &mut one, key)?;
    let busy = desk.admit(rt, &mut two, key);
    desk.dismiss(rt, &mut one, first);
    let second = desk.admit(rt, &mut two, key)?;
    let stopped = desk.stop(rt, &mut two, far, key);
    desk.dismiss(rt, &mut two, second);
    desk.give_back(two, &mut one);
    let answers = Answers {
        taken,
        busy,
        stopped,
    };
    Ok((answers, desk.shut(rt, one)))
}
