//! A gate is twinned, so that each worker has one.
ghost use Rattle.std.specs.Prelude.{◌≡◌, ◌<◌, ◌≤◌, ◌||◌, [], is_err, vec_capacity};
ghost use Rattle.dp_crews.specs.Twins.{Twinned};

use dp_outside::{Failed, Gate};

/// Twins of a gate and, last, the gate itself, one for each worker. Where a twin is refused, what there is till then.
#[tactic(auto, using(crate::proofs::TwinLaws::still, crate::proofs::TwinLaws::each_more, crate::proofs::TwinLaws::rests, crate::proofs::TwinLaws::twin_of))]
pub(crate) fn twins_of<G: Gate>(
    mut gate: G,
    workers: u32,
    mut gates: Vec<G>,
) -> (Result<(), Failed>, Vec<G>)
    requires some { 0 < workers }
    requires empty { gates.items ≡ [] }
    requires room { workers ≤ vec_capacity gates }
    ensures { Twinned G.Gate workers gate result.1.items result.0 }
{
    'twins: for _ in 1..workers {
        match gate.twin() {
            Ok(twin) => gates.push_reserved(twin),
            Err(failed) => {
                gates.push_reserved(gate);
                return (Err(failed), gates);
            }
        }
    }
    gates.push_reserved(gate);
    (Ok(()), gates)
}

/// Whether a gate of one of two kinds gave no twin.
pub(crate) fn lacks_twin(one: Result<(), Failed>, other: Result<(), Failed>) -> bool
    ensures { result ≡ is_err one || is_err other }
{
    one.is_err() || other.is_err()
}
