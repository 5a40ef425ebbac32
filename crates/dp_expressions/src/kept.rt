//! What is kept while more is read.

ghost use Rattle.std.specs.Prelude.{◌≡◌, MatchResult, Ok, Err};

/// A value, and what was read behind it. Where nothing was, the value is let go here, so that no caller has to: that
/// would cost each of them the proof of it, for each sort of tree.
pub fn both<A: Drop, B: Drop, E: Drop>(value: A, behind: Result<B, E>) -> Result<(A, B), E>
    ensures { MatchResult result (λ p. (behind ≡ Ok p.1) × (p.0 ≡ value)) (λ e. behind ≡ Err e) }
{
    match behind {
        Ok(found) => Ok((value, found)),
        Err(refusal) => Err(refusal),
    }
}
