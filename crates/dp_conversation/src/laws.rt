//! What holds of sessions, whatever a command means.
ghost use Rattle.std.specs.Prelude.{List, ℕ, ◌++◌};
ghost use Rattle.dp_conversation.specs.NextAnswer.{FeedingGoesOn};
ghost use Rattle.dp_conversation.specs.Growth.{served, GrowsInto};

use crate::responder::Responder;

/// More commands only add to what came before.
pub fn one_session_grows<A: Responder>(session: &A)
    ensures { (bytes more : List ℕ)
        → GrowsInto (served A.step session.now bytes) (served A.step session.now (bytes ++ more)) }
{}

/// What some bytes lead to goes on with more of them from the state that the session is in then, over the bytes that
/// were left and the ones that come: so a session may be fed piece by piece.
pub fn feeding_goes_on<A: Responder>(session: &A)
    ensures { (bytes more : List ℕ) → FeedingGoesOn A.step session.now bytes more }
{}
