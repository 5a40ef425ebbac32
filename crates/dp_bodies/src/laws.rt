//! What holds of frames of bodies, whatever the bytes are.

ghost use Rattle.std.specs.Prelude.{◌≡◌, List, [], ℕ, ◌++◌};
ghost use Rattle.dp_wire.specs.Frames.{Splits};
ghost use Rattle.dp_bodies.specs.Frames.{IsBody, body_frame};

/// No frame of a body is a proper prefix of another.
pub fn no_body_begins_another()
    ensures { (one other more : List ℕ) → IsBody one → IsBody other
        → body_frame one ++ more ≡ body_frame other → (one ≡ other) × (more ≡ []) }
{}

/// Bytes are split into bodies and a rest in one way.
pub fn one_split_of_bodies()
    ensures { (bytes : List ℕ) (texts others : List (List ℕ)) (rest remains : List ℕ)
        → Splits IsBody body_frame bytes texts rest → Splits IsBody body_frame bytes others remains
        → (texts ≡ others) × (rest ≡ remains) }
{}
