//! What holds of a lane over its whole stream, for one that is fed with `feed` and emptied with `front` and
//! `drop_front`: the premises of each law are what those calls promise.
ghost use Rattle.std.specs.Prelude.{◌≡◌, ◌+◌, [], ◌++◌, List, ℕ, true, false, flat_map, length, min};
ghost use Rattle.std.specs.List.{AllByRecursion};
ghost use Rattle.dp_wire.specs.declared.errors.WireError.{WireError as Why};
ghost use Rattle.dp_wire.specs.Places.{refused_at};
ghost use Rattle.dp_wire.specs.Received.{last_place};
ghost use Rattle.dp_lanes.specs.declared.lane.Lane.{Lane as OneLane};
ghost use Rattle.dp_lanes.specs.declared.lane.LaneKind.{LaneKind as Kind};
ghost use Rattle.dp_lanes.specs.declared.lane.LaneKind.TheVariants.{Down};
ghost use Rattle.dp_lanes.specs.Lanes.{frame, texts_in, is_bad};
ghost use Rattle.dp_lanes.specs.Passed.{HasPassed, handed_in_all};
ghost use Rattle.dp_lanes.specs.Places.{BeginsWith, BeginsNone, Causes, IsBadIn, IsPart, IsText};
ghost use Rattle.dp_lanes.specs.Places.{kind_of, received_in};

/// A new lane has passed nothing.
pub fn new_has_passed_nothing()
    ensures { (kind : Kind) (lane : OneLane) → kind_of lane ≡ kind → (received_in lane).held ≡ []
        → (received_in lane).dropped ≡ 0 → HasPassed kind lane [] [] }
{}

/// A piece that a lane is fed is read, and nothing is written.
pub fn fed_has_passed()
    ensures { (kind : Kind) (old new : OneLane) (read written piece : List ℕ) → HasPassed kind old read written
        → kind_of new ≡ kind_of old → (received_in new).held ≡ (received_in old).held ++ piece
        → (received_in new).dropped ≡ (received_in old).dropped
        → HasPassed kind new (read ++ piece) written }
{}

/// The first frame is written where it is dropped, and nothing is read.
pub fn dropped_has_passed()
    ensures { (kind : Kind) (old new : OneLane) (read written text rest : List ℕ) → HasPassed kind old read written
        → BeginsWith (kind_of old) (received_in old).held text rest
        → kind_of new ≡ kind_of old → (received_in new).held ≡ rest
        → (received_in new).dropped ≡ min ((received_in old).dropped + length (frame (kind_of old) text)) last_place
        → HasPassed kind new read (written ++ frame kind text) }
{}

/// What was written is at any time a front of the frames of all that was read.
pub fn passed_is_front()
    ensures { (kind : Kind) (lane : OneLane) (read written : List ℕ) → HasPassed kind lane read written
        → (more : List ℕ) × (flat_map (frame kind) (texts_in kind read) ≡ written ++ more) }
{}

/// Where more has to come it is these frames, and what was read is not bad.
pub fn passed_all_that_came()
    ensures all { (kind : Kind) (lane : OneLane) (read written : List ℕ) → HasPassed kind lane read written
        → IsPart (kind_of lane) (received_in lane).held → written ≡ flat_map (frame kind) (texts_in kind read) }
    ensures good { (kind : Kind) (lane : OneLane) (read written : List ℕ) → HasPassed kind lane read written
        → IsPart (kind_of lane) (received_in lane).held → is_bad kind read ≡ false }
{}

/// Where the lane is refused it is these frames too, and what was read is bad, at the place of the refusal.
pub fn passed_all_before_bad()
    ensures all { (kind : Kind) (lane : OneLane) (read written : List ℕ) → HasPassed kind lane read written
        → BeginsNone (kind_of lane) (received_in lane).held → written ≡ flat_map (frame kind) (texts_in kind read) }
    ensures bad { (kind : Kind) (lane : OneLane) (read written : List ℕ) (why : Why) → HasPassed kind lane read written
        → BeginsNone (kind_of lane) (received_in lane).held → Causes (kind_of lane) (received_in lane) why
        → IsBadIn kind read (refused_at why (received_in lane).dropped) }
{}

/// What is handed out in all is the frames of the stream, in whatever pieces it came.
pub fn handed_out_in_all()
    ensures { (kind : Kind) (pieces : List (List ℕ)) → handed_in_all kind [] pieces
        ≡ flat_map (frame kind) (texts_in kind (flat_map (λ piece. piece) pieces)) }
{}

/// A front of whole frames is not bad: where what comes in a lane is whole frames in all, the lane is never refused.
pub fn front_of_frames_is_good()
    ensures { (kind : Kind) (bytes more : List ℕ) (texts : List (List ℕ)) → AllByRecursion (IsText kind) texts
        → bytes ++ more ≡ flat_map (frame kind) texts → is_bad kind bytes ≡ false }
{}

/// A stream of commands that is bad stays bad, however it goes on.
pub fn bad_commands_stay_bad()
    ensures { (bytes more : List ℕ) → is_bad Down bytes ≡ true → is_bad Down (bytes ++ more) ≡ true }
{}
