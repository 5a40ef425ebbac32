//! What holds of the ends of `show`.
ghost use Rattle.std.specs.Prelude.{ℕ, Ok, Err, IsSome};
ghost use Rattle.dp_outside.specs.Changes.{Change};
ghost use Rattle.dp_show.specs.Shows.{Shows};
ghost use Rattle.dp_show.specs.declared.errors.ShowError.TheVariants.{PeerEnd, BadPacket};

/// What was read decides how it ends, where no fault and no lack of memory cuts it short: all was shown, or the input
/// ended inside a frame, or there stands what is no packet. No two of these hold of one input that tells its bytes.
pub fn ends_apart()
    ensures whole_or_inside { (input out other : Change) → IsSome input.told_before
        → Shows (Ok tt) input out → Shows (Err PeerEnd) input other → ⊥ }
    ensures whole_or_bad { (input out other : Change) (offset : ℕ) → IsSome input.told_before
        → Shows (Ok tt) input out → Shows (Err (BadPacket offset)) input other → ⊥ }
    ensures inside_or_bad { (input out other : Change) (offset : ℕ) → IsSome input.told_before
        → Shows (Err PeerEnd) input out → Shows (Err (BadPacket offset)) input other → ⊥ }
{}
