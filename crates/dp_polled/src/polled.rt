//! What bytes come by without waiting.
ghost use Rattle.std.specs.Prelude.{◌≡◌, ◌<◌, ◌≤◌, ◌+◌, ◌||◌, Bool, ℕ, List, length, option_map};
ghost use Rattle.std.specs.Prelude.{IfOk, IsSome, IsTrue, OnOk};
ghost use Rattle.std.specs.Io.KnownBytes.{IsAtEnd, append_known, prepend_known};
ghost use Rattle.std.specs.declared.option.Option.{Option};
ghost use Rattle.atomic_table.specs.Seated.{TableId};
ghost use Rattle.dp_outside.specs.Causes.{HasCause};
ghost use Rattle.dp_polled.specs.Polls.{came, count_of, look_ends, look_is_over, wait_ends, wait_is_over, waited};

use dp_outside::Failed;

/// What a look found.
#[derive(Clone, Copy, Debug, PartialEq, Eq)]
pub enum Look {
    /// Nothing was there yet.
    NotYet,
    /// So many bytes were, which are at the front of the buffer.
    Bytes(usize),
    /// The input was at its end.
    End,
}

/// What bytes are read from, without waiting for them or with it.
pub trait Polled {
    /// The bytes that it still gives, where it tells them.
    ghost left: { Self → Option (List ℕ) };

    /// The bytes that it has given so far, where it tells them.
    ghost given: { Self → Option (List ℕ) };

    /// Whether a call has answered that the input is at its end or has failed, where it tells that.
    ghost over: { Self → Option Bool };

    /// The post that its bytes come by, where they come by one.
    ghost post: { Self → Option TableId };

    /// How often it was looked at.
    ghost looks: { Self → ℕ };

    /// How often it has failed.
    ghost faults: { Self → ℕ };

    /// Puts the bytes that are there at the front of `buf`, as far as they go into it, and answers their number. It
    /// waits for nobody.
    ///
    /// With a `buf` that is not empty, `Bytes` has at least 1. After every other answer nothing was taken. A look that
    /// holds is no fault.
    fn look(&mut self, buf: &mut [u8]) -> Result<Look, Failed>
        ensures bound { IfOk result (λ look. count_of look ≤ length buf.new) }
        ensures some { (n : ℕ) → IfOk result (λ look. look ≡ Look.Bytes n → 0 < length buf.new → 1 ≤ n) }
        ensures left { left self.old ≡ prepend_known (came result buf.new) (left self.new) }
        ensures given { given self.new ≡ append_known (given self.old) (came result buf.new) }
        ensures end { IsTrue (look_ends result) → IsAtEnd (left self.new) }
        ensures over { over self.new ≡ option_map (λ before. before || look_is_over result) (over self.old) }
        ensures post { post self.new ≡ post self.old }
        ensures looks { looks self.new ≡ looks self.old + 1 }
        ensures held { OnOk result (faults self.new ≡ faults self.old) }
        ensures cause { HasCause (faults self.old) (faults self.new) result };

    /// Puts the next bytes at the front of `buf` and answers their number. It may wait for them.
    ///
    /// With a `buf` that is not empty, 0 means the end of the input. After `Failed` nothing was taken. A wait is no
    /// look.
    fn wait(&mut self, buf: &mut [u8]) -> Result<usize, Failed>
        ensures bound { IfOk result (λ count. count ≤ length buf.new) }
        ensures left { left self.old ≡ prepend_known (waited result buf.new) (left self.new) }
        ensures given { given self.new ≡ append_known (given self.old) (waited result buf.new) }
        ensures end { IsTrue (wait_ends result (length buf.new)) → IsAtEnd (left self.new) }
        ensures over { over self.new
            ≡ option_map (λ before. before || wait_is_over result (length buf.new)) (over self.old) }
        ensures post { post self.new ≡ post self.old }
        ensures looks { looks self.new ≡ looks self.old }
        ensures held { OnOk result (faults self.new ≡ faults self.old) }
        ensures cause { HasCause (faults self.old) (faults self.new) result };

    /// Where it tells what it still gives, it tells what it has given too.
    ghost given_too: { (polled : Self) → IsSome (left polled) → IsSome (given polled) };
}
