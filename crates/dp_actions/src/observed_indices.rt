//! The values of entries and of `isset`, under indices that change nothing.

#![tactic(auto, using(crate::proofs::AtOnceLaws::acting))]

use crate::after::then_missing;
use crate::entry_reads::Reading;
use crate::halt::Halt;
use crate::indices::then_entry;
use crate::observer::Observer;
use dp_tree::{Expression, Place};
use dp_value::Value;

impl Observer<'_> {
    ghost use Rattle.std.specs.Prelude.{◌≡◌, true, map};
    ghost use Rattle.std.specs.List.{list_all};
    ghost use Rattle.dp_tree.specs.Purity.{is_pure};
    ghost use Rattle.dp_tree.specs.inner.Parts.{place_is_pure};
    ghost use Rattle.dp_actions.specs.Expressions.{expression_run, indices_run, place_run};
    ghost use Rattle.dp_actions.specs.InPlace.{entries_by};
    ghost use Rattle.dp_actions.specs.Observed.{Observed};
    ghost use Rattle.dp_actions.specs.Places.{isset_run, missing_at};
    ghost use Rattle.dp_actions.specs.inner.Bases.{base_run, entry_under};

    /// The value of an expression under indices.
    #[cycle(observe)]
    pub(crate) fn index(
        &self,
        reading: Reading,
        base: &Expression,
        indices: &[Expression],
    ) -> Result<Value, Halt>
        requires base { is_pure base.now ≡ true }
        requires indices { list_all is_pure indices.now ≡ true }
        ensures { Observed (entry_under reading (expression_run base.now) (map expression_run indices.now)) result
            self.now.state.now }
    {
        let value = self.base(reading, base)?;
        self.under(reading, value, indices)
    }

    /// The value of what indices stand behind.
    #[cycle(observe)]
    fn base(&self, reading: Reading, e: &Expression) -> Result<Value, Halt>
        requires { is_pure e.now ≡ true }
        ensures { Observed (base_run reading (expression_run e.now)) result self.now.state.now }
    {
        match reading {
            Reading::Plain => self.expression(e),
            Reading::Found => self.found(e),
        }
    }

    /// A value under indices.
    #[cycle(observe)]
    fn under(&self, reading: Reading, base: Value, indices: &[Expression]) -> Result<Value, Halt>
        requires { list_all is_pure indices.now ≡ true }
        ensures { Observed (indices_run (entries_by reading) (map expression_run indices.now) base) result
            self.now.state.now }
    {
        let mut value = base;
        for e in indices {
            let at = self.expression(e);
            value = then_entry(self.alloc, reading, value, at, self.state)?;
        }
        Ok(value)
    }

    /// `isset`
    #[cycle(observe)]
    pub(crate) fn isset(&self, places: &[Place]) -> Result<Value, Halt>
        requires { list_all place_is_pure places.now ≡ true }
        ensures { Observed (isset_run (map place_run places.now)) result self.now.state.now }
    {
        for place in places {
            let missing = self.missing_at(place)?;
            if missing {
                return Ok(Value::Bool(false));
            }
        }
        Ok(Value::Bool(true))
    }

    /// Whether isset finds nothing at a place, or null.
    #[cycle(observe)]
    fn missing_at(&self, place: &Place) -> Result<bool, Halt>
        requires { place_is_pure place.now ≡ true }
        ensures { Observed (missing_at (place_run place.now)) result self.now.state.now }
    {
        then_missing(
            self.alloc,
            &place.name,
            self.values(place.indices.as_slice()),
            self.state,
        )
    }
}
