//! The evaluation of assignments, steps and `isset`.

#![tactic(auto, using(crate::proofs::Drives::evaluating))]

use crate::evaluator::Evaluator;
use crate::outside::Outside;
use dp_actions::{
    Halt, assign_integer, assign_variable, combined_integer, found_place, integer, present,
    read_place, step_variable, then_assign, then_combine, then_missing, then_put_place,
    then_put_step, then_step,
};
use dp_bytes::Bytes;
use dp_state::State;
use dp_tree::{BinaryOp, Expression, Order, Place, UnaryOp};
use dp_value::Value;
use std::slice;

impl<O: Outside> Evaluator<'_, O> {
    ghost use Rattle.std.specs.Prelude.{◌∷◌, [], false, map};
    ghost use Rattle.dp_meaning.specs.inner.Drive.{Evaluates};
    ghost use Rattle.dp_meaning.specs.inner.Evaluation.{goes_by};
    ghost use Rattle.dp_actions.specs.Expressions.{evaluation, evaluations, place_run};
    ghost use Rattle.dp_tree.specs.declared.tree.Order.{Order as AnyOrder};
    ghost use Rattle.dp_actions.specs.Run.{and_then, given_up};
    ghost use Rattle.dp_actions.specs.Places.{assigned_under, assignment, coalescing, coalescing_under, compound};
    ghost use Rattle.dp_actions.specs.Places.{compound_under, isset_run, missing_at, step};

    /// `place = right`, or `place[] = right`
    #[cycle(evaluate)]
    pub(crate) fn assign(
        &self,
        place: &Place,
        right: &Expression,
        push: bool,
        state: &mut State,
    ) -> Result<Value, Halt>
        ensures { Evaluates (O.rules self.now.outside.now) (assignment push (place_run place.now)
            (evaluation right.now) (goes_by self.now) state.old) result state.new }
    {
        let indices = self.values(place.indices.as_slice(), state)?;
        then_assign(
            self.alloc,
            &place.name,
            indices.as_slice(),
            push,
            self.expression(right, state),
            state,
        )
    }

    /// `place = right`, whose value is given up
    #[cycle(evaluate)]
    pub(crate) fn put_assigned(
        &self,
        place: &Place,
        right: &Expression,
        state: &mut State,
    ) -> Result<(), Halt>
        ensures { Evaluates (O.rules self.now.outside.now) (and_then (assignment false (place_run place.now)
            (evaluation right.now) (goes_by self.now) state.old) given_up) result state.new }
    {
        if place.indices.as_slice().is_empty() {
            return self.put_variable(&place.name, right, state);
        }
        self.put(place, right, false, state)
    }

    /// `variable = right`, whose value is given up
    #[cycle(evaluate)]
    fn put_variable(&self, name: &Bytes, right: &Expression, state: &mut State) -> Result<(), Halt>
        ensures { Evaluates (O.rules self.now.outside.now) (and_then (assigned_under false name.now
            (evaluation right.now) [] (goes_by self.now) state.old) given_up) result state.new }
    {
        match integer(right, state) {
            Some(n) => assign_integer(name, n, state),
            None => {
                let value = self.expression(right, state)?;
                assign_variable(name, value, state)
            }
        }
    }

    /// `place = right`, or `place[] = right`, whose value is given up
    #[cycle(evaluate)]
    pub(crate) fn put(
        &self,
        place: &Place,
        right: &Expression,
        push: bool,
        state: &mut State,
    ) -> Result<(), Halt>
        ensures { Evaluates (O.rules self.now.outside.now) (and_then (assignment push (place_run place.now)
            (evaluation right.now) (goes_by self.now) state.old) given_up) result state.new }
    {
        if let [index] = place.indices.as_slice() {
            return self.put_entry(&place.name, index, right, push, state);
        }
        let indices = self.values(place.indices.as_slice(), state)?;
        then_put_place(
            self.alloc,
            &place.name,
            indices.as_slice(),
            push,
            self.expression(right, state),
            state,
        )
    }

    /// The same under one index
    #[cycle(evaluate)]
    fn put_entry(
        &self,
        name: &Bytes,
        index: &Expression,
        right: &Expression,
        push: bool,
        state: &mut State,
    ) -> Result<(), Halt>
        ensures { Evaluates (O.rules self.now.outside.now) (and_then (and_then (evaluations (index.now ∷ [])
            (goes_by self.now) state.old) (λ indices s. assigned_under push name.now (evaluation right.now) indices
            (goes_by self.now) s)) given_up) result state.new }
    {
        let index = self.value(index, state)?;
        let done = then_put_place(
            self.alloc,
            name,
            slice::from_ref(&index),
            push,
            self.value(right, state),
            state,
        );
        drop(index);
        done
    }

    /// `place += right` and its like
    #[cycle(evaluate)]
    pub(crate) fn compound(
        &self,
        op: BinaryOp,
        place: &Place,
        right: &Expression,
        state: &mut State,
    ) -> Result<Value, Halt>
        ensures { Evaluates (O.rules self.now.outside.now) (compound op (place_run place.now) (evaluation right.now)
            (goes_by self.now) state.old) result state.new }
    {
        let indices = self.values(place.indices.as_slice(), state)?;
        self.compound_under(op, &place.name, indices.as_slice(), right, state)
    }

    /// `place += right` and its like, whose value is given up
    #[cycle(evaluate)]
    pub(crate) fn put_compound(
        &self,
        op: BinaryOp,
        place: &Place,
        right: &Expression,
        state: &mut State,
    ) -> Result<(), Halt>
        ensures { Evaluates (O.rules self.now.outside.now) (and_then (compound op (place_run place.now)
            (evaluation right.now) (goes_by self.now) state.old) given_up) result state.new }
    {
        if place.indices.as_slice().is_empty() {
            return self.put_combined(op, &place.name, right, state);
        }
        let value = self.compound(op, place, right, state)?;
        drop(value);
        Ok(())
    }

    /// `variable += right` and its like, whose value is given up: at once where it is of integers alone
    #[cycle(evaluate)]
    fn put_combined(
        &self,
        op: BinaryOp,
        name: &Bytes,
        right: &Expression,
        state: &mut State,
    ) -> Result<(), Halt>
        ensures { Evaluates (O.rules self.now.outside.now) (and_then (compound_under op name.now
            (evaluation right.now) [] (goes_by self.now) state.old) given_up) result state.new }
    {
        if let Some(n) = combined_integer(op, name, right, state) {
            return assign_integer(name, n, state);
        }
        let value = self.compound_under(op, name, &[], right, state)?;
        drop(value);
        Ok(())
    }

    /// A compound assignment under indices that are evaluated.
    #[cycle(evaluate)]
    fn compound_under(
        &self,
        op: BinaryOp,
        name: &Bytes,
        indices: &[Value],
        right: &Expression,
        state: &mut State,
    ) -> Result<Value, Halt>
        ensures { Evaluates (O.rules self.now.outside.now) (compound_under op name.now
            (evaluation right.now) indices.now (goes_by self.now) state.old) result state.new }
    {
        let old = read_place(self.alloc, name, indices, state)?;
        let value = self.value(right, state);
        then_combine(self.alloc, op, name, indices, old, value, state)
    }

    /// `place ??= right`
    #[cycle(evaluate)]
    pub(crate) fn coalesce_assign(
        &self,
        place: &Place,
        right: &Expression,
        state: &mut State,
    ) -> Result<Value, Halt>
        ensures { Evaluates (O.rules self.now.outside.now) (coalescing (place_run place.now) (evaluation right.now)
            (goes_by self.now) state.old) result state.new }
    {
        let indices = self.values(place.indices.as_slice(), state)?;
        self.coalesce_under(&place.name, indices.as_slice(), right, state)
    }

    /// A `??=` under indices that are evaluated.
    #[cycle(evaluate)]
    fn coalesce_under(
        &self,
        name: &Bytes,
        indices: &[Value],
        right: &Expression,
        state: &mut State,
    ) -> Result<Value, Halt>
        ensures { Evaluates (O.rules self.now.outside.now) (coalescing_under name.now
            (evaluation right.now) indices.now (goes_by self.now) state.old) result state.new }
    {
        let old = found_place(self.alloc, name, indices, state)?;
        match present(old) {
            Some(old) => Ok(old),
            None => then_assign(
                self.alloc,
                name,
                indices,
                false,
                self.expression(right, state),
                state,
            ),
        }
    }

    /// `++` and `--`
    #[cycle(evaluate)]
    pub(crate) fn step(
        &self,
        op: UnaryOp,
        order: Order,
        place: &Place,
        state: &mut State,
    ) -> Result<Value, Halt>
        ensures { Evaluates (O.rules self.now.outside.now) (step op order (place_run place.now)
            (goes_by self.now) state.old) result state.new }
    {
        then_step(
            self.alloc,
            op,
            order,
            &place.name,
            self.values(place.indices.as_slice(), state),
            state,
        )
    }

    /// `++` and `--`, whose value is given up
    #[cycle(evaluate)]
    pub(crate) fn put_step(&self, op: UnaryOp, place: &Place, state: &mut State) -> Result<(), Halt>
        ensures { (order : AnyOrder) → Evaluates (O.rules self.now.outside.now) (and_then (step op order
            (place_run place.now) (goes_by self.now) state.old) given_up) result state.new }
    {
        if place.indices.as_slice().is_empty() {
            return step_variable(self.alloc, op, &place.name, state);
        }
        then_put_step(
            self.alloc,
            op,
            &place.name,
            self.values(place.indices.as_slice(), state),
            state,
        )
    }

    /// `isset`
    #[cycle(evaluate)]
    pub(crate) fn isset(&self, places: &[Place], state: &mut State) -> Result<Value, Halt>
        ensures { Evaluates (O.rules self.now.outside.now) (isset_run (map place_run places.now)
            (goes_by self.now) state.old) result state.new }
    {
        for place in places {
            let missing = self.missing_at(place, state)?;
            if missing {
                return Ok(Value::Bool(false));
            }
        }
        Ok(Value::Bool(true))
    }

    /// Whether isset finds nothing at a place, or null.
    #[cycle(evaluate)]
    fn missing_at(&self, place: &Place, state: &mut State) -> Result<bool, Halt>
        ensures { Evaluates (O.rules self.now.outside.now) (missing_at (place_run place.now)
            (goes_by self.now) state.old) result state.new }
    {
        then_missing(
            self.alloc,
            &place.name,
            self.values(place.indices.as_slice(), state),
            state,
        )
    }
}
