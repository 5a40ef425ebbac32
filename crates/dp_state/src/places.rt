//! Writes of variables and of their entries, and `unset` and `global`.

ghost use Rattle.std.specs.Borrow.{sem};
ghost use Rattle.std.specs.Prelude.{◌≡◌, ◌⊎◌, ◌++◌, ◌≤◌, ◌-◌, false, [], Ok, Err, length, IfOk, IsOk, IfErr, OnOk};
ghost use Rattle.std.specs.Prelude.{OnErr, is_some, if◌then◌else◌};
ghost use Rattle.std.specs.Option.{option_map_or};
ghost use Rattle.dp_state.specs.States.{own_variables, variables_at, IsCause, IsFatal, IsSure};
ghost use Rattle.dp_state.specs.declared.state.Fault.TheVariants as fault;
ghost use Rattle.dp_value.specs.declared.value.Value.TheVariants as variant;
ghost use Rattle.dp_state.specs.Variables.{slot_of, sum_in, value_held, with_slot};
ghost use Rattle.dp_state.specs.declared.vars.Slot.TheVariants as variable;
ghost use Rattle.dp_state.specs.Places.{assigned, is_bound as is_mark, unset, with_global, with_variables};
ghost use Rattle.dp_state.specs.Places.{without_variable};
ghost use Rattle.dp_state.specs.inner.OwnVariables.{LendsOwn};
ghost use Rattle.dp_state.specs.inner.Parts.{home as home_of};

use crate::entries::{append_in, assign_in, bind_in, make_null, remove_in};
use crate::state::{Fault, State};
use crate::vars::{Slot, Vars};
use dp_bytes::{Bytes, Memory, Text};
use dp_value::{Key, Value};

impl State {
    /// Gives the variable of this name at a level a value, or gives it to the entry of the variable under `keys`, or
    /// pushes it there. A key that is `None` stands for an index that is no key. A name that is bound is the global
    /// variable's. What is missing is created. A level beyond the frames is that of the lowest one.
    ///
    /// The work grows with the number of keys, and not with what the variable holds, but where an array on the way has
    /// other owners: that one is copied first, and nothing beside the way.
    ///
    /// The causes are tried key by key: `Scalar` and `Unsupported` by what holds the entry, then `BadKey`; behind the
    /// last key `NextIndex`, then `TooHeavy`, all also where there is no memory. After a refusal, and after out of
    /// memory, the state is as before.
    pub fn assign(
        &mut self,
        level: usize,
        name: &Bytes,
        keys: &[Option<Key>],
        push: bool,
        value: Value,
    ) -> Result<(), Fault>
        ensures ok { OnOk result (assigned level name.now keys.now push value self.old ≡ Ok self.new) }
        ensures refused { IfErr result (IsCause (assigned level name.now keys.now push value self.old)) }
        ensures sure { IsSure (assigned level name.now keys.now push value self.old) result }
        ensures err { OnErr result (self.new ≡ self.old) }
    {
        let at = self.home(level, name);
        assign_in(self.own_mut(at), name, keys, push, value)
    }

    /// Puts an integer in the place of the value that a variable of the top frame has, and says whether it has one. A
    /// name that is bound has none of its own: then nothing changes. Takes no memory.
    pub fn put_integer(&mut self, name: &Bytes, n: i64) -> bool
        ensures held { result ≡ is_some (value_held (slot_of (variables_at self.old 0) name.now)) }
        ensures put { self.new ≡ (if is_some (value_held (slot_of (variables_at self.old 0) name.now)) then
            with_variables 0 (with_slot (variables_at self.old 0) name.now (variable.Held (variant.Int n))) self.old
            else self.old) }
    {
        let at = self.owner_at(0);
        self.own_mut(at).put_integer(name, n)
    }

    /// Adds to the integer that a variable of the top frame has, and gives the sum. Where it has none of its own, or
    /// the sum does not fit, there is none, and nothing changes. Takes no memory.
    pub fn add(&mut self, name: &Bytes, by: i64) -> Option<i64>
        ensures sum { result ≡ sum_in by (slot_of (variables_at self.old 0) name.now) }
        ensures added { self.new ≡ option_map_or (λ sum. with_variables 0 (with_slot (variables_at self.old 0) name.now
            (variable.Held (variant.Int sum))) self.old) result self.old }
    {
        let at = self.owner_at(0);
        self.own_mut(at).add(name, by)
    }

    /// Gives a variable of the top frame, or its entry under `keys`, a text with a piece behind it, and
    /// gives it. If the text has no owner but the one that is given here and that place itself, it
    /// grows there.
    ///
    /// It is refused as by `assign`, also where there is no memory, and then the state is as before. After out of
    /// memory it is as before, or null stands in that place.
    pub fn append(
        &mut self,
        name: &Bytes,
        keys: &[Option<Key>],
        text: Text,
        piece: &[u8],
    ) -> Result<Text, Fault>
        ensures longer { IfOk result (λ longer. longer ≡ text ++ piece.now) }
        ensures ok { OnOk result (assigned 0 name.now keys.now false (variant.Text (text ++ piece.now)) self.old ≡ Ok
            self.new) }
        ensures refused { IfErr result (IsCause (assigned 0 name.now keys.now false (variant.Text
            (text ++ piece.now)) self.old)) }
        ensures sure { IsSure (assigned 0 name.now keys.now false (variant.Text (text ++ piece.now)) self.old) result }
        ensures err { IsFatal result → self.new ≡ self.old }
        ensures memory { result ≡ Err fault.Memory
            → (self.new ≡ self.old) ⊎ (assigned 0 name.now keys.now false variant.Null self.old ≡ Ok self.new) }
    {
        let at = self.home(0, name);
        append_in(self.own_mut(at), name, keys, text, piece)
    }

    /// Takes a variable of the top frame away, or its entry under `keys` where there are any. A key that is `None`
    /// stands for an index that is no key. A name that is bound is bound no more, and the global variable stays; an
    /// entry of it is an entry of the global variable. If the variable or an entry on the way is missing, nothing
    /// changes. Takes memory only where an array on the way has other owners: then that one is copied first.
    ///
    /// The causes are tried key by key: `Scalar` and `Unsupported` by what holds the entry, then `BadKey`, all also
    /// where there is no memory. After a refusal, and after out of memory, the state is as before.
    pub fn unset(&mut self, name: &Bytes, keys: &[Option<Key>]) -> Result<(), Fault>
        ensures ok { OnOk result (unset name.now keys.now self.old ≡ Ok self.new) }
        ensures refused { IfErr result (IsCause (unset name.now keys.now self.old)) }
        ensures sure { IsSure (unset name.now keys.now self.old) result }
        ensures at_once { keys.now ≡ [] → IsOk result }
        ensures err { OnErr result (self.new ≡ self.old) }
    {
        if keys.is_empty() {
            self.remove(name);
            return Ok(());
        }
        let at = self.home(0, name);
        remove_in(self.own_mut(at), name, keys)
    }

    /// Binds a name of the top frame to the global variable of this name; if that one is missing, it becomes null. If
    /// the top frame uses the global variables, nothing is bound. After a refusal the state is as before.
    pub fn bind(&mut self, name: &Bytes) -> Result<(), Memory>
        ensures ok { OnOk result (self.new ≡ with_global name.now self.old) }
        ensures err { OnErr result (self.new ≡ self.old) }
    {
        let at = self.owner_at(0);
        let made = make_null(&mut self.globals, name)?;
        if at == 0 {
            return Ok(());
        }
        match bind_in(self.own_mut(at), name) {
            Ok(()) => Ok(()),
            Err(why) => {
                if made {
                    self.globals.remove(name);
                }
                Err(why)
            }
        }
    }

    /// Takes a variable of the top frame away.
    fn remove(&mut self, name: &Bytes)
        ensures { self.new ≡ without_variable name.now self.old }
    {
        let at = self.owner_at(0);
        self.own_mut(at).remove(name);
    }

    /// The position of the frame among whose own variables a variable at a level stands.
    fn home(&self, level: usize, name: &Bytes) -> usize
        ensures home { result ≡ home_of self.now level name.now }
        ensures within { result ≤ length self.now.frames - 1 }
    {
        let at = self.owner_at(level);
        if at == 0 || is_bound(self.own(at), name) {
            return 0;
        }
        at
    }

    /// Lends the own variables of the frame at this position; those of the lowest are the global ones.
    fn own_mut(&mut self, at: usize) -> &mut Vars
        requires { at ≤ length self.old.frames - 1 }
        ensures* lends { sem 𝓛 (LendsOwn self.entry at result) }
        ensures value { result.now ≡ own_variables self.old at }
    {
        if at == 0 {
            return &mut self.globals;
        }
        self.frames.vars_mut(at)
    }
}

/// Whether a name is bound to the global variable of its name.
fn is_bound(vars: &Vars, name: &Bytes) -> bool
    ensures { result ≡ is_mark (slot_of vars.now name.now) }
{
    match vars.get(name) {
        Some(Slot::Bound) => true,
        Some(Slot::Held(_)) => false,
        None => false,
    }
}
