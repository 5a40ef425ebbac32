//! The names of functions that may call deep, in any case of letters, each kept without a copy.

ghost use Rattle.std.specs.Prelude.{◌≡◌, ◌||◌, [], ℕ, fold, List, Decides, OnOk};
ghost use Rattle.std.specs.Hash as fed;
ghost use Rattle.std.specs.Option.{option_copied};
ghost use Rattle.std.specs.Str.{str_eq_ignore_ascii_case, str_to_ascii_lowercase};
ghost use Rattle.dp_analysis.specs.Still.{calls_of, is_named};

use dp_bytes::{Bytes, Memory};
use dp_tree::{Function, builtin_of};
use indexmap::IndexSet;
use std::alloc::Global;
use std::hash::{Hash, Hasher};
use std::marker::Model;

/// A name of a function, in any case of letters.
#[derive(Drop)]
struct CallName<'p> {
    bytes: &'p [u8],
}

impl<'p> Model for CallName<'p> {
    ghost use Rattle.std.specs.Prelude.{List, ℕ};

    ghost Value = { List ℕ };

    ghost view = { λ n. n.bytes.now };
}

impl<'p> PartialEq for CallName<'p> {
    ghost use Rattle.std.specs.Ordering.{on};
    ghost use Rattle.std.specs.Cmp.Lexicographic.{pointwise};
    ghost use Rattle.std.specs.Cmp.Rules.{comparing};
    ghost use Rattle.std.specs.Prelude.{nat_eq};
    ghost use Rattle.std.specs.Str.{str_to_ascii_lowercase as lowered};
    ghost use Rattle.std.proofs.Common.{rules};

    ghost eq = { on lowered (pointwise nat_eq) };

    ghost laws = { Prim.search (comparing, rules) };

    fn eq(&self, other: &CallName<'p>) -> bool {
        is_one_name(self.bytes, other.bytes)
    }
}

impl<'p> Eq for CallName<'p> {
    ghost use Rattle.std.specs.Cmp.Rules.{comparing};
    ghost use Rattle.std.proofs.Common.{rules};

    ghost laws = { Prim.search (comparing, rules) };
}

impl<'p> Hash for CallName<'p> {
    ghost use Rattle.std.specs.Hash as fed;
    ghost use Rattle.std.specs.Str.{str_to_ascii_lowercase as lowered};
    ghost use Rattle.std.specs.Cmp.Rules.{hashing};
    ghost use Rattle.std.proofs.Common.{rules};

    ghost hash_input = { λ n. fed.slice fed.u8 (lowered n) };

    ghost respects_eq = { Prim.search (hashing, rules) };

    fn hash<H: Hasher>(&self, state: &mut H) {
        feed_lowered(self.bytes, state);
    }
}

/// Whether two names are one, in any case of letters.
fn is_one_name(name: &[u8], other: &[u8]) -> bool
    ensures { result ≡ str_eq_ignore_ascii_case name.now other.now }
{
    name.eq_ignore_ascii_case(other)
}

/// Feeds a hasher the name in lower case.
fn feed_lowered<H: Hasher>(name: &[u8], state: &mut H)
    ensures { state.new ≡ fold H.write state.old (fed.slice fed.u8 (str_to_ascii_lowercase name.now)) }
{
    state.write_usize(name.len());
    for byte in name {
        state.write_u8(byte.to_ascii_lowercase());
    }
}

/// Names of functions. Contracts see the list of the names.
#[derive(Drop)]
pub struct DeepNames<'p> {
    names: IndexSet<CallName<'p>>,
}

impl<'p> Model for DeepNames<'p> {
    ghost use Rattle.std.specs.Prelude.{List, ℕ};

    ghost Value = { List (List ℕ) };

    ghost view = { λ d. d.names.keys };
}

impl<'p> DeepNames<'p> {
    /// No name yet. Takes no memory.
    pub(crate) fn new(alloc: Global) -> DeepNames<'p>
        ensures { result ≡ [] }
    {
        DeepNames {
            names: IndexSet::new(alloc),
        }
    }

    /// Whether the name that a call has is one of them, in any case of letters. Takes no memory.
    #[tactic(auto, unfolding(crate::specs::Still::is_named))]
    pub(crate) fn has(&self, name: &'p Bytes) -> bool
        ensures { result ≡ is_named self.now name.now }
    {
        self.names.contains(&CallName {
            bytes: name.as_slice(),
        })
    }

    /// Puts the name of a function with them.
    #[tactic(auto, unfolding(crate::specs::Still::is_named))]
    pub(crate) fn add(&mut self, function: &'p Function) -> Result<(), Memory>
        ensures { OnOk result ((name : List ℕ) → is_named self.new name
            ≡ (str_eq_ignore_ascii_case function.now.name name || is_named self.old name)) }
    {
        self.names.insert(CallName {
            bytes: function.name.as_slice(),
        })?;
        Ok(())
    }

    /// Whether these are the names of the other. Takes no memory.
    #[tactic(auto, unfolding(crate::specs::Still::is_named))]
    pub(crate) fn is_same(&self, other: &DeepNames<'p>) -> bool
        ensures { Decides result ((name : List ℕ) → is_named self.now name ≡ is_named other.now name) }
    {
        self.names == other.names
    }
}

/// Whether a call of this name is loud: it is one of these, or where there are none, that of a function of the program.
pub(crate) fn is_loud_call<'p>(loud: Option<&DeepNames<'p>>, name: &'p Bytes) -> bool
    ensures { result ≡ calls_of (option_copied loud.entry) name.now }
{
    match loud {
        Some(names) => names.has(name),
        None => builtin_of(name.as_slice()).is_none(),
    }
}
