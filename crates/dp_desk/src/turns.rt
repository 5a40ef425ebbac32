//! The rule of the table, and what its steps tell. These types are for proofs alone.

use crate::held::Held;
use atomic_table::{Join, Play, Split, TableRule};
use dp_registry::Entry;
use std::collections::LinkedList;
use std::marker::PhantomData;
use std::sync::ledger::Ledger;

/// What a seat knows. No value of it is made.
pub(crate) struct View {
    /// The journal as it was last seen.
    pub(crate) seen: LinkedList<Entry>,
    /// What a seat that was joined had seen, until the next look.
    pub(crate) met: LinkedList<Entry>,
    /// The sessions that were given and not dismissed.
    pub(crate) held: LinkedList<u64>,
    pub(crate) turn: bool,
}

pub(crate) struct InOneOrder<A, B, C> {
    of: PhantomData<(A, B, C)>,
}

impl<A: Ledger, B: Ledger, C: Ledger> TableRule<Option<Held<A, B, C>>, View, ()>
    for InOneOrder<A, B, C> {
    ghost use Rattle.std.specs.Prelude.{[], false};
    ghost use Rattle.dp_desk.specs.Turns.{Kept, view};

    ghost holds = { λ _. Kept (λ h. h.registry) };

    ghost first = { λ _. view [] [] [] false };
}

/// The turn is taken, if it is free.
pub(crate) struct Take<A, B, C> {
    of: PhantomData<(A, B, C)>,
}

impl<A: Ledger, B: Ledger, C: Ledger> Play<Option<Held<A, B, C>>, View> for Take<A, B, C> {
    ghost use Rattle.dp_desk.specs.Turns.{took};

    ghost then = { took (λ h. h.registry) };
}

/// An entry is counted.
pub(crate) struct Count<A, B, C> {
    of: PhantomData<(A, B, C)>,
}

impl<A: Ledger, B: Ledger, C: Ledger> Play<Option<Held<A, B, C>>, View> for Count<A, B, C> {
    ghost use Rattle.dp_desk.specs.Turns.{counted};

    ghost then = { counted (λ h. h.registry) };
}

/// The turn is put back.
pub(crate) struct PutBack;

impl<S> Play<S, View> for PutBack {
    ghost use Rattle.dp_desk.specs.Turns.{returned};

    ghost then = { returned };
}

/// The journal so far is looked at.
pub(crate) struct Look;

impl<S> Play<S, View> for Look {
    ghost use Rattle.dp_desk.specs.Turns.{looked};

    ghost then = { looked };
}

/// A new seat has seen what its source has, and holds nothing.
pub(crate) struct Twin;

impl Split<View> for Twin {
    ghost use Rattle.std.specs.Prelude.{[], false};
    ghost use Rattle.dp_desk.specs.Turns.{view};

    ghost left = { λ v. v };

    ghost right = { λ v. view v.seen [] [] false };
}

/// A seat is handed all that another one has.
pub(crate) struct Both;

impl Join<View> for Both {
    ghost use Rattle.dp_desk.specs.Turns.{joined, nobody};

    ghost both = { joined };

    ghost spent = { nobody };
}
