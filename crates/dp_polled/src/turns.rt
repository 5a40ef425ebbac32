//! The rule of the table, and what its steps tell. These types are for proofs alone.

use crate::Piece;
use atomic_table::{Join, Play, Split, TableRule};
use std::collections::LinkedList;

/// What a seat knows. No value of it is made.
pub(crate) struct View {
    /// The pieces that it put, and those that it took.
    pub(crate) put: LinkedList<Piece>,
    pub(crate) taken: LinkedList<Piece>,
    pub(crate) may_put: bool,
    pub(crate) may_take: bool,
    /// Whether it has the slot, to put a piece into it or to take one out.
    pub(crate) putting: bool,
    pub(crate) taking: bool,
    /// Whether the slot was full, each time that it asked.
    pub(crate) found: LinkedList<bool>,
}

pub(crate) struct OnePiece;

impl TableRule<Option<Piece>, View, ()> for OnePiece {
    ghost use Rattle.dp_polled.specs.Turns.{Kept, first};

    ghost holds = { λ _. Kept };

    ghost first = { λ _. first };
}

/// A put asks whether the slot is empty, and has it then.
pub(crate) struct AskToPut;

impl Play<Option<Piece>, View> for AskToPut {
    ghost use Rattle.dp_polled.specs.Turns.{asked_to_put};

    ghost then = { asked_to_put };
}

/// The piece that was put is counted, and the slot is back.
pub(crate) struct CountPut;

impl Play<Option<Piece>, View> for CountPut {
    ghost use Rattle.dp_polled.specs.Turns.{counted_put};

    ghost then = { counted_put };
}

/// A take asks whether the slot is full, and has it then.
pub(crate) struct AskToTake;

impl Play<Option<Piece>, View> for AskToTake {
    ghost use Rattle.dp_polled.specs.Turns.{asked_to_take};

    ghost then = { asked_to_take };
}

/// The piece that was taken is counted, and the slot is back.
pub(crate) struct CountTaken;

impl Play<Option<Piece>, View> for CountTaken {
    ghost use Rattle.dp_polled.specs.Turns.{counted_taken};

    ghost then = { counted_taken };
}

/// A seat that may do both looks at how what it took stands to what it put.
pub(crate) struct Compare;

impl Play<Option<Piece>, View> for Compare {
    ghost use Rattle.dp_polled.specs.Turns.{compared};

    ghost then = { compared };
}

/// A new seat has the right to put, and the old one keeps the right to take.
pub(crate) struct Parted;

impl Split<View> for Parted {
    ghost use Rattle.dp_polled.specs.Turns.{taker_of, putter_of};

    ghost left = { taker_of };

    ghost right = { putter_of };
}

/// A seat with the right to take is handed the right to put.
pub(crate) struct Both;

impl Join<View> for Both {
    ghost use Rattle.dp_polled.specs.Turns.{joined, spent};

    ghost both = { joined };

    ghost spent = { spent };
}
