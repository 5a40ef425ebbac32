//! Which call of which object fails.

use dp_rows::{Memory, at_space, number_of};
use std::alloc::Global;

/// An object of a session: the source and the sink of the engine's link, those of its IDE's, the dialer, the spawner.
#[derive(Clone, Copy, Debug, PartialEq, Eq)]
pub(crate) enum Place {
    EngineTakes,
    EnginePuts,
    IdeTakes,
    IdePuts,
    Dials,
    Starts,
}

const PLACES: [(&[u8], Place); 6] = [
    (b"engine_takes", Place::EngineTakes),
    (b"engine_puts", Place::EnginePuts),
    (b"ide_takes", Place::IdeTakes),
    (b"ide_puts", Place::IdePuts),
    (b"dials", Place::Dials),
    (b"starts", Place::Starts),
];

/// The call of this number, from 1, of this object fails; 0 where none does.
#[derive(Clone, Copy, Debug)]
pub(crate) struct Faulty {
    pub(crate) place: Place,
    pub(crate) number: u64,
}

impl Faulty {
    /// No call fails.
    pub(crate) fn none() -> Faulty {
        Faulty {
            place: Place::Dials,
            number: 0,
        }
    }

    /// The numbers of the calls of an object that fail.
    pub(crate) fn calls(self, alloc: Global, place: Place) -> Result<Vec<u64>, Memory> {
        let mut calls = Vec::new(alloc);
        if self.place == place {
            calls.push(self.number)?;
        }
        Ok(calls)
    }
}

/// The calls that a field of a row names: those of one object from one number to another.
#[derive(Clone, Copy)]
pub(crate) struct Calls {
    pub(crate) place: Place,
    pub(crate) first: u64,
    pub(crate) last: u64,
}

/// The object of this name.
fn place_of(name: &[u8]) -> Option<Place> {
    for (spelt, place) in PLACES.iter() {
        if *spelt == name {
            return Some(*place);
        }
    }
    None
}

impl Calls {
    /// The calls that this text names: an object and two numbers.
    pub(crate) fn of(text: &[u8]) -> Option<Calls> {
        let (name, numbers) = at_space(text);
        let (first, last) = at_space(numbers);
        Some(Calls {
            place: place_of(name)?,
            first: number_of(first)?,
            last: number_of(last)?,
        })
    }
}
