//! Which calls of which object fail.

use dp_rows::{Field, Memory, Row};
use std::alloc::Global;

/// An object of a call: its input and its outputs, the source and the sink of its link, and its network.
#[derive(Clone, Copy, Debug, PartialEq, Eq)]
pub(crate) enum Place {
    Input,
    Out,
    Err,
    Link,
    Sent,
    Net,
}

/// The call of this number, from 1, of this object fails; 0 where none does.
#[derive(Clone, Copy, Debug)]
pub(crate) struct Faulty {
    pub(crate) place: Place,
    pub(crate) number: u64,
}

impl Place {
    /// The object of this name.
    pub(crate) fn of(name: &[u8]) -> Option<Place> {
        if name == b"in".as_slice() {
            return Some(Place::Input);
        }
        if name == b"out".as_slice() {
            return Some(Place::Out);
        }
        if name == b"err".as_slice() {
            return Some(Place::Err);
        }
        if name == b"link".as_slice() {
            return Some(Place::Link);
        }
        if name == b"sent".as_slice() {
            return Some(Place::Sent);
        }
        if name == b"net".as_slice() {
            return Some(Place::Net);
        }
        None
    }

    /// The field of a row with the number of a call of it that fails.
    fn field(self) -> &'static [u8] {
        match self {
            Place::Input => b"input_fails".as_slice(),
            Place::Out => b"out_fails".as_slice(),
            Place::Err => b"err_fails".as_slice(),
            Place::Link => b"link_fails".as_slice(),
            Place::Sent => b"sent_fails".as_slice(),
            Place::Net => b"net_fails".as_slice(),
        }
    }
}

/// A list with the number that a field of a row gives, or an empty one.
pub(crate) fn numbers(alloc: Global, row: &Row<'_>, name: &[u8]) -> Result<Vec<u64>, Memory> {
    let mut numbers = Vec::new(alloc);
    if let Some(number) = row.field(name).and_then(Field::number) {
        numbers.push(number)?;
    }
    Ok(numbers)
}

impl Faulty {
    /// No call fails.
    pub(crate) fn none() -> Faulty {
        Faulty {
            place: Place::Net,
            number: 0,
        }
    }

    /// The numbers of the calls of an object that fail: that which the row gives, and this one.
    pub(crate) fn calls(
        self,
        alloc: Global,
        row: &Row<'_>,
        place: Place,
    ) -> Result<Vec<u64>, Memory> {
        let mut calls = numbers(alloc, row, place.field())?;
        if self.place == place && self.number != 0 {
            calls.push(self.number)?;
        }
        Ok(calls)
    }
}
