//! A list of events, and how it is read.
ghost use Rattle.std.specs.Prelude.{IfOk, MatchResult};
ghost use Rattle.dp_events.specs.Lists as spec;
ghost use Rattle.dp_events.specs.inner.Progress.{IsReading};

use crate::errors::ListError;
use crate::event::Event;
use crate::readers::Reading;
use dp_bytes::Memory;
use std::alloc::Global;
use std::marker::Model;

/// A list of events in which each fits those before it. Contracts see the events.
#[derive(Debug, Drop)]
pub struct Events {
    pub(crate) events: Vec<Event>,
}

impl Model for Events {
    ghost use Rattle.std.specs.Prelude.{List, []};
    ghost use Rattle.dp_events.specs.declared.event.Event.{Event as OneEvent};
    ghost use Rattle.dp_events.specs.Lists.{AllFit};

    ghost Value = { List OneEvent };

    ghost view = { λ e. e.events.items };

    ghost invariant = { λ e. AllFit [] e.events.items };
}

/// The events of all lines, or the number of the first line that adds none.
fn read_lines(alloc: Global, bytes: &[u8]) -> Result<Result<Reading, usize>, Memory>
    ensures { IfOk result (λ read. MatchResult read
        (λ reading. IsReading reading reading.events.items × spec.IsList bytes.now reading.events.items)
        (λ line. spec.IsFirstBad bytes.now line)) }
{
    let mut reading = Reading::new(alloc);
    let mut number = 0;
    for line in bytes.split(|b| *b == b'\n') {
        number += 1;
        if !reading.take(alloc, line)? {
            return Ok(Err(number));
        }
    }
    Ok(Ok(reading))
}

impl Events {
    ghost use Rattle.std.specs.Prelude.{◌≡◌, ◌⊎◌, [], ℕ, List, Err, IfOk, MatchResult};
    ghost use Rattle.dp_events.specs.declared.errors.ListError.TheVariants.{BadLine as IsBadLine};
    ghost use Rattle.dp_events.specs.declared.errors.ListError.TheVariants.{Memory as OutOfMemory};
    ghost use Rattle.dp_events.specs.declared.event.Event.{Event as OneEvent};
    ghost use Rattle.dp_events.specs.Lists.{AllFit, IsList, IsFirstBad};

    /// Reads a list of events. `BadLine` exactly where a line adds nothing to those before it; it names the first.
    pub fn read(alloc: Global, bytes: &[u8]) -> Result<Events, ListError>
        ensures list { IfOk result (λ events. IsList bytes.now events) }
        ensures only { (events : List OneEvent) → IsList bytes.now events
            → MatchResult result (λ read. read ≡ events) (λ e. e ≡ OutOfMemory) }
        ensures bad { (line : ℕ) → result ≡ Err (IsBadLine line) → IsFirstBad bytes.now line }
        ensures bad_only { (line : ℕ) → IsFirstBad bytes.now line
            → MatchResult result (λ read. ⊥) (λ e. (e ≡ IsBadLine line) ⊎ (e ≡ OutOfMemory)) }
    {
        match read_lines(alloc, bytes)? {
            Ok(reading) => Ok(reading.done()),
            Err(line) => Err(ListError::BadLine { line }),
        }
    }

    /// The events in their order. Takes no memory.
    pub fn events(&self) -> &[Event]
        ensures same { result.now ≡ self.now }
        ensures fit { AllFit [] self.now }
    {
        self.events.as_slice()
    }
}
