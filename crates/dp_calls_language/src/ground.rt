//! Calls of the crates of the ground.

use dp_adapters::ReaderSource;
use dp_bytes::{Memory, Text, decimal};
use dp_outside::{ByteSink, Sink, Source};
use dp_polled::{ListPolled, Look, Polled};
use dp_value::{Key, PhpArray, Value, ValueError};
use dp_wire::Commands;
use std::alloc::Global;

/// A sink in memory takes bytes.
pub(crate) fn dp_outside(alloc: Global) -> Result<String, Memory> {
    // call: the third put fails
    let mut fails = Vec::new(alloc);
    fails.push(3)?;
    let mut sink = ByteSink::new(alloc, 16, fails)?;
    let went = sink.put(b"hello").is_ok();
    let taken = sink.taken();
    // end
    let taken = String::from_utf8_lossy(alloc, taken)?;
    let taken = taken.as_str();
    format!(in alloc; "{went}, {taken}")
}

/// A source reads a stream.
pub(crate) fn dp_adapters(alloc: Global) -> Result<String, Memory> {
    // call
    let mut source = ReaderSource::new(b"hello".as_slice());
    let mut room = [0; 4];
    let count = source.take(&mut room);
    let faults = source.faults();
    // end
    let count = count.unwrap_or(0);
    format!(in alloc; "{count} bytes, {faults} faults")
}

/// A text grows, and its other owner has what it had.
pub(crate) fn dp_bytes(alloc: Global) -> Result<String, Memory> {
    // call
    let mut text = Text::from_slice(alloc, b"12")?;
    let other = text.try_clone()?;
    text.append(alloc, b"34")?;
    let number = decimal(text.as_slice(), 9_999);
    // end
    let number = number.unwrap_or(0);
    let kept = other.len();
    format!(in alloc; "{number}, {kept} bytes")
}

/// An array has values under keys.
pub(crate) fn dp_value(alloc: Global) -> Result<String, ValueError> {
    // call
    let mut array = PhpArray::new(alloc);
    array.push(Value::Int(7))?;
    array.set(Key::Int(5), Value::Bool(true))?;
    array.push(Value::Null)?;
    let last = array.get(&Key::Int(6));
    // end
    let is_null = matches!(last, Some(Value::Null));
    let answer = format!(in alloc; "{is_null}")?;
    Ok(answer)
}

/// A stream is cut into commands.
pub(crate) fn dp_wire(alloc: Global) -> Result<String, Memory> {
    let mut answer = String::new(alloc);
    // call
    let mut commands = Commands::new(alloc);
    commands.feed(b"status -i 1\0run -")?;
    let first = commands.next();
    // end
    if let Ok(Some(line)) = first {
        let (start, end) = (line.start, line.end);
        write!(answer, "{start}..{end}")?;
    }
    Ok(answer)
}

/// Bytes come at a look, and not before.
pub(crate) fn dp_polled(alloc: Global) -> Result<String, Memory> {
    // call: five bytes are there from the second look on
    let mut bytes = Vec::new(alloc);
    bytes.extend_from_slice(b"hello")?;
    let mut gives = Vec::new(alloc);
    gives.push((2, bytes))?;
    let mut polled = ListPolled::new(gives, Vec::new(alloc))?;
    let mut room = [0; 8];
    let first = polled.look(&mut room);
    let second = polled.look(&mut room);
    // end
    let is_early = matches!(first, Ok(Look::NotYet));
    let have_come = matches!(second, Ok(Look::Bytes(5)));
    format!(in alloc; "{is_early}, {have_come}")
}
