//! Calls of frames: what a stream holds, in whatever pieces it comes.

use dp_rows::{Memory, put_bytes};
use dp_wire::{Commands, Packets, WireError};
use std::alloc::Global;

/// How many bytes a stream has at most that comes cut at each of its places.
const CUT: usize = 300;

/// Puts why no frame begins where the next has to.
fn put_refusal(text: &mut String, error: WireError) -> Result<(), Memory> {
    match error {
        WireError::BadLength { offset } => writeln!(text, "BadLength {offset}")?,
        WireError::NoNul { offset } => writeln!(text, "NoNul {offset}")?,
        WireError::TooLong { length } => writeln!(text, "TooLong {length}")?,
    }
    Ok(())
}

/// Puts a line of a word and bytes; of many bytes only how many there are.
fn put_line(text: &mut String, word: &str, bytes: &[u8]) -> Result<(), Memory> {
    if bytes.len() > CUT {
        let count = bytes.len();
        writeln!(text, "{word} of {count}")?;
    } else {
        write!(text, "{word} ")?;
        put_bytes(text, bytes)?;
        text.push('\n')?;
    }
    Ok(())
}

/// Puts the commands that are whole, and drops them.
fn take_commands(text: &mut String, commands: &mut Commands) -> Result<(), Memory> {
    for _ in 0..commands.bytes().len() {
        match commands.next() {
            Ok(Some(range)) => {
                put_line(text, "command", &commands.bytes()[range])?;
                commands.drop_front();
            }
            _ => break,
        }
    }
    Ok(())
}

/// Puts what is left of commands: the bytes that begin one, or why they begin none.
fn put_rest_of_commands(text: &mut String, commands: &Commands) -> Result<(), Memory> {
    match commands.next() {
        Ok(_) => put_line(text, "rest", commands.bytes()),
        Err(error) => put_refusal(text, error),
    }
}

/// The commands of a stream that comes in two pieces.
fn commands_of(alloc: Global, front: &[u8], back: &[u8]) -> Result<String, Memory> {
    let mut text = String::new(alloc);
    let mut commands = Commands::new(alloc);
    commands.feed(front)?;
    take_commands(&mut text, &mut commands)?;
    commands.feed(back)?;
    take_commands(&mut text, &mut commands)?;
    put_rest_of_commands(&mut text, &commands)?;
    Ok(text)
}

/// Puts the packets that are whole, and drops them.
fn take_packets(text: &mut String, packets: &mut Packets) -> Result<(), Memory> {
    for _ in 0..packets.bytes().len() {
        match packets.next() {
            Ok(Some(range)) => {
                put_line(text, "packet", &packets.bytes()[range])?;
                packets.drop_front();
            }
            _ => break,
        }
    }
    Ok(())
}

/// Puts what is left of packets: the bytes that begin one, or why they begin none.
fn put_rest_of_packets(text: &mut String, packets: &Packets) -> Result<(), Memory> {
    match packets.next() {
        Ok(_) => put_line(text, "rest", packets.bytes()),
        Err(error) => put_refusal(text, error),
    }
}

/// The packets of a stream that comes in two pieces.
fn packets_of(alloc: Global, front: &[u8], back: &[u8]) -> Result<String, Memory> {
    let mut text = String::new(alloc);
    let mut packets = Packets::new(alloc);
    packets.feed(front)?;
    take_packets(&mut text, &mut packets)?;
    packets.feed(back)?;
    take_packets(&mut text, &mut packets)?;
    put_rest_of_packets(&mut text, &packets)?;
    Ok(text)
}

/// The frames of a stream that comes in two pieces.
fn frames_of(alloc: Global, of_packets: bool, front: &[u8], back: &[u8]) -> Result<String, Memory> {
    if of_packets {
        packets_of(alloc, front, back)
    } else {
        commands_of(alloc, front, back)
    }
}

/// The frames of a stream, and where it has to be cut for others to come of it.
fn told_frames(alloc: Global, of_packets: bool, input: &[u8]) -> Result<String, Memory> {
    let mut text = frames_of(alloc, of_packets, input, &[])?;
    if input.len() > CUT {
        return Ok(text);
    }
    for at in 0..input.len() {
        if let Some((front, back)) = input.split_at_checked(at) {
            let other = frames_of(alloc, of_packets, front, back)?;
            if other.as_bytes() != text.as_bytes() {
                writeln!(text, "others where it is cut at {at}")?;
                return Ok(text);
            }
        }
    }
    Ok(text)
}

/// The commands of a stream.
pub(crate) fn told_commands(alloc: Global, input: &[u8]) -> Result<String, Memory> {
    told_frames(alloc, false, input)
}

/// The packets of a stream.
pub(crate) fn told_packets(alloc: Global, input: &[u8]) -> Result<String, Memory> {
    told_frames(alloc, true, input)
}
