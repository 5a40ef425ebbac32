//! The lines of a field's content.

use crate::Memory;
use crate::escapes::put_text;
use crate::fields::at_space;

const DECLARATION: &[u8] = b"<?xml version=\"1.0\" encoding=\"iso-8859-1\"?>\n";

const NAMESPACE: &[u8] = b" xmlns=\"urn:debugger_protocol_v1\"";

/// Whether a line may stand in a field's content.
pub(crate) fn is_content(line: &[u8]) -> bool {
    match line.first() {
        Some(byte) => matches!(*byte, b'|' | b'>' | b'\\' | b'0'..=b'9'),
        None => false,
    }
}

/// Puts what a line of a content stands for: by its first byte, `|` and `>`, the rest of the line and a line feed, or a
/// NUL; `\`, the rest of the line, in which escapes stand; a digit, a packet, which has its length and its element
/// there.
fn put_line(bytes: &mut Vec<u8>, line: &[u8]) -> Result<(), Memory> {
    match line.split_first() {
        Some((b'|', rest)) => {
            bytes.extend_from_slice(rest)?;
            bytes.push(b'\n')?;
        }
        Some((b'>', rest)) => {
            bytes.extend_from_slice(rest)?;
            bytes.push(0)?;
        }
        Some((b'\\', rest)) => put_text(bytes, rest)?,
        Some(_) => put_packet(bytes, line)?,
        None => (),
    }
    Ok(())
}

/// Puts what the lines of a content stand for.
pub(crate) fn put_lines(bytes: &mut Vec<u8>, lines: &[&[u8]]) -> Result<(), Memory> {
    for line in lines {
        put_line(bytes, line)?;
    }
    Ok(())
}

/// Puts a packet as it stands on a wire.
fn put_packet(bytes: &mut Vec<u8>, line: &[u8]) -> Result<(), Memory> {
    let (length, element) = at_space(line);
    bytes.extend_from_slice(length)?;
    bytes.push(0)?;
    bytes.extend_from_slice(DECLARATION)?;
    put_element(bytes, element)?;
    bytes.push(0)?;
    Ok(())
}

/// Puts an element, in which `@` behind the root's name stands for the namespace of packets.
fn put_element(bytes: &mut Vec<u8>, element: &[u8]) -> Result<(), Memory> {
    let count = element
        .iter()
        .take_while(|byte| byte.is_ascii_lowercase() || **byte == b'<')
        .count();
    let (name, rest) = element.split_at_checked(count).unwrap_or((element, &[]));
    bytes.extend_from_slice(name)?;
    match rest.strip_prefix(b"@") {
        Some(behind) => {
            bytes.extend_from_slice(NAMESPACE)?;
            bytes.extend_from_slice(behind)?;
        }
        None => bytes.extend_from_slice(rest)?,
    }
    Ok(())
}
