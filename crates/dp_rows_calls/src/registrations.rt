//! Calls of what an IDE asks of a proxy, and of the key with which an engine comes.

use dp_proxy::{Call, InitError, call_of, key_of_init};
use dp_rows::{Memory, put_bytes};
use std::alloc::Global;

/// Puts a key on the rest of a line.
fn with_key(mut text: String, key: &[u8]) -> Result<String, Memory> {
    put_bytes(&mut text, key)?;
    Ok(text)
}

/// What a command asks for, or `none`.
pub(crate) fn told_call(alloc: Global, input: &[u8]) -> Result<String, Memory> {
    match call_of(alloc, input)? {
        None => String::from_str(alloc, "none"),
        Some(Call::Stop { key }) => with_key(String::from_str(alloc, "stop ")?, key.as_slice()),
        Some(
            Call::Register {
                port,
                key,
                multiple,
            },
        ) => {
            let text = if multiple {
                format!(in alloc; "register {port} for several ")?
            } else {
                format!(in alloc; "register {port} for one ")?
            };
            with_key(text, key.as_slice())
        }
    }
}

/// The key of an engine's first packet, or `BadInit`.
pub(crate) fn told_key(alloc: Global, input: &[u8]) -> Result<String, Memory> {
    match key_of_init(alloc, input) {
        Ok(key) => with_key(String::from_str(alloc, "key ")?, key.as_slice()),
        Err(InitError::BadInit) => String::from_str(alloc, "BadInit"),
        Err(InitError::Memory) => Err(Memory),
    }
}
