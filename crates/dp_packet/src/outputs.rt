//! What the text of a packet is put into.
ghost use Rattle.std.specs.Prelude.{◌≡◌, length, OnOk};
ghost use Rattle.dp_markup.specs.Escapes.{escaped_all};
ghost use Rattle.dp_markup.specs.Outputs.{behind};
ghost use Rattle.dp_packet.specs.Parts.{base64};

use crate::Memory;
use base64::engine::general_purpose::STANDARD;
use dp_markup::{Counter, Output, TextOutput, put_escaped};
use std::convert::Infallible;

/// What the text of a packet is put into.
pub trait PacketOutput: Output {
    /// Puts the base64 of bytes, with padding.
    fn put_base64(&mut self, bytes: &[u8]) -> Result<(), Self::Error>
        ensures { OnOk result (Self.Output.seen self.new ≡ behind (Self.Output.seen self.old)
            (escaped_all (base64 bytes.now))) };
}

impl PacketOutput for TextOutput {
    fn put_base64(&mut self, bytes: &[u8]) -> Result<(), Memory> {
        let text = STANDARD.encode(self.alloc, bytes)?;
        put_escaped(self, text.as_bytes())
    }
}

impl PacketOutput for Counter {
    fn put_base64(&mut self, bytes: &[u8]) -> Result<(), Infallible> {
        self.left = self.left.saturating_sub(encoded_size(bytes));
        Ok(())
    }
}

/// The size of these bytes in base64, as a text: no symbol is escaped.
pub(crate) fn encoded_size(bytes: &[u8]) -> u64
    ensures { result ≡ length (escaped_all (base64 bytes.now)) }
{
    (bytes.len() as u64 + 2) / 3 * 4
}
