//! Names in printable ASCII: of machines, and the keys of IDEs.
ghost use Rattle.std.specs.Prelude.{◌≡◌, ◌↔◌, ◌&&◌, nat_le, IsTrue};
ghost use Rattle.std.specs.List.{list_all};
ghost use Rattle.dp_outside.specs.Names as spec;

/// The most bytes of the name of a machine.
pub const HOST_LIMIT: usize = 64;

/// The most bytes of the key of an IDE.
pub const KEY_LIMIT: usize = 128;

/// Whether each byte is printable ASCII and no blank.
fn are_graphic(bytes: &[u8]) -> bool
    ensures { result ≡ list_all (λ b. nat_le 0x21 b && nat_le b 0x7e) bytes.now }
{
    bytes.iter().all(|&byte| 0x21 <= byte && byte <= 0x7e)
}

/// The test of a name.
fn passes(bytes: &[u8], most: usize) -> bool
    ensures { result ≡ spec.is_name most bytes.now }
{
    1 <= bytes.len() && bytes.len() <= most && are_graphic(bytes)
}

/// Whether the bytes are a name of at most so many: at least one, each from 0x21 to 0x7e. Takes no memory.
pub fn is_name(bytes: &[u8], most: usize) -> bool
    ensures test { result ≡ spec.is_name most bytes.now }
    ensures name { IsTrue result ↔ spec.IsName most bytes.now }
{
    passes(bytes, most)
}
