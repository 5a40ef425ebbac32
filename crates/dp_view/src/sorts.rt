//! The sorts of bytes in a name, and runs of them.

ghost use Rattle.std.specs.Prelude.{◌≡◌, ◌≤◌, length};
ghost use Rattle.std.specs.List.{prefix_len};
ghost use Rattle.dp_lexer.specs.Bytes as bytes_of;
ghost use Rattle.dp_view.specs.NameReader.{run_at};
ghost use Rattle.dp_view.specs.inner.Items.{test_of};

/// A sort of bytes of which a part of a name consists.
#[derive(Clone, Copy, Debug)]
pub(crate) enum Sort {
    /// What the name of a variable may hold.
    Name,
    /// What an integer may hold.
    Int,
}

/// Whether the name of a variable may begin with the byte.
pub(crate) fn is_start(b: u8) -> bool
    ensures { result ≡ bytes_of.is_start b }
{
    (b'a' <= b && b <= b'z') || (b'A' <= b && b <= b'Z') || b == b'_' || 0x80 <= b
}

/// Whether the byte is a decimal digit.
fn is_digit(b: u8) -> bool
    ensures { result ≡ bytes_of.is_digit b }
{
    b'0' <= b && b <= b'9'
}

impl Sort {
    /// Whether the byte is of this sort.
    fn has(self, b: u8) -> bool
        ensures { result ≡ test_of self b }
    {
        match self {
            Sort::Name => is_start(b) || is_digit(b),
            Sort::Int => is_digit(b) || b == b'-',
        }
    }
}

/// How many bytes of a sort stand at the front.
fn run_len(sort: Sort, bytes: &[u8]) -> usize
    ensures value { result ≡ prefix_len (test_of sort) bytes.now }
    ensures within { result ≤ length bytes.now }
{
    let mut n = 0;
    while n < bytes.len() && sort.has(bytes[n]) {
        n += 1;
    }
    n
}

/// The run of bytes of a sort at the front, and what stands behind it.
pub(crate) fn run(sort: Sort, bytes: &[u8]) -> (&[u8], &[u8])
    ensures { (result.0.now, result.1.now) ≡ run_at (test_of sort) bytes.now }
{
    bytes.split_at(run_len(sort, bytes))
}
