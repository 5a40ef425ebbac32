//! Classes of bytes.

ghost use Rattle.std.specs.Prelude.{◌≡◌};
ghost use Rattle.dp_markup.specs.Classes as class;

/// White space of markup: space, tab, line feed, carriage return.
pub(crate) fn is_white(byte: u8) -> bool
    ensures { result ≡ class.is_white byte }
{
    byte == b' ' || byte == b'\t' || byte == b'\n' || byte == b'\r'
}

/// Whether the byte is a letter of ASCII, of either case.
fn is_letter(byte: u8) -> bool
    ensures { result ≡ class.is_letter byte }
{
    (b'a' <= byte && byte <= b'z') || (b'A' <= byte && byte <= b'Z')
}

/// Whether the byte is a decimal digit.
fn is_digit(byte: u8) -> bool
    ensures { result ≡ class.is_digit byte }
{
    b'0' <= byte && byte <= b'9'
}

/// Whether a name may begin with the byte: a letter, `_` or `:`.
pub(crate) fn is_name_start(byte: u8) -> bool
    ensures { result ≡ class.is_name_start byte }
{
    is_letter(byte) || byte == b'_' || byte == b':'
}

/// Whether the byte may stand in a name: one that may begin it, a digit, `-` or `.`.
pub(crate) fn is_name_byte(byte: u8) -> bool
    ensures { result ≡ class.is_name_byte byte }
{
    is_name_start(byte) || is_digit(byte) || byte == b'-' || byte == b'.'
}

/// Whether the byte is a quote of either kind.
pub(crate) fn is_quote(byte: u8) -> bool
    ensures { result ≡ class.is_quote byte }
{
    byte == b'"' || byte == b'\''
}

/// Whether the byte stands for itself in a text: any but `<` and `&`.
pub(crate) fn is_plain_in_text(byte: u8) -> bool
    ensures { result ≡ class.is_plain_in_text byte }
{
    !(byte == b'<' || byte == b'&')
}

/// Whether the byte stands for itself in a value in such quotes: any but `<`, `&` and the quote.
pub(crate) fn is_plain_in_value(quote: u8, byte: u8) -> bool
    ensures { result ≡ class.is_plain_in_value quote byte }
{
    !(byte == b'<' || byte == b'&' || byte == quote)
}
