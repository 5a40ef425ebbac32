//! The sorts of bytes that the token grammar speaks of.

ghost use Rattle.std.specs.Prelude.{◌≡◌};
ghost use Rattle.dp_lexer.specs.Bytes as sorts;
ghost use Rattle.dp_lexer.specs.inner.Lexer as spec;

/// What a byte may begin.
#[derive(Clone, Copy, Debug, PartialEq, Eq)]
pub(crate) enum Class {
    Name,
    Number,
    Space,
    Hash,
    Slash,
    Dollar,
    Quote,
    Other,
}

/// Whether the byte is white space: a space, a tab, a line feed or a carriage return.
pub(crate) fn is_space(b: u8) -> bool
    ensures { result ≡ sorts.is_space b }
{
    b == b' ' || b == b'\t' || b == b'\n' || b == b'\r'
}

/// Whether the byte is a decimal digit.
pub(crate) fn is_digit(b: u8) -> bool
    ensures { result ≡ sorts.is_digit b }
{
    b >= b'0' && b <= b'9'
}

/// Whether the byte is an octal digit.
pub(crate) fn is_octal(b: u8) -> bool
    ensures { result ≡ sorts.is_octal b }
{
    b >= b'0' && b <= b'7'
}

/// Whether the byte is a hexadecimal digit, of either case.
pub(crate) fn is_hexadecimal(b: u8) -> bool
    ensures { result ≡ sorts.is_hexadecimal b }
{
    is_digit(b) || (b >= b'a' && b <= b'f') || (b >= b'A' && b <= b'F')
}

/// Whether the byte is a letter of ASCII, of either case.
pub(crate) fn is_letter(b: u8) -> bool
    ensures { result ≡ sorts.is_letter b }
{
    (b >= b'a' && b <= b'z') || (b >= b'A' && b <= b'Z')
}

/// Whether a name may begin with the byte.
pub(crate) fn is_start(b: u8) -> bool
    ensures { result ≡ sorts.is_start b }
{
    is_letter(b) || b == b'_' || b >= 0x80
}

/// Whether a name may go on with the byte.
pub(crate) fn is_part(b: u8) -> bool
    ensures { result ≡ sorts.is_part b }
{
    is_start(b) || is_digit(b)
}

/// Whether the byte may not stand directly behind a number.
pub(crate) fn runs_on(b: u8) -> bool
    ensures { result ≡ sorts.runs_on b }
{
    is_digit(b) || is_letter(b) || b == b'_' || b == b'.'
}

/// The class of the byte: what it may begin.
pub(crate) fn class_of(b: u8) -> Class
    ensures { result ≡ spec.class_of b }
{
    if is_start(b) {
        Class::Name
    } else if is_digit(b) {
        Class::Number
    } else if is_space(b) {
        Class::Space
    } else if b == b'#' {
        Class::Hash
    } else if b == b'/' {
        Class::Slash
    } else if b == b'$' {
        Class::Dollar
    } else if b == b'\'' || b == b'"' {
        Class::Quote
    } else {
        Class::Other
    }
}
