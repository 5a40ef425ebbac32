//! Integers that are spelled in their shortest form.

ghost use Rattle.std.specs.Prelude.{◌≡◌};
ghost use Rattle.std.specs.Char.{is_ascii_digit};
ghost use Rattle.std.specs.List.{list_all};
ghost use Rattle.dp_bytes.specs.IntText.{int_of_text as spelt_int, is_int_form, is_positive};

/// The integer of 64 bits that a text spells in its shortest form.
pub fn int_of_text(bytes: &[u8]) -> Option<i64>
    ensures { result ≡ spelt_int bytes.now }
{
    if !has_int_form(bytes) {
        return None;
    }
    let text = str::from_utf8(bytes).ok()?;
    text.parse::<i64>().ok()
}

/// Whether a text is `0`, or an optional minus and digits that do not begin with 0.
fn has_int_form(bytes: &[u8]) -> bool
    ensures { result ≡ is_int_form bytes.now }
{
    match bytes {
        [b'0'] => true,
        [b'-', digits @ ..] => starts_above_zero(digits),
        _ => starts_above_zero(bytes),
    }
}

/// Whether there are digits, and the first is not 0.
pub(crate) fn starts_above_zero(bytes: &[u8]) -> bool
    ensures { result ≡ is_positive bytes.now }
{
    match bytes {
        [] => false,
        [first, ..] => *first != b'0' && all_digits(bytes),
    }
}

/// Whether each byte is a digit.
fn all_digits(bytes: &[u8]) -> bool
    ensures { result ≡ list_all is_ascii_digit bytes.now }
{
    bytes.iter().all(|b| b.is_ascii_digit())
}
