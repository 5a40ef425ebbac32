//! How long decimals are. No call takes memory.

ghost use Rattle.std.specs.Prelude.{◌≡◌, ◌≤◌, decimal};
ghost use Rattle.std.specs.Fmt.{signed_decimal};
ghost use Rattle.dp_view_limits.specs.inner.Sizes.{text_size};

/// The decimal of a number.
#[tactic(auto, using(crate::proofs::Decimals::digit_size, crate::proofs::Decimals::one_more, crate::proofs::Decimals::short))]
pub(crate) fn number_size(n: u64) -> u64
    ensures size { result ≡ text_size (decimal n) }
    ensures small { result ≤ 20 }
{
    if n < 10 { 1 } else { number_size(n / 10) + 1 }
}

/// The decimal of an integer.
pub(crate) fn int_size(n: i64) -> u64
    ensures { result ≡ text_size (signed_decimal n) }
{
    let size = number_size(n.unsigned_abs());
    if n < 0 { size + 1 } else { size }
}
