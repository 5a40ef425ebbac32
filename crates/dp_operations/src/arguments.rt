//! The arguments of calls, by their number.

ghost use Rattle.std.specs.Prelude.{◌≡◌, map, option_map};
ghost use Rattle.dp_value.specs.Value.{data_of};
ghost use Rattle.dp_operations.specs.Builtins.{double as two_of, single as one_of};

use dp_value::Value;

/// The argument, where there is exactly one.
pub(crate) fn single<'a>(args: &[&'a Value]) -> Option<&'a Value>
    ensures { option_map (λ a. data_of a.now) result ≡ one_of (map (λ a. data_of a.now) args.now) }
{
    match args {
        [a] => Some(*a),
        _ => None,
    }
}

/// The arguments, where there are exactly two.
pub(crate) fn double<'a>(args: &[&'a Value]) -> Option<(&'a Value, &'a Value)>
    ensures { option_map (λ p. (data_of p.0.now, data_of p.1.now)) result ≡ two_of (map (λ a. data_of a.now) args.now) }
{
    match args {
        [a, b] => Some((*a, *b)),
        _ => None,
    }
}
