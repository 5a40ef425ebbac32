//! The built-in functions, by their names.

ghost use Rattle.std.specs.Prelude.{map};
ghost use Rattle.dp_value.specs.Value.{data_of};
ghost use Rattle.dp_operations.specs.Builtins.{builtin_of, CallAnswers};

use crate::arrays::{count, key_list, value_list};
use crate::parts::{joining, part, repetition};
use crate::scalars::{byte, first_byte, length, quotient};
use crate::types::{is_array, is_bool, is_int, is_null, is_string};
use dp_tree::Builtin;
use dp_value::{CallError, Value};
use std::alloc::Global;

/// What a built-in function gives of arguments that are lent. `Arguments` comes where the number of arguments is not
/// the function's, or a count to repeat is negative. Source: the PHP manual, "Function Reference".
pub fn builtin(alloc: Global, function: Builtin, args: &[&Value]) -> Result<Value, CallError>
    ensures { CallAnswers result (builtin_of function (map (λ a. data_of a.now) args.now)) }
{
    match function {
        Builtin::StrLen => length(args),
        Builtin::Ord => first_byte(args),
        Builtin::Count => count(args),
        Builtin::ArrayKeys => key_list(alloc, args),
        Builtin::ArrayValues => value_list(alloc, args),
        Builtin::IntDiv => quotient(args),
        Builtin::Chr => byte(alloc, args),
        Builtin::SubStr => part(alloc, args),
        Builtin::StrRepeat => repetition(alloc, args),
        Builtin::Implode => joining(alloc, args),
        Builtin::IsInt => is_int(args),
        Builtin::IsString => is_string(args),
        Builtin::IsBool => is_bool(args),
        Builtin::IsNull => is_null(args),
        Builtin::IsArray => is_array(args),
    }
}
