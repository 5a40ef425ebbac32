//! The functions that are there without a declaration.

ghost use Rattle.std.specs.Prelude.{◌≡◌};
ghost use Rattle.std.specs.Str.{str_eq_ignore_ascii_case};
ghost use Rattle.dp_tree.specs.Builtins as spec;
ghost use Rattle.dp_tree.specs.inner.Sized.{sized};

use crate::operators::{Builtin, Native};

/// Whether a name is this word, in any case of letters.
fn is(name: &[u8], word: &[u8]) -> bool
    ensures { result ≡ str_eq_ignore_ascii_case name.now word.now }
{
    name.eq_ignore_ascii_case(word)
}

/// The built-in function of this name, in any case of letters. The lengths of names tell most of them apart.
pub fn builtin_of(name: &[u8]) -> Option<Native>
    ensures { result ≡ spec.builtin_of name.now }
{
    match name.len() {
        3 => of_three(name),
        5 => of_five(name),
        6 => of_six(name),
        7 => of_seven(name),
        8 => of_eight(name),
        9 => of_nine(name),
        10 => of_ten(name),
        12 => of_twelve(name),
        _ => None,
    }
}

/// The built-in function of this name, of those whose names have three letters.
fn of_three(name: &[u8]) -> Option<Native>
    ensures { result ≡ spec.look_up name.now (sized 3) }
{
    if is(name, b"ord") {
        Some(Native::Table(Builtin::Ord))
    } else if is(name, b"chr") {
        Some(Native::Table(Builtin::Chr))
    } else {
        None
    }
}

/// The built-in function of this name, of those whose names have five letters.
fn of_five(name: &[u8]) -> Option<Native>
    ensures { result ≡ spec.look_up name.now (sized 5) }
{
    if is(name, b"count") {
        Some(Native::Table(Builtin::Count))
    } else {
        None
    }
}

/// The built-in function of this name, of those whose names have six letters.
fn of_six(name: &[u8]) -> Option<Native>
    ensures { result ≡ spec.look_up name.now (sized 6) }
{
    if is(name, b"strlen") {
        Some(Native::Table(Builtin::StrLen))
    } else if is(name, b"intdiv") {
        Some(Native::Table(Builtin::IntDiv))
    } else if is(name, b"substr") {
        Some(Native::Table(Builtin::SubStr))
    } else if is(name, b"is_int") {
        Some(Native::Table(Builtin::IsInt))
    } else if is(name, b"define") {
        Some(Native::Define)
    } else {
        None
    }
}

/// The built-in function of this name, of those whose names have seven letters.
fn of_seven(name: &[u8]) -> Option<Native>
    ensures { result ≡ spec.look_up name.now (sized 7) }
{
    if is(name, b"implode") {
        Some(Native::Table(Builtin::Implode))
    } else if is(name, b"is_bool") {
        Some(Native::Table(Builtin::IsBool))
    } else if is(name, b"is_null") {
        Some(Native::Table(Builtin::IsNull))
    } else if is(name, b"defined") {
        Some(Native::Defined)
    } else {
        None
    }
}

/// The built-in function of this name, of those whose names have eight letters.
fn of_eight(name: &[u8]) -> Option<Native>
    ensures { result ≡ spec.look_up name.now (sized 8) }
{
    if is(name, b"is_array") {
        Some(Native::Table(Builtin::IsArray))
    } else {
        None
    }
}

/// The built-in function of this name, of those whose names have nine letters.
fn of_nine(name: &[u8]) -> Option<Native>
    ensures { result ≡ spec.look_up name.now (sized 9) }
{
    if is(name, b"is_string") {
        Some(Native::Table(Builtin::IsString))
    } else {
        None
    }
}

/// The built-in function of this name, of those whose names have ten letters.
fn of_ten(name: &[u8]) -> Option<Native>
    ensures { result ≡ spec.look_up name.now (sized 10) }
{
    if is(name, b"array_keys") {
        Some(Native::Table(Builtin::ArrayKeys))
    } else if is(name, b"str_repeat") {
        Some(Native::Table(Builtin::StrRepeat))
    } else {
        None
    }
}

/// The built-in function of this name, of those whose names have twelve letters.
fn of_twelve(name: &[u8]) -> Option<Native>
    ensures { result ≡ spec.look_up name.now (sized 12) }
{
    if is(name, b"array_values") {
        Some(Native::Table(Builtin::ArrayValues))
    } else {
        None
    }
}
