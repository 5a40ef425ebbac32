//! Which functions of a program are loud, found walk by walk.

ghost use Rattle.std.specs.Prelude.{◌≡◌, ◌||◌, ◌&&◌, ℕ, List, IfOk, OnOk};
ghost use Rattle.std.specs.List.{list_any};
ghost use Rattle.std.specs.Option.{option_copied};
ghost use Rattle.std.specs.Str.{str_eq_ignore_ascii_case};
ghost use Rattle.dp_analysis.specs.Quiet.{any_function};
ghost use Rattle.dp_analysis.specs.Quiet as quiet;
ghost use Rattle.dp_analysis.specs.Still.{is_named};
ghost use Rattle.dp_analysis.specs.inner.Parts as parts;

use crate::names::DeepNames;
use crate::quiet::all_quiet;
use dp_bytes::Memory;
use dp_tree::{Bundle, Function};
use std::alloc::Global;

/// How many calls of functions of the program, each within the one before, are at most run whole.
const MOST_CALLS: u32 = 8;

/// The names of the functions that may come to a moment on one of these lines, to an include, or to more than 8 calls,
/// each within the one before, their own among them. Which function a name calls is known only at the run, so a name is
/// there where one of the functions of that name is such a one, in any file. Walks over the functions of the program 9
/// times at most, and no more once a walk kept all names.
pub fn loud_names<'p>(
    alloc: Global,
    lines: &[u32],
    bundle: &'p Bundle,
) -> Result<DeepNames<'p>, Memory>
    ensures { IfOk result (λ loud. (name : List ℕ)
        → is_named loud name ≡ quiet.is_loud lines.now bundle.now quiet.most_calls name) }
{
    let mut loud = names_that_stay(alloc, lines, bundle, None)?;
    for walk in 0..MOST_CALLS {
        let fewer = names_that_stay(alloc, lines, bundle, Some(&loud))?;
        if fewer.is_same(&loud) {
            return Ok(loud);
        }
        loud = fewer;
    }
    Ok(loud)
}

/// The names of all functions, or of those that are not quiet where calls of these names are loud.
fn names_that_stay<'p>(
    alloc: Global,
    lines: &[u32],
    bundle: &'p Bundle,
    before: Option<&DeepNames<'p>>,
) -> Result<DeepNames<'p>, Memory>
    ensures { IfOk result (λ names. (name : List ℕ) → is_named names name
        ≡ any_function (parts.stays lines.now (option_copied before.entry)) bundle.now name) }
{
    let mut names = DeepNames::new(alloc);
    let files = bundle.files.as_slice();
    for file in files {
        add_those(lines, file.tree.functions.as_slice(), before, &mut names)?;
    }
    Ok(names)
}

/// Puts the names of those of these functions that stay.
fn add_those<'p>(
    lines: &[u32],
    functions: &'p [Function],
    before: Option<&DeepNames<'p>>,
    names: &mut DeepNames<'p>,
) -> Result<(), Memory>
    ensures { OnOk result ((name : List ℕ) → is_named names.new name
        ≡ (is_named names.old name || list_any (λ f. parts.stays lines.now (option_copied before.entry) f
        && str_eq_ignore_ascii_case f.name name) functions.now)) }
{
    for function in functions {
        if stays(lines, before, function) {
            names.add(function)?;
        }
    }
    Ok(())
}

/// Whether a function stays: at first each does, and then one whose body is not quiet where calls of these names are
/// loud.
fn stays<'p>(lines: &[u32], before: Option<&DeepNames<'p>>, function: &'p Function) -> bool
    ensures { result ≡ parts.stays lines.now (option_copied before.entry) function.now }
{
    match before {
        Some(loud) => !all_quiet(lines, Some(loud), function.body.as_slice()),
        None => true,
    }
}
