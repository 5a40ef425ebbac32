//! The breakpoint that a breakpoint_set command asks for.

ghost use Rattle.std.specs.Prelude.{◌≡◌, ◌<◌, ◌≤◌, Err, None, false, length, IfErr, IfOk, IfSome, OnOk};
ghost use Rattle.std.specs.Option.{option_map_or};
ghost use Rattle.dp_break.specs.Requests as spec;
ghost use Rattle.dp_break.specs.Causes.{IsCause, IsCode};
ghost use Rattle.dp_break.specs.inner.Meant as inner;
ghost use Rattle.dp_command.specs.Tests.{first_code};
ghost use Rattle.dp_file_uris.specs.Files.{is_uri, requested_file as named_file};
ghost use Rattle.dp_break.specs.Words.{meant};
ghost use Rattle.dp_break.specs.Changes.{IsRequest};

use crate::breakpoint::BreakRequest;
use crate::errors::BreakError;
use crate::hits::is_of_function;
use crate::words::{flag_given, kind_named, number_given, rule_given, state_given};
use dp_bytes::Bytes;
use dp_command::BreakpointSet;
use dp_file_uris::requested_file;
use dp_packet::{BreakKind, ErrorCode, HitRule};
use dp_tree::Bundle;
use std::alloc::Global;

/// What the words of a breakpoint_set command mean.
#[derive(Clone, Copy, Debug)]
struct Words {
    kind: BreakKind,
    line: Option<u32>,
    hit_rule: Option<HitRule>,
    temporary: Option<bool>,
    enabled: Option<bool>,
}

/// Whether a part is missing that a breakpoint of this kind must have.
fn lacks_part(kind: BreakKind, set: &BreakpointSet) -> bool
    ensures { result ≡ spec.lacks_part kind set.now }
{
    match kind {
        BreakKind::Line => set.line.is_none(),
        BreakKind::Call | BreakKind::Return => set.function.is_none(),
        BreakKind::Conditional => set.expression.is_none(),
    }
}

/// Whether a function has a line, a line has a function, or there is an exception.
fn has_part_too_many(kind: BreakKind, set: &BreakpointSet) -> bool
    ensures { result ≡ spec.has_part_too_many kind set.now }
{
    let other = if is_of_function(kind) {
        set.line.is_some()
    } else {
        set.function.is_some()
    };
    other || set.exception.is_some()
}

impl Words {
    /// The words of a command, or the code of its first refusal but that of the file: 201, 3 or 204. Takes no memory.
    #[tactic(auto, unfolding(crate::specs::Requests::word_tests))]
    fn of(set: &BreakpointSet) -> Result<Words, BreakError>
        ensures words { IfOk result (λ words. words ≡ inner.words set.now) }
        ensures accepted { OnOk result (first_code (spec.word_tests set.now) ≡ None) }
        ensures refused { IfErr result (IsCode (first_code (spec.word_tests set.now))) }
    {
        let Some(kind) = kind_named(set.kind.as_slice()) else {
            return Err(BreakError::Code(ErrorCode::TypeNotSupported));
        };
        if lacks_part(kind, set) || has_part_too_many(kind, set) {
            return Err(BreakError::Code(ErrorCode::InvalidOptions));
        }
        Ok(Words {
            kind,
            line: number_given(&set.line)?,
            hit_rule: rule_given(&set.hit_rule)?,
            temporary: flag_given(&set.temporary)?,
            enabled: state_given(&set.state)?,
        })
    }
}

/// The number of the file that `-f` names, where it is given. One that the bundle does not have is refused with code
/// 200.
#[tactic(auto, unfolding(crate::specs::Words::has_no_meaning))]
fn file_given(
    alloc: Global,
    bundle: &Bundle,
    value: &Option<Bytes>,
) -> Result<Option<u32>, BreakError>
    ensures file { IfOk result (λ file. file ≡ meant (named_file bundle.now) value.now) }
    ensures found { OnOk result (first_code (spec.file_tests bundle.now value.now) ≡ None) }
    ensures refused { IfErr result (IsCause (first_code (spec.file_tests bundle.now value.now))) }
    // Memory is taken only to decode a URI.
    ensures memory { option_map_or is_uri value.now false ≡ false → length bundle.now.files ≤ u32.MAX
        → IfErr result (IsCode (first_code (spec.file_tests bundle.now value.now))) }
{
    match value {
        None => Ok(None),
        Some(value) => match requested_file(alloc, bundle, value.as_slice())? {
            None => Err(BreakError::Code(ErrorCode::BreakpointNotSet)),
            file => Ok(file),
        },
    }
}

/// The request in words of this meaning, of the file of this number.
fn request_in(words: Words, file: u32, set: BreakpointSet) -> BreakRequest
    ensures { words ≡ inner.words set → result ≡ spec.request_in file set }
{
    BreakRequest {
        kind: words.kind,
        enabled: words.enabled.unwrap_or(true),
        file,
        line: words.line,
        anyfile: is_of_function(words.kind) && set.file.is_none(),
        function: set.function,
        hit_value: set.hit_value,
        hit_rule: words.hit_rule.unwrap_or(HitRule::AtLeast),
        temporary: words.temporary.unwrap_or(false),
        expression: set.expression,
    }
}

/// The breakpoint that a breakpoint_set command asks for, where the file of the current moment is `here`. DBGp 1.0,
/// "breakpoint_set".
///
/// It is refused with the first of the codes 201, 3, 204 and 200 whose test holds; that a breakpoint cannot be held,
/// and the codes 202, 203 and 207, are not tested here. A missing `-f` is the file of the moment, but for a call or
/// return breakpoint, which is then for the functions of any file. The other defaults are enabled, `>=`, 0 for the hit
/// value, and not temporary.
#[tactic(auto, using(crate::proofs::RequestTests::refusing))]
pub fn breakpoint_request(
    alloc: Global,
    bundle: &Bundle,
    here: u32,
    set: BreakpointSet,
) -> Result<BreakRequest, BreakError>
    ensures request { IfOk result (λ r. r ≡ spec.request bundle.now here set) }
    ensures accepted { OnOk result (spec.refusal bundle.now set ≡ None) }
    ensures refused { IfErr result (IsCause (spec.refusal bundle.now set)) }
    // Only the test of the file takes memory, and only to decode a URI.
    ensures surely { IfSome (first_code (spec.word_tests set)) (λ code. result ≡ Err (BreakError.Code code)) }
    ensures memory { option_map_or is_uri set.file false ≡ false → length bundle.now.files ≤ u32.MAX
        → IfErr result (IsCode (spec.refusal bundle.now set)) }
    // What is accepted can be asked of breakpoints.
    ensures sound { IfOk result (λ r. here < length bundle.now.files → IsRequest bundle.now r) }
{
    let words = Words::of(&set)?;
    let file = file_given(alloc, bundle, &set.file)?;
    Ok(request_in(words, file.unwrap_or(here), set))
}
