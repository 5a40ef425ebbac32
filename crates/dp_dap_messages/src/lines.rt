//! The lines that the gateway sends to its session.

ghost use Rattle.std.specs.Prelude.{◌≡◌, ◌++◌, ◌∷◌, [], IfOk, OnOk, None, Some, codes, decimal, true};
ghost use Rattle.dp_command.specs.Canonical.{canonical};
ghost use Rattle.dp_command.specs.Names.{text_of};
ghost use Rattle.dp_wire.specs.Frames.{IsCommand, has_no_nul};
ghost use Rattle.dp_dap_messages.specs.Lines as spec;
ghost use Rattle.dp_dap_messages.specs.inner.Lettered.{AreLettered};

use dp_bytes::{Bytes, Items, Memory};
use dp_command::{CommandName, Continuation, Line, write_line};
use std::alloc::Global;

/// What a reference stands for: a context of a frame, or the entries of an array in it, by its full name.
#[derive(Debug, Drop)]
pub struct Place {
    pub level: u32,
    pub context: u32,
    pub name: Option<Bytes>,
}

/// A copy of a place.
pub fn copy(alloc: Global, place: &Place) -> Result<Place, Memory>
    ensures { IfOk result (λ copy. copy ≡ place.now) }
{
    let name = match &place.name {
        Some(name) => Some(Bytes::from_slice(alloc, name.as_slice())?),
        None => None,
    };
    Ok(Place {
        level: place.level,
        context: place.context,
        name,
    })
}

/// The options of a line, which begin with its id.
fn begin(alloc: Global) -> Result<Vec<(u8, Bytes)>, Memory>
    ensures { IfOk result (λ options. options.items ≡ (105, codes "1") ∷ []) }
{
    let mut options = Vec::new(alloc);
    put(alloc, &mut options, b'i', b"1")?;
    Ok(options)
}

/// Puts an option behind the others.
fn put(
    alloc: Global,
    options: &mut Vec<(u8, Bytes)>,
    letter: u8,
    value: &[u8],
) -> Result<(), Memory>
    ensures { OnOk result (options.new.items ≡ options.old.items ++ (letter, value.now) ∷ []) }
{
    let value = Bytes::from_slice(alloc, value)?;
    options.push((letter, value))?;
    Ok(())
}

/// Puts a number behind the other options.
fn put_number(
    alloc: Global,
    options: &mut Vec<(u8, Bytes)>,
    letter: u8,
    number: u32,
) -> Result<(), Memory>
    ensures { OnOk result (options.new.items ≡ options.old.items ++ (letter, decimal number) ∷ []) }
{
    let text = number.to_string(alloc)?;
    put(alloc, options, letter, text.as_bytes())
}

/// The canonical form of a line without a payload.
fn spell(alloc: Global, name: CommandName, options: Vec<(u8, Bytes)>) -> Result<Bytes, Memory>
    requires { AreLettered options.items }
    ensures text { IfOk result (λ text. text
        ≡ canonical (record { name = text_of name; options = options.items; payload = None })) }
    ensures no_nul { IfOk result (λ text. has_no_nul text ≡ true) }
{
    let name = Bytes::from_slice(alloc, name.text())?;
    let line = Line {
        name,
        options: Items::of(options),
        payload: None,
    };
    write_line(alloc, &line)
}

/// The canonical form of a line with a payload.
fn spell_with(
    alloc: Global,
    name: CommandName,
    options: Vec<(u8, Bytes)>,
    payload: &[u8],
) -> Result<Bytes, Memory>
    requires { AreLettered options.items }
    ensures text { IfOk result (λ text. text
        ≡ canonical (record { name = text_of name; options = options.items; payload = Some payload.now })) }
    ensures no_nul { IfOk result (λ text. has_no_nul text ≡ true) }
{
    let name = Bytes::from_slice(alloc, name.text())?;
    let copied = Bytes::from_slice(alloc, payload)?;
    let line = Line {
        name,
        options: Items::of(options),
        payload: Some(copied),
    };
    write_line(alloc, &line)
}

/// A command without options.
fn plain(alloc: Global, name: CommandName) -> Result<Bytes, Memory>
    ensures text { IfOk result (λ text. text ≡ canonical (spec.plain_line name)) }
    ensures sent { IfOk result IsCommand }
    ensures no_nul { IfOk result (λ text. has_no_nul text ≡ true) }
{
    let options = begin(alloc)?;
    spell(alloc, name, options)
}

/// The line that sets a feature so that arrays, or texts, are shown whole.
pub fn feature(alloc: Global, name: &[u8]) -> Result<Bytes, Memory>
    ensures { IfOk result (λ text. text ≡ canonical (spec.feature_line name.now)) }
{
    let options = feature_options(alloc, name)?;
    spell(alloc, CommandName::FeatureSet, options)
}

/// The options of a feature that is set.
fn feature_options(alloc: Global, name: &[u8]) -> Result<Vec<(u8, Bytes)>, Memory>
    ensures { IfOk result (λ options. options.items
        ≡ (105, codes "1") ∷ (110, name.now) ∷ (118, codes "1048576") ∷ []) }
{
    let mut options = begin(alloc)?;
    put(alloc, &mut options, b'n', name)?;
    put(alloc, &mut options, b'v', b"1048576")?;
    Ok(options)
}

/// The command that goes on so.
fn going_name(mode: Continuation) -> CommandName
    ensures { result ≡ spec.going_name mode }
{
    match mode {
        Continuation::Run => CommandName::Run,
        Continuation::StepInto => CommandName::StepInto,
        Continuation::StepOver => CommandName::StepOver,
        Continuation::StepOut => CommandName::StepOut,
    }
}

/// The line that goes on so.
pub fn going(alloc: Global, mode: Continuation) -> Result<Bytes, Memory>
    ensures text { IfOk result (λ text. text ≡ canonical (spec.going_line mode)) }
    ensures sent { IfOk result IsCommand }
{
    plain(alloc, going_name(mode))
}

/// The command that ends the session.
fn finish_name(detaches: bool) -> CommandName
    ensures { result ≡ spec.finish_name detaches }
{
    if detaches {
        CommandName::Detach
    } else {
        CommandName::Stop
    }
}

/// The line that ends the session; the program may run on by itself.
pub fn finish(alloc: Global, detaches: bool) -> Result<Bytes, Memory>
    ensures text { IfOk result (λ text. text ≡ canonical (spec.finish_line detaches)) }
    ensures sent { IfOk result IsCommand }
{
    plain(alloc, finish_name(detaches))
}

/// Puts the hit at which it stops, if that is asked for.
fn put_hits(alloc: Global, options: &mut Vec<(u8, Bytes)>, hits: Option<u32>) -> Result<(), Memory>
    ensures { OnOk result (options.new.items ≡ options.old.items ++ spec.hit_options hits) }
{
    match hits {
        Some(hits) => {
            put_number(alloc, options, b'h', hits)?;
            put(alloc, options, b'o', b"==")
        }
        None => Ok(()),
    }
}

/// The options of a breakpoint that is set.
fn set_options(
    alloc: Global,
    path: &[u8],
    line: u32,
    hits: Option<u32>,
) -> Result<Vec<(u8, Bytes)>, Memory>
    ensures { IfOk result (λ options. options.items ≡ (105, codes "1") ∷ (116, codes "line") ∷ (102, path.now)
        ∷ (110, decimal line) ∷ spec.hit_options hits) }
{
    let mut options = begin(alloc)?;
    put(alloc, &mut options, b't', b"line")?;
    put(alloc, &mut options, b'f', path)?;
    put_number(alloc, &mut options, b'n', line)?;
    put_hits(alloc, &mut options, hits)?;
    Ok(options)
}

/// The line that sets a breakpoint, which stops at the hit of this number alone if one is given.
pub fn set(
    alloc: Global,
    path: &[u8],
    line: u32,
    hits: Option<u32>,
    condition: &Option<Bytes>,
) -> Result<Bytes, Memory>
    ensures text { IfOk result (λ text. text ≡ canonical (spec.set_line path.now line hits condition.now)) }
    ensures no_nul { IfOk result (λ text. has_no_nul text ≡ true) }
{
    let options = set_options(alloc, path, line, hits)?;
    match condition {
        None => spell(alloc, CommandName::BreakpointSet, options),
        Some(condition) => {
            spell_with(
                alloc,
                CommandName::BreakpointSet,
                options,
                condition.as_slice(),
            )
        }
    }
}

/// The options of a line with `-d`.
fn numbered(alloc: Global, number: u32) -> Result<Vec<(u8, Bytes)>, Memory>
    ensures { IfOk result (λ options. options.items ≡ (105, codes "1") ∷ (100, decimal number) ∷ []) }
{
    let mut options = begin(alloc)?;
    put_number(alloc, &mut options, b'd', number)?;
    Ok(options)
}

/// The line that removes a breakpoint.
pub fn remove(alloc: Global, id: u32) -> Result<Bytes, Memory>
    ensures text { IfOk result (λ text. text ≡ canonical (spec.remove_line id)) }
    ensures sent { IfOk result IsCommand }
{
    let options = numbered(alloc, id)?;
    spell(alloc, CommandName::BreakpointRemove, options)
}

/// The line that asks for the whole stack.
pub fn stack(alloc: Global) -> Result<Bytes, Memory>
    ensures text { IfOk result (λ text. text ≡ canonical spec.stack_line) }
    ensures no_nul { IfOk result (λ text. has_no_nul text ≡ true) }
{
    plain(alloc, CommandName::StackGet)
}

/// The line that asks for one level of the stack.
pub fn frame(alloc: Global, level: u32) -> Result<Bytes, Memory>
    ensures text { IfOk result (λ text. text ≡ canonical (spec.frame_line level)) }
    ensures no_nul { IfOk result (λ text. has_no_nul text ≡ true) }
{
    let options = numbered(alloc, level)?;
    spell(alloc, CommandName::StackGet, options)
}

/// The line that asks for the contexts.
pub fn contexts(alloc: Global) -> Result<Bytes, Memory>
    ensures text { IfOk result (λ text. text ≡ canonical spec.contexts_line) }
    ensures no_nul { IfOk result (λ text. has_no_nul text ≡ true) }
{
    plain(alloc, CommandName::ContextNames)
}

/// The options that name a context.
fn context_options(alloc: Global, level: u32, context: u32) -> Result<Vec<(u8, Bytes)>, Memory>
    ensures { IfOk result (λ options. options.items
        ≡ (105, codes "1") ∷ (100, decimal level) ∷ (99, decimal context) ∷ []) }
{
    let mut options = begin(alloc)?;
    put_number(alloc, &mut options, b'd', level)?;
    put_number(alloc, &mut options, b'c', context)?;
    Ok(options)
}

/// Asks for the variables of a context.
fn variables(alloc: Global, place: &Place) -> Result<Bytes, Memory>
    ensures text { IfOk result (λ text. text ≡ canonical (spec.look_line None place.now)) }
    ensures no_nul { IfOk result (λ text. has_no_nul text ≡ true) }
{
    let options = context_options(alloc, place.level, place.context)?;
    spell(alloc, CommandName::ContextGet, options)
}

/// The options that name an array in a context.
fn entry_options(
    alloc: Global,
    name: &[u8],
    level: u32,
    context: u32,
) -> Result<Vec<(u8, Bytes)>, Memory>
    ensures { IfOk result (λ options. options.items
        ≡ (105, codes "1") ∷ (110, name.now) ∷ (100, decimal level) ∷ (99, decimal context) ∷ []) }
{
    let mut options = begin(alloc)?;
    put(alloc, &mut options, b'n', name)?;
    put_number(alloc, &mut options, b'd', level)?;
    put_number(alloc, &mut options, b'c', context)?;
    Ok(options)
}

/// Asks for the entries of an array.
fn entries(alloc: Global, name: &[u8], place: &Place) -> Result<Bytes, Memory>
    ensures text { IfOk result (λ text. text ≡ canonical (spec.look_line (Some name.now) place.now)) }
    ensures no_nul { IfOk result (λ text. has_no_nul text ≡ true) }
{
    let options = entry_options(alloc, name, place.level, place.context)?;
    spell(alloc, CommandName::PropertyGet, options)
}

/// The line that asks for the variables of a context, or the entries of an array.
pub fn look(alloc: Global, place: &Place) -> Result<Bytes, Memory>
    ensures text { IfOk result (λ text. text ≡ canonical (spec.place_line place.now)) }
    ensures no_nul { IfOk result (λ text. has_no_nul text ≡ true) }
{
    match &place.name {
        None => variables(alloc, place),
        Some(name) => entries(alloc, name.as_slice(), place),
    }
}

/// The line that evaluates an expression.
pub fn eval(alloc: Global, expression: &[u8]) -> Result<Bytes, Memory>
    ensures text { IfOk result (λ text. text ≡ canonical (spec.eval_line expression.now)) }
    ensures no_nul { IfOk result (λ text. has_no_nul text ≡ true) }
{
    let options = begin(alloc)?;
    spell_with(alloc, CommandName::Eval, options, expression)
}
