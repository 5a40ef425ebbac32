//! The table of commands: which options each has, and whether a payload.

ghost use Rattle.std.specs.Prelude.{◌≡◌};
ghost use Rattle.dp_command.specs.Table.{slots_of, payload_of};

use crate::names::CommandName;

/// What the value of an option may be.
#[derive(Clone, Copy, Debug)]
pub(crate) enum Kind {
    /// Any bytes.
    Text,
    /// A decimal of at most 2,147,483,647.
    Number,
    /// `0`, `1` or `2`.
    Mode,
}

/// An option that a command has: its letter, and what its value may be.
#[derive(Clone, Copy, Debug)]
pub(crate) enum Slot {
    Required(u8, Kind),
    Optional(u8, Kind),
}

/// Whether a payload stands in a command.
#[derive(Clone, Copy, Debug)]
pub(crate) enum Presence {
    Never,
    Optional,
    Required,
}

const LEVEL: Slot = Slot::Optional(b'd', Kind::Number);

const CONTEXT: Slot = Slot::Optional(b'c', Kind::Number);

const NAME: Slot = Slot::Required(b'n', Kind::Text);

const BREAKPOINT: Slot = Slot::Required(b'd', Kind::Number);

const MODE: Slot = Slot::Required(b'c', Kind::Mode);

const BREAKPOINT_SET: [Slot; 9] = [
    Slot::Required(b't', Kind::Text),
    Slot::Optional(b's', Kind::Text),
    Slot::Optional(b'f', Kind::Text),
    Slot::Optional(b'n', Kind::Text),
    Slot::Optional(b'm', Kind::Text),
    Slot::Optional(b'x', Kind::Text),
    Slot::Optional(b'h', Kind::Number),
    Slot::Optional(b'o', Kind::Text),
    Slot::Optional(b'r', Kind::Text),
];

const BREAKPOINT_UPDATE: [Slot; 5] = [
    BREAKPOINT,
    Slot::Optional(b's', Kind::Text),
    Slot::Optional(b'n', Kind::Number),
    Slot::Optional(b'h', Kind::Number),
    Slot::Optional(b'o', Kind::Text),
];

const PROPERTY_GET: [Slot; 5] = [
    NAME,
    LEVEL,
    CONTEXT,
    Slot::Optional(b'p', Kind::Number),
    Slot::Optional(b'm', Kind::Number),
];

const PROPERTY_VALUE: [Slot; 4] = [NAME, LEVEL, CONTEXT, Slot::Optional(b'm', Kind::Number)];

const PROPERTY_SET: [Slot; 5] = [
    NAME,
    LEVEL,
    CONTEXT,
    Slot::Optional(b't', Kind::Text),
    Slot::Optional(b'l', Kind::Number),
];

const SOURCE: [Slot; 3] = [
    Slot::Optional(b'f', Kind::Text),
    Slot::Optional(b'b', Kind::Number),
    Slot::Optional(b'e', Kind::Number),
];

/// The options that a command has besides `-i`.
#[tactic(auto, unfolding(crate::specs::Table::slots_of))]
pub(crate) fn slots_of(name: CommandName) -> &'static [Slot]
    ensures { result.now ≡ slots_of name }
{
    match name {
        CommandName::FeatureGet => &[NAME],
        CommandName::FeatureSet => &[NAME, Slot::Required(b'v', Kind::Text)],
        CommandName::BreakpointSet => &BREAKPOINT_SET,
        CommandName::BreakpointGet | CommandName::BreakpointRemove => &[BREAKPOINT],
        CommandName::BreakpointUpdate => &BREAKPOINT_UPDATE,
        CommandName::StackGet | CommandName::ContextNames => &[LEVEL],
        CommandName::ContextGet => &[LEVEL, CONTEXT],
        CommandName::PropertyGet => &PROPERTY_GET,
        CommandName::PropertyValue => &PROPERTY_VALUE,
        CommandName::PropertySet => &PROPERTY_SET,
        CommandName::Source => &SOURCE,
        CommandName::Stdout | CommandName::Stderr => &[MODE],
        _ => &[],
    }
}

/// Whether a command has a payload.
#[tactic(auto, unfolding(crate::specs::Table::payload_of))]
pub(crate) fn payload_of(name: CommandName) -> Presence
    ensures { result ≡ payload_of name }
{
    match name {
        CommandName::BreakpointSet => Presence::Optional,
        CommandName::PropertySet | CommandName::Eval => Presence::Required,
        _ => Presence::Never,
    }
}
