//! Packets as typed values.
use crate::property::Property;
use dp_bytes::{Bytes, Items};

/// What an engine or a proxy sends.
#[derive(Debug, Drop)]
pub enum Packet {
    Init(Init),
    Response(Response),
    /// Output of the program.
    Stream(Bytes),
    Notify(Notify),
    Proxy(ProxyReply),
}

/// The first packet of a session: the user's key, and the file that runs.
#[derive(Debug, Drop)]
pub struct Init {
    pub idekey: Bytes,
    pub fileuri: Bytes,
}

/// The answer to the command with this transaction id: the attributes of its own, and its body.
#[derive(Debug, Drop)]
pub struct Response {
    pub command: Bytes,
    pub id: Bytes,
    pub attributes: Items<(Bytes, Bytes)>,
    pub body: Body,
}

/// What stands in a response.
#[derive(Debug, Drop)]
pub enum Body {
    Nothing,
    Plain(Bytes),
    /// The code of an error.
    Fault(u16),
    Stacks(Items<StackLine>),
    /// Names and ids.
    Contexts(Items<(Bytes, u32)>),
    Properties(Items<Property>),
    Breakpoints(Items<BreakLine>),
}

/// A frame of the stack; level 0 is the innermost. Lines count from 1.
#[derive(Debug, Drop)]
pub struct StackLine {
    pub level: u32,
    pub uri: Bytes,
    pub line: u32,
    /// The attribute `where`: `{main}`, `include` or the name of the function.
    pub place: Bytes,
}

/// What makes a breakpoint stop.
#[derive(Debug, Clone, Copy)]
pub enum BreakKind {
    Line,
    Call,
    Return,
    Conditional,
}

/// How the number of hits is compared with the hit value.
#[derive(Debug, Clone, Copy)]
pub enum HitRule {
    AtLeast,
    Exactly,
    Multiple,
}

/// A breakpoint as it is listed.
#[derive(Debug, Drop)]
pub struct BreakLine {
    pub id: u32,
    pub kind: BreakKind,
    pub enabled: bool,
    pub uri: Option<Bytes>,
    pub line: Option<u32>,
    pub function: Option<Bytes>,
    pub hits: u64,
    pub hit_value: u32,
    pub hit_rule: HitRule,
    pub temporary: bool,
    /// Whether its line was set by an IDE that lets the engine move it to the next line that has code.
    pub resolved: bool,
    pub expression: Option<Bytes>,
}

/// News that no command asked for.
#[derive(Debug, Drop)]
pub struct Notify {
    pub name: Bytes,
    pub breakpoint: Option<BreakLine>,
}

/// What a proxy answers to an IDE.
#[derive(Debug, Drop)]
pub enum ProxyReply {
    /// The key is held for the IDE at this address.
    Started { key: Bytes, host: Bytes, port: u16 },
    Stopped { key: Bytes },
    /// Why it was refused, a number from 1 to 5, and whether it was asked to stop.
    Refused { stopping: bool, id: u8 },
}
