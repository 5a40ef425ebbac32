//! Typed commands.

use dp_bytes::Bytes;

/// A command, and the transaction id that its reply repeats.
#[derive(Debug, Drop)]
pub struct Command {
    /// What `-i` has: 1 to 64 bytes from 0x21 to 0x7e.
    pub id: Bytes,
    pub request: Request,
}

/// What a command asks for, by what answers it. Each row of the table of commands has its variant in
/// a family. An option that is tested against the program or the session is kept as it was given.
/// `Command::of` gives no number above 2,147,483,647.
#[derive(Debug, Drop)]
pub enum Request {
    /// Answered from what the session itself knows, and from where its program goes on to.
    Session(SessionRequest),
    /// Answered from the breakpoints that are held.
    Breakpoints(BreakpointRequest),
    /// A look at the program.
    Look(LookRequest),
    /// A write to the program.
    Write(WriteRequest),
}

/// What is asked of the session itself.
#[derive(Debug, Drop)]
pub enum SessionRequest {
    /// `status`
    Status,
    /// `feature_get`
    FeatureGet { name: Bytes },
    /// `feature_set`
    FeatureSet { name: Bytes, value: Bytes },
    /// `run`, `step_into`, `step_over`, `step_out`
    Continue(Continuation),
    /// `stop`, `detach`
    Finish(Finish),
    /// `stdout`, `stderr`
    Redirect { stream: Stream, mode: StreamMode },
}

/// What is asked of the breakpoints.
#[derive(Debug, Drop)]
pub enum BreakpointRequest {
    /// `breakpoint_set`
    Set(BreakpointSet),
    /// `breakpoint_get`, `breakpoint_remove`
    One { action: BreakpointAction, id: u32 },
    /// `breakpoint_update`
    Update(BreakpointUpdate),
    /// `breakpoint_list`
    List,
}

/// What is to be shown of the program.
#[derive(Debug, Drop)]
pub enum LookRequest {
    /// `stack_depth`
    StackDepth,
    /// `stack_get`, of this level alone where one is given.
    StackGet {
        level: Option<u32>,
    },
    /// `context_names`. Its level changes nothing and is not kept.
    ContextNames,
    /// `context_get`
    ContextGet {
        level: u32,
        context: u32,
    },
    /// `property_get`
    PropertyGet {
        place: PropertyPlace,
        page: u32,
        max_data: Option<u32>,
    },
    /// `property_value`
    PropertyValue {
        place: PropertyPlace,
        max_data: Option<u32>,
    },
    /// `source`
    Source(SourceRange),
}

/// What is to be written to the program.
#[derive(Debug, Drop)]
pub enum WriteRequest {
    /// `property_set`
    PropertySet(PropertySet),
    /// `eval`
    Eval { expression: Bytes },
}

/// How far the program runs on.
#[derive(Clone, Copy, Debug, PartialEq, Eq)]
pub enum Continuation {
    Run,
    StepInto,
    StepOver,
    StepOut,
}

/// How a session ends.
#[derive(Clone, Copy, Debug, PartialEq, Eq)]
pub enum Finish {
    Stop,
    Detach,
}

/// A breakpoint that is asked for. Its type, state, line, hit rule and flag are tested later.
#[derive(Debug, Drop)]
pub struct BreakpointSet {
    /// `-t`
    pub kind: Bytes,
    /// `-s`
    pub state: Option<Bytes>,
    /// `-f`
    pub file: Option<Bytes>,
    /// `-n`
    pub line: Option<Bytes>,
    /// `-m`
    pub function: Option<Bytes>,
    /// `-x`
    pub exception: Option<Bytes>,
    /// `-h`, 0 where it is missing.
    pub hit_value: u32,
    /// `-o`
    pub hit_rule: Option<Bytes>,
    /// `-r`
    pub temporary: Option<Bytes>,
    /// The payload.
    pub expression: Option<Bytes>,
}

/// What is done with a breakpoint.
#[derive(Clone, Copy, Debug, PartialEq, Eq)]
pub enum BreakpointAction {
    Get,
    Remove,
}

/// What is to change of a breakpoint. Its state and hit rule are tested later.
#[derive(Debug, Drop)]
pub struct BreakpointUpdate {
    /// `-d`
    pub id: u32,
    /// `-s`
    pub state: Option<Bytes>,
    /// `-n`
    pub line: Option<u32>,
    /// `-h`
    pub hit_value: Option<u32>,
    /// `-o`
    pub hit_rule: Option<Bytes>,
}

/// Where a property stands.
#[derive(Debug, Drop)]
pub struct PropertyPlace {
    /// `-n`
    pub name: Bytes,
    /// `-d`, 0 where it is missing.
    pub level: u32,
    /// `-c`, 0 where it is missing.
    pub context: u32,
}

/// A value for a property. Its type, and whether type, length and value agree, are tested later.
#[derive(Debug, Drop)]
pub struct PropertySet {
    pub place: PropertyPlace,
    /// `-t`
    pub kind: Option<Bytes>,
    /// `-l`
    pub length: Option<u32>,
    /// The payload.
    pub value: Bytes,
}

/// Lines of a file. Lines count from 1; that one is 0 is tested later.
#[derive(Debug, Drop)]
pub struct SourceRange {
    /// `-f`
    pub file: Option<Bytes>,
    /// `-b`
    pub first: Option<u32>,
    /// `-e`
    pub last: Option<u32>,
}

/// A stream of the program.
#[derive(Clone, Copy, Debug, PartialEq, Eq)]
pub enum Stream {
    Stdout,
    Stderr,
}

/// Where output goes.
#[derive(Clone, Copy, Debug, PartialEq, Eq)]
pub enum StreamMode {
    /// To the program's own output.
    Disable,
    /// There and to the IDE.
    Copy,
    /// To the IDE alone.
    Redirect,
}
