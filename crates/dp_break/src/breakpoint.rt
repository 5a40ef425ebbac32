//! Breakpoints, and what is asked of them.

use dp_bytes::Bytes;
use dp_packet::{BreakKind, HitRule};
use dp_tree::Expression;

/// A breakpoint that is asked for. Files are named by their numbers in the bundle, lines count from 1.
#[derive(Debug, Drop)]
pub struct BreakRequest {
    pub kind: BreakKind,
    pub enabled: bool,
    pub file: u32,
    /// The line of a line breakpoint. A conditional one without a line is for every line of its file.
    pub line: Option<u32>,
    /// The function of a call or return breakpoint, in any case of letters.
    pub function: Option<Bytes>,
    /// Whether the function may be of any file.
    pub anyfile: bool,
    pub hit_value: u32,
    pub hit_rule: HitRule,
    pub temporary: bool,
    /// An expression that changes nothing: only where it is true the breakpoint hits.
    pub expression: Option<Bytes>,
}

/// What is asked to be changed of a breakpoint.
#[derive(Clone, Copy, Debug)]
pub struct BreakChange {
    pub enabled: Option<bool>,
    pub line: Option<u32>,
    pub hit_value: Option<u32>,
    pub hit_rule: Option<HitRule>,
}

/// A breakpoint that is held. One without a file is for the functions of any file. `hits` is how often it has hit; at
/// the end of its type it stands still. `resolved` says that it has a line, and that this was last set where it may
/// move to the next line that has code. `parsed` is the tree of `expression`.
#[derive(Debug, Drop)]
pub struct Breakpoint {
    pub id: u32,
    pub kind: BreakKind,
    pub enabled: bool,
    pub file: Option<u32>,
    pub line: Option<u32>,
    pub function: Option<Bytes>,
    pub hits: u64,
    pub hit_value: u32,
    pub hit_rule: HitRule,
    pub temporary: bool,
    pub resolved: bool,
    pub expression: Option<Bytes>,
    pub parsed: Option<Expression>,
}

impl Breakpoint {
    ghost use Rattle.std.specs.Prelude.{◌≡◌};
    ghost use Rattle.dp_break.specs.Changes.{changed_to};

    /// Changes what is given; the line becomes this one, which is kept of it. Takes no memory.
    pub(crate) fn change(&mut self, change: BreakChange, line: Option<u32>, resolve: bool)
        ensures { self.new ≡ changed_to change line resolve self.old }
    {
        if let Some(enabled) = change.enabled {
            self.enabled = enabled;
        }
        if let Some(line) = line {
            self.line = Some(line);
            self.resolved = resolve;
        }
        if let Some(value) = change.hit_value {
            self.hit_value = value;
        }
        if let Some(rule) = change.hit_rule {
            self.hit_rule = rule;
        }
    }
}
