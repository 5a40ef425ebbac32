//! The state of a program that runs.

use crate::declarations::Declared;
use crate::moments::FatalKind;
use crate::vars::Vars;
use dp_bytes::Bytes;
use std::marker::Model;

/// What a frame is of.
#[derive(Debug, Drop)]
pub enum FrameKind {
    /// The main file.
    Main,
    /// A function, by its name as declared.
    Called(Bytes),
    /// An included file.
    Included,
}

/// A frame: what it is of, its file by its number in the bundle, its line, and its variables. One that shares uses the
/// variables of the frame below it, and those of the lowest frame are the global ones.
#[derive(Debug, Drop)]
pub struct Frame {
    pub kind: FrameKind,
    pub file: u32,
    pub line: u32,
    pub shares: bool,
    pub vars: Vars,
}

/// Frames, the lowest first. Contracts see the list of the frames.
///
/// With each of them is kept whose variables it uses, so that a look-up of a variable walks over no frames that share.
/// So many of those that are kept are on the stack. What stands behind them was taken off: a call uses it again.
#[derive(Debug, Drop)]
pub struct Frames {
    pub(crate) frames: Vec<Frame>,
    pub(crate) live: usize,
    pub(crate) owners: Vec<usize>,
}

impl Model for Frames {
    ghost use Rattle.std.specs.Prelude.{◌≡◌, ◌≤◌, List, length, take};
    ghost use Rattle.std.specs.Coded.{coded_list};
    ghost use Rattle.dp_state.specs.declared.state.Frame.{Frame as ProgramFrame};
    ghost use Rattle.dp_state.specs.contracts.state.Frame as frame;
    ghost use Rattle.dp_state.specs.inner.Owners.{owners_of};

    ghost Value = { List ProgramFrame };

    ghost coded = { coded_list frame.the_row.coded };

    ghost view = { λ f. take f.live f.frames.items };

    ghost invariant = { λ f. (f.live ≤ length f.frames.items)
        × (f.owners.items ≡ owners_of (take f.live f.frames.items)) };
}

/// A state of a program that runs: its frames, the lowest first, its global variables, the constants that it has
/// defined, in the order of their definition, the functions that are declared, what it has written, and how many
/// moments it has had.
#[derive(Debug, Drop)]
pub struct State {
    pub frames: Frames,
    pub globals: Vars,
    pub constants: Vars,
    pub declared: Declared,
    pub output: Bytes,
    pub moments: u64,
}

/// Why a step was not made.
#[derive(Clone, Copy, Debug, PartialEq, Eq)]
pub enum Fault {
    /// The program cannot go on.
    Fatal(FatalKind),
    /// Out of memory.
    Memory,
}
