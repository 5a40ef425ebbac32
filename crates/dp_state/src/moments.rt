//! The moments of a run, its end, and paths to what stands in variables.

use dp_bytes::{Bytes, Items};
use dp_value::Key;

/// What comes at a moment.
#[derive(Clone, Copy, Debug, PartialEq, Eq)]
pub enum MomentKind {
    /// A statement or a test is about to be evaluated.
    Place,
    /// A function was entered, and its parameters are set.
    Enter,
    /// A function is about to be left.
    Leave,
}

/// A moment of a run: its number, from 1, its place, and how many frames there are. `function` is the name as declared
/// of the function that is entered or left, and nothing at a place.
#[derive(Debug, Drop)]
pub struct Moment {
    pub number: u64,
    pub kind: MomentKind,
    pub file: u32,
    pub line: u32,
    pub depth: u32,
    pub function: Option<Bytes>,
}

/// Why a program could not go on.
#[derive(Clone, Copy, Debug, PartialEq, Eq)]
pub enum FatalKind {
    /// An integer that does not fit 64 bits.
    Overflow,
    /// A division by zero.
    DivByZero,
    /// An index that is no key: an array.
    BadKey,
    /// A push behind the greatest key that there is.
    NextIndex,
    /// Operands, arguments or indices of types for which the language has no answer.
    Unsupported,
    /// A value that weighs more than a value may.
    TooHeavy,
    /// A call of a function that is not declared.
    NoFunction,
    /// Too few or too many arguments, or one that is out of its range.
    Arguments,
    /// A function that is declared already.
    Redeclared,
    /// More frames than [`FRAME_LIMIT`](crate::FRAME_LIMIT).
    TooDeep,
    /// A required file that the program does not have.
    NoFile,
    /// An entry that is written into, or taken from, true or an integer.
    Scalar,
    /// More output than [`OUTPUT_LIMIT`](crate::OUTPUT_LIMIT).
    OutputFull,
    /// A constant that is not there.
    NoConstant,
}

/// How a run ended.
#[derive(Clone, Copy, Debug, PartialEq, Eq)]
pub enum Outcome {
    Done,
    Exit(u8),
    /// In this file, on this line.
    Fatal {
        kind: FatalKind,
        file: u32,
        line: u32,
    },
    /// A further moment would have passed the bound.
    Bound,
}

/// A place of a value: a variable, or an entry of it under keys, the outermost first.
#[derive(Debug, Drop)]
pub struct Path {
    pub name: Bytes,
    pub keys: Items<Key>,
}
