//! The names of operators and of built-in functions.

/// The operators between two values.
#[derive(Clone, Copy, Debug, PartialEq, Eq, Hash)]
pub enum BinaryOp {
    Add,
    Sub,
    Mul,
    Rem,
    Concat,
    Equal,
    NotEqual,
    Identical,
    NotIdentical,
    Less,
    LessEqual,
    Greater,
    GreaterEqual,
    Spaceship,
}

/// The operators on one value.
#[derive(Clone, Copy, Debug, PartialEq, Eq, Hash)]
pub enum UnaryOp {
    Not,
    Minus,
    Plus,
    Increment,
    Decrement,
}

/// The functions whose value their arguments alone tell, and which are there without a declaration.
#[derive(Clone, Copy, Debug, PartialEq, Eq, Hash)]
pub enum Builtin {
    StrLen,
    Ord,
    Count,
    ArrayKeys,
    ArrayValues,
    IntDiv,
    Chr,
    SubStr,
    StrRepeat,
    Implode,
    IsInt,
    IsString,
    IsBool,
    IsNull,
    IsArray,
}

/// The functions that are there without a declaration: those of a table, and those that ask for the constants of the
/// program.
#[derive(Clone, Copy, Debug, PartialEq, Eq, Hash)]
pub enum Native {
    Table(Builtin),
    /// Defines a constant.
    Define,
    /// Whether there is a constant.
    Defined,
}
