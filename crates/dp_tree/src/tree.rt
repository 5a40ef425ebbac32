//! The trees of programs. A chain of operators or of indices is one node with a list, so no tree is deeper than the
//! nesting of its text allows.

use crate::boxed::Boxed;
use crate::operators::{BinaryOp, UnaryOp};
use dp_bytes::{Bytes, Items, Text};

/// A file: its statements and its functions, each in their order, and how many lines it has (one more than its line
/// feeds).
#[derive(Debug, Drop)]
pub struct File {
    pub body: Items<Statement>,
    pub functions: Items<Function>,
    pub lines: u32,
}

/// A function of a file, with the line of its `function` and its name as written.
#[derive(Debug, Drop)]
pub struct Function {
    pub line: u32,
    pub name: Bytes,
    pub parameters: Items<Bytes>,
    pub body: Items<Statement>,
}

/// A statement, with the line of its first token.
#[cycle(statement)]
#[derive(Debug, Drop)]
pub struct Statement {
    pub line: u32,
    pub kind: StatementKind,
}

/// What a statement does.
#[cycle(statement)]
#[derive(Debug, Drop)]
pub enum StatementKind {
    Expression(Expression),
    Echo(Items<Expression>),
    Block(Items<Statement>),
    Empty,
    If {
        arms: Items<Arm>,
        otherwise: Option<Boxed<Statement>>,
    },
    While {
        test: Expression,
        body: Boxed<Statement>,
    },
    /// `line` is that of the `while` behind the body.
    DoWhile {
        body: Boxed<Statement>,
        line: u32,
        test: Expression,
    },
    For {
        before: Items<Expression>,
        tests: Items<Expression>,
        after: Items<Expression>,
        body: Boxed<Statement>,
    },
    Foreach {
        subject: Expression,
        binding: Binding,
        body: Boxed<Statement>,
    },
    /// Out of so many loops, 1 at least.
    Break(u32),
    /// On with the loop of this number, counted from the innermost, 1.
    Continue(u32),
    Return(Option<Expression>),
    Global(Items<Bytes>),
    Unset(Items<Place>),
    /// `const`
    Constants(Items<Definition>),
    Exit(Option<Expression>),
}

/// One test of an `if`, with the line of its `if`, `elseif` or `else if`, and what is done where it holds.
#[cycle(statement)]
#[derive(Debug, Drop)]
pub struct Arm {
    pub line: u32,
    pub test: Expression,
    pub body: Statement,
}

/// The variables that a `foreach` binds.
#[derive(Debug, Drop)]
pub struct Binding {
    pub key: Option<Bytes>,
    pub value: Bytes,
}

/// A constant that a `const` defines: its name, and its value.
#[derive(Debug, Drop)]
pub struct Definition {
    pub name: Bytes,
    pub value: Expression,
}

/// What can be assigned to: a variable, or an entry of it under indices. The name is without its `$`.
#[cycle(expression)]
#[derive(Debug, Drop)]
pub struct Place {
    pub name: Bytes,
    pub indices: Items<Expression>,
}

/// An item of an array literal.
#[cycle(expression)]
#[derive(Debug, Drop)]
pub struct Item {
    pub key: Option<Expression>,
    pub value: Expression,
}

/// An operator that joins operands from left to right.
#[derive(Clone, Copy, Debug, PartialEq, Eq)]
pub enum Operator {
    Or,
    And,
    Of(BinaryOp),
}

/// An operator and its right operand.
#[cycle(expression)]
#[derive(Debug, Drop)]
pub struct Link {
    pub operator: Operator,
    pub operand: Expression,
}

/// Whether the value of a `++` or `--` is that after the step or that before it.
#[derive(Clone, Copy, Debug, PartialEq, Eq)]
pub enum Order {
    /// `++$a`
    StepFirst,
    /// `$a++`
    ValueFirst,
}

/// What happens where a file that is included is missing.
#[derive(Clone, Copy, Debug, PartialEq, Eq)]
pub enum Inclusion {
    Include,
    Require,
}

/// An expression.
#[cycle(expression)]
#[derive(Debug, Drop)]
pub enum Expression {
    Null,
    Bool(bool),
    Number(i64),
    Text(Text),
    Variable(Bytes),
    Constant(Bytes),
    Array(Items<Item>),
    /// A call: the name as written, and the arguments.
    Call(Bytes, Items<Expression>),
    Isset(Items<Place>),
    /// An operand under one index or more, the outermost first.
    Index(Boxed<Expression>, Items<Expression>),
    /// `!`, `-` or `+`.
    Unary(UnaryOp, Boxed<Expression>),
    /// `++` or `--`.
    Step(UnaryOp, Order, Place),
    /// Operands of one rank, joined from left to right by one operator or more.
    Chain(Boxed<Expression>, Items<Link>),
    Coalesce(Boxed<Expression>, Boxed<Expression>),
    /// `a ? b : c`, or `a ?: c`.
    Conditional(Boxed<Expression>, Option<Boxed<Expression>>, Boxed<Expression>),
    Include(Inclusion, Boxed<Expression>),
    Assign(Place, Boxed<Expression>),
    /// `+=`, `-=`, `*=`, `.=` or `%=`.
    Compound(BinaryOp, Place, Boxed<Expression>),
    CoalesceAssign(Place, Boxed<Expression>),
    /// `place[] = expression`.
    Push(Place, Boxed<Expression>),
}
