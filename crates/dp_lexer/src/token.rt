//! Tokens, with their places.

use crate::spelling::Spelling;

/// A token that carries nothing: a keyword, in whatever case it was written, or an operator.
#[derive(Clone, Copy, Debug, PartialEq, Eq)]
pub enum Word {
    Array,
    As,
    Break,
    Continue,
    Die,
    Do,
    Echo,
    Else,
    ElseIf,
    Exit,
    False,
    For,
    Foreach,
    Function,
    Global,
    If,
    Include,
    Isset,
    Null,
    Require,
    Return,
    True,
    Unset,
    While,

    /// `===`
    Identical,
    /// `!==`
    NotIdentical,
    /// `<=>`
    Spaceship,
    /// `??=`
    CoalesceAssign,
    /// `==`
    Equal,
    /// `!=`
    NotEqual,
    /// `<=`
    LessOrEqual,
    /// `>=`
    GreaterOrEqual,
    /// `&&`
    BothOf,
    /// `||`
    EitherOf,
    /// `??`
    Coalesce,
    /// `++`
    Increment,
    /// `--`
    Decrement,
    /// `+=`
    AddAssign,
    /// `-=`
    SubtractAssign,
    /// `*=`
    MultiplyAssign,
    /// `.=`
    ConcatAssign,
    /// `%=`
    RemainderAssign,
    /// `=>`
    Arrow,
    /// `=`
    Assign,
    /// `<`
    Less,
    /// `>`
    Greater,
    /// `+`
    Plus,
    /// `-`
    Minus,
    /// `*`
    Star,
    /// `%`
    Percent,
    /// `.`
    Dot,
    /// `!`
    Bang,
    /// `?`
    Question,
    /// `:`
    Colon,
    /// `,`
    Comma,
    /// `;`
    Semicolon,
    /// `(`
    OpenParenthesis,
    /// `)`
    CloseParenthesis,
    /// `[`
    OpenBracket,
    /// `]`
    CloseBracket,
    /// `{`
    OpenBrace,
    /// `}`
    CloseBrace,
}

/// What a token is: a variable (by its name without the `$`), a name as written, a number, the bytes that a quoted text
/// stands for, or a token that carries nothing.
#[derive(Debug, Drop)]
pub enum TokenKind {
    Variable(Spelling),
    Name(Spelling),
    Number(i64),
    Text(Spelling),
    Word(Word),
}

/// A token: what it is, the offsets of its first byte and of the byte behind its last one, and the line on which it
/// begins, from 1.
#[derive(Debug, Drop)]
pub struct Token {
    pub kind: TokenKind,
    pub start: u32,
    pub end: u32,
    pub line: u32,
}
