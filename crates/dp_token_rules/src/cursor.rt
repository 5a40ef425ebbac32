//! A cursor over tokens.

ghost use Rattle.std.specs.Prelude.{◌≡◌, ◌^◌, ◌<◌, drop, length, take, OnOk};
ghost use Rattle.dp_token_rules.specs.inner.Input as input;
ghost use Rattle.dp_token_rules.specs.inner.Input.{Reads, ReadsSlice, Surely};
ghost use Rattle.dp_token_rules.specs.Lines.{line_of};
ghost use Rattle.dp_token_rules.specs.Terminals as terminals;
ghost use Rattle.dp_token_rules.specs.Terminals.{head};
ghost use Rattle.dp_token_rules.specs.TokenValues as token_values;

use crate::terminal::{Terminal, is_superglobal, same_terminal, terminal_of};
use dp_bytes::{Bytes, Text};
use dp_grammar::Refusal;
use dp_lexer::{Token, TokenKind, is_reserved};
use std::alloc::Global;
use std::marker::Model;

/// The tokens that are still to be read. A call that reads takes its tokens off the front. Where it refuses, what is
/// left is open, so a reader whose call was refused refuses too. A token is sorted once, when it comes next.
#[derive(Drop)]
pub struct Tokens<'a> {
    rest: &'a [Token],
    next: Terminal,
}

impl<'a> Model for Tokens<'a> {
    ghost use Rattle.std.specs.Prelude.{◌≡◌, List};
    ghost use Rattle.dp_lexer.specs.declared.token.Token.{Token};
    ghost use Rattle.dp_token_rules.specs.Terminals.{head};

    ghost Value = { List Token };

    ghost view = { λ t. t.rest.now };

    ghost invariant = { λ t. t.next ≡ head t.rest.now };
}

/// What sort of token comes first.
fn first_terminal(tokens: &[Token]) -> Terminal
    ensures { result ≡ head tokens.now }
{
    match tokens {
        [] => Terminal::End,
        [first, ..] => terminal_of(&first.kind),
    }
}

impl<'a> Tokens<'a> {
    /// All of these tokens.
    pub fn new(rest: &'a [Token]) -> Tokens<'a>
        ensures { result ≡ rest.now }
    {
        let next = first_terminal(rest);
        Tokens { rest, next }
    }

    /// How many tokens are left.
    pub fn left(&self) -> usize
        ensures count { result ≡ length self.now }
        ensures small { result < 2 ^ 63 }
    {
        self.rest.len()
    }

    /// What sort of token comes next.
    pub fn peek(&self) -> Terminal
        ensures { result ≡ head self.now }
    {
        self.next
    }

    /// Whether a token of this sort comes next.
    pub fn sees(&self, terminal: Terminal) -> bool
        ensures { result ≡ terminals.is terminal (head self.now) }
    {
        same_terminal(self.next, terminal)
    }

    /// The line of the next token, or 0 at the end.
    pub fn line(&self) -> u32
        ensures { result ≡ line_of self.now }
    {
        match self.rest {
            [] => 0,
            [first, ..] => first.line,
        }
    }

    /// Takes a number from 1 to `most`. Like all that take, it refuses at the next token, or at the end.
    pub fn number_up_to(&mut self, most: u32) -> Result<u32, Refusal>
        ensures reads { Reads (input.kind (token_values.number_up_to most) self.old) result self.new }
        ensures surely { Surely (input.kind (token_values.number_up_to most) self.old) result }
    {
        match self.rest {
            [first, rest @ ..] => match &first.kind {
                TokenKind::Number(number) if 1 <= *number && *number <= most as i64 => {
                    *self = Tokens::new(rest);
                    Ok(*number as u32)
                }
                _ => Err(self.refuse()),
            },
            [] => Err(self.refuse()),
        }
    }

    /// The first of these tokens, at most so many.
    #[tactic(auto, using(std::proofs::lemmas::List::take_min))]
    pub fn front(&self, count: usize) -> Tokens<'a>
        ensures { result ≡ take count self.now }
    {
        let most = count.min(self.rest.len());
        Tokens::new(&self.rest[..most])
    }

    /// Takes so many tokens off the front, or all if there are fewer.
    #[tactic(auto, using(std::proofs::lemmas::List::drop_min))]
    pub fn skip(&mut self, count: usize)
        ensures { self.new ≡ drop count self.old }
    {
        let most = count.min(self.rest.len());
        *self = Tokens::new(&self.rest[most..]);
    }

    /// The refusal that names the next token, or the end.
    pub fn refuse(&self) -> Refusal
        ensures { result ≡ Refusal.Unexpected (length self.now) }
    {
        Refusal::Unexpected(self.rest.len())
    }

    /// Takes a token of this sort, for its line.
    pub fn mark(&mut self, terminal: Terminal) -> Result<u32, Refusal>
        ensures reads { Reads (input.mark terminal self.old) result self.new }
        ensures surely { Surely (input.mark terminal self.old) result }
    {
        match self.rest {
            [first, rest @ ..] if same_terminal(self.next, terminal) => {
                *self = Tokens::new(rest);
                Ok(first.line)
            }
            _ => Err(self.refuse()),
        }
    }

    /// Takes a variable that a program may name, by its name, without a copy.
    #[tactic(auto, unfolding(crate::specs::inner::Input::variable))]
    pub fn variable_name(&mut self) -> Result<&'a [u8], Refusal>
        ensures reads { ReadsSlice (input.variable self.old) result self.new }
        ensures surely { Surely (input.variable self.old) result }
    {
        match self.rest {
            [first, rest @ ..] => match &first.kind {
                TokenKind::Variable(name) if !is_superglobal(name.as_slice()) => {
                    *self = Tokens::new(rest);
                    Ok(name.as_slice())
                }
                _ => Err(self.refuse()),
            },
            [] => Err(self.refuse()),
        }
    }

    /// Takes a variable that a program may name, by a copy of its name.
    pub fn variable(&mut self, alloc: Global) -> Result<Bytes, Refusal>
        ensures { Reads (input.variable self.old) result self.new }
    {
        let name = self.variable_name()?;
        Ok(Bytes::from_slice(alloc, name)?)
    }

    /// Takes a name that a function may have, by a copy of it.
    pub fn name(&mut self, alloc: Global) -> Result<Bytes, Refusal>
        ensures { Reads (input.kind token_values.name_in self.old) result self.new }
    {
        match self.rest {
            [first, rest @ ..] => match &first.kind {
                TokenKind::Name(name) if !is_reserved(name.as_slice()) => {
                    *self = Tokens::new(rest);
                    Ok(Bytes::from_slice(alloc, name.as_slice())?)
                }
                _ => Err(self.refuse()),
            },
            [] => Err(self.refuse()),
        }
    }

    /// Takes a number.
    pub fn number(&mut self) -> Result<i64, Refusal>
        ensures reads { Reads (input.kind token_values.number_in self.old) result self.new }
        ensures surely { Surely (input.kind token_values.number_in self.old) result }
    {
        match self.rest {
            [first, rest @ ..] => match &first.kind {
                TokenKind::Number(number) => {
                    *self = Tokens::new(rest);
                    Ok(*number)
                }
                _ => Err(self.refuse()),
            },
            [] => Err(self.refuse()),
        }
    }

    /// Takes a text, by a copy of its bytes.
    pub fn text(&mut self, alloc: Global) -> Result<Text, Refusal>
        ensures { Reads (input.kind token_values.text_in self.old) result self.new }
    {
        match self.rest {
            [first, rest @ ..] => match &first.kind {
                TokenKind::Text(bytes) => {
                    *self = Tokens::new(rest);
                    Ok(Text::from_slice(alloc, bytes.as_slice())?)
                }
                _ => Err(self.refuse()),
            },
            [] => Err(self.refuse()),
        }
    }

    /// Takes the next token if a value of it was found, and gives that; else refuses at it.
    pub fn take<T: Drop>(&mut self, found: Option<T>) -> Result<T, Refusal>
        ensures reads { Reads (input.taken found self.old) result self.new }
        ensures surely { Surely (input.taken found self.old) result }
    {
        match self.rest {
            [_, rest @ ..] => match found {
                Some(found) => {
                    *self = Tokens::new(rest);
                    Ok(found)
                }
                None => Err(self.refuse()),
            },
            [] => Err(self.refuse()),
        }
    }
}

/// Ensures that a level of nesting is left: else the refusal that names the next token.
pub fn enter(level: usize, tokens: &Tokens<'_>) -> Result<(), Refusal>
    ensures reads { Reads (input.enter level tokens.now) result tokens.now }
    ensures surely { Surely (input.enter level tokens.now) result }
    ensures some { OnOk result (0 < level) }
{
    if level == 0 {
        Err(Refusal::TooDeep(tokens.left()))
    } else {
        Ok(())
    }
}
