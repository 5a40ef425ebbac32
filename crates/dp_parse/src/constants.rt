//! Constants that a file defines by `const`. What is read of it stands before the first token of a variable, an
//! `isset`, an include or a call, so nothing of those is read into it.

ghost use Rattle.std.specs.Prelude.{◌≡◌, ◌∷◌, false, ⊤, IfOk};
ghost use Rattle.dp_token_rules.specs.inner.Input.{Reads};
ghost use Rattle.dp_parse.specs.Statements as grammar;
ghost use Rattle.dp_parse.specs.inner.StatementRules as spec;
ghost use Rattle.dp_parse.specs.inner.Within as limited;

use crate::ended::{Body, Ended, stated, whole};
use crate::levels::expression;
use dp_bytes::{Items, Memory};
use dp_expressions::both;
use dp_token_rules::{Piece, Refusal, Terminal, Tokens, Word, many};
use dp_tree::{Definition, StatementKind};
use std::alloc::Global;

/// Whether no constant's expression goes on with a token of this sort, behind a name or not.
fn ends_constant(is_named: bool, terminal: Terminal) -> bool
    ensures { result ≡ grammar.ends_constant is_named terminal }
{
    match terminal {
        Terminal::Variable
        | Terminal::Superglobal
        | Terminal::Of(Word::Isset)
        | Terminal::Of(Word::Include)
        | Terminal::Of(Word::Require)
        | Terminal::Of(Word::Increment)
        | Terminal::Of(Word::Decrement)
        | Terminal::Of(Word::Semicolon) => true,
        Terminal::Of(Word::OpenParenthesis) => is_named,
        _ => false,
    }
}

/// How many of these tokens stand before the first with which a constant's expression does not go on.
#[tactic(auto, using(std::proofs::lemmas::List::take_all, crate::proofs::ConstantFronts::none_of_constants, crate::proofs::ConstantFronts::one_of_constants, crate::proofs::ConstantFronts::no_tokens, crate::proofs::ConstantFronts::one_less))]
fn constants_len(tokens: &Tokens<'_>) -> usize
    ensures { result ≡ spec.constants_len false tokens.now }
{
    let left = tokens.left();
    let mut rest = tokens.front(left);
    let mut is_named = false;
    for at in 0..left {
        if ends_constant(is_named, rest.peek()) {
            return at;
        }
        is_named = rest.sees(Terminal::Name);
        rest.skip(1);
    }
    left
}

/// A name, `=` and its value.
#[tactic(auto, unfolding(crate::specs::inner::StatementRules::definition))]
fn definition(alloc: Global, tokens: &mut Tokens<'_>) -> Result<Definition, Refusal>
    ensures { Reads (spec.definition limited.expression tokens.old) result tokens.new }
{
    let name = tokens.name(alloc)?;
    let (name, _) = both(name, tokens.mark(Terminal::Of(Word::Assign)))?;
    let (name, value) = both(name, expression(alloc, tokens))?;
    Ok(Definition { name, value })
}

/// A definition behind a comma.
#[derive(Drop)]
struct NextDefinition {
    alloc: Global,
}

impl Piece<Definition> for NextDefinition {
    ghost reads = { λ _. spec.next_definition limited.expression };

    ghost ready = { λ _. ⊤ };

    fn read(&self, tokens: &mut Tokens<'_>) -> Result<Definition, Refusal> {
        tokens.mark(Terminal::Of(Word::Comma))?;
        definition(self.alloc, tokens)
    }
}

/// These definitions behind the first.
fn in_front(first: Definition, more: Items<Definition>) -> Result<Items<Definition>, Memory>
    ensures { IfOk result (λ all. all ≡ first ∷ more) }
{
    let mut values = more.into_vec();
    values.insert(0, first)?;
    Ok(Items::of(values))
}

/// The word, and one definition or more behind it.
#[tactic(auto, unfolding(crate::specs::inner::StatementRules::definitions))]
fn definitions(alloc: Global, tokens: &mut Tokens<'_>) -> Result<Items<Definition>, Refusal>
    ensures { Reads (spec.definitions limited.expression tokens.old) result tokens.new }
{
    tokens.mark(Terminal::Const)?;
    let first = definition(alloc, tokens)?;
    let (first, more) = both(
        first,
        many(
            alloc,
            tokens,
            Terminal::Of(Word::Comma),
            &NextDefinition { alloc },
        ),
    )?;
    Ok(in_front(first, more)?)
}

/// A refusal among the first so many of all, by how many are left of all.
fn among_all(all: usize, first: usize, refusal: Refusal) -> Refusal
    ensures { result ≡ spec.among_all all first refusal }
{
    match refusal {
        Refusal::Unexpected(left) => Refusal::Unexpected(all.saturating_sub(first.saturating_sub(
            left,
        ))),
        Refusal::TooDeep(left) => Refusal::TooDeep(all.saturating_sub(first.saturating_sub(left))),
        Refusal::Memory => Refusal::Memory,
    }
}

/// The definitions of a `const`, read of the tokens that may stand in it.
#[tactic(auto, unfolding(crate::specs::inner::StatementRules::of_constants))]
fn constant_definitions(
    alloc: Global,
    tokens: &mut Tokens<'_>,
) -> Result<Items<Definition>, Refusal>
    ensures { Reads (spec.of_constants (spec.definitions limited.expression) tokens.old) result tokens.new }
{
    let first = constants_len(tokens);
    let mut front = tokens.front(first);
    match definitions(alloc, &mut front) {
        Ok(all) => {
            tokens.skip(first.saturating_sub(front.left()));
            Ok(all)
        }
        Err(refusal) => Err(among_all(tokens.left(), first, refusal)),
    }
}

/// Reads a `const` up to its `;`.
#[tactic(auto, unfolding(crate::specs::inner::StatementRules::constants_rule))]
fn constants_rule(alloc: Global, tokens: &mut Tokens<'_>) -> Result<Ended, Refusal>
    ensures { Reads (spec.constants_rule limited.expression tokens.old) result tokens.new }
{
    let all = constant_definitions(alloc, tokens)?;
    let (all, _) = both(all, tokens.mark(Terminal::Of(Word::Semicolon)))?;
    whole(alloc, tokens, StatementKind::Constants(all))
}

/// A `const` with the line of its word.
#[tactic(auto, unfolding(crate::specs::inner::StatementRules::on_its_line))]
pub(crate) fn constants(alloc: Global, tokens: &mut Tokens<'_>) -> Result<Body, Refusal>
    ensures { Reads (spec.on_its_line (spec.constants_rule limited.expression) tokens.old) result tokens.new }
{
    let line = tokens.line();
    let found = constants_rule(alloc, tokens)?;
    Ok(stated(alloc, line, found)?)
}
