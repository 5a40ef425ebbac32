//! What grammars are made of, over any symbol: rules (which symbols spell which value), how their
//! readers go, with which symbol they refuse, and what follows of a reader that answers its rule.
//! The parser reads tokens with it, markup bytes.
#![tactic(auto)]

mod laws;
mod refusal;

pub use laws::one_symbol_is_read;
pub use refusal::Refusal;
