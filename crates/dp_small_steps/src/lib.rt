//! Expressions and statements that are half done: what is to be done first, and the pending work that waits for what it
//! gives.
#![tactic(auto)]

mod after;
mod calls;
mod expressions;
mod hands;
mod lists;
mod loops;
mod next;
mod parts;
mod statements;
mod waits;
mod work;

pub use after::bind_at;
pub use hands::first_of;
pub use loops::entry_count;
pub use statements::begin;
pub use waits::receive;
pub use work::{
    AfterValue, AfterValues, DoTurns, EachTurns, ForPart, ForSignal, ForValue, ForValues, Given,
    Hand, Head, Next, Small, Turns, Waiting, Work,
};
