//! The headline, of the engines of a program, and what its gateway and `async` tell.
#![tactic(auto)]

mod laws;

pub use laws::{
    async_shows_its_program, dap_shows_its_program, each_ide_receives, in_plain_words, served_alone,
};
