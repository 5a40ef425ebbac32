//! Programs that are made of the names and texts of their files, or the first file that is none.
#![tactic(auto)]

mod errors;
mod from_texts;

pub use errors::BundleError;
pub use from_texts::FromTexts;
