//! One session of the engine with an IDE, where its program goes on to, and serving it over a link.
#![tactic(auto)]

mod laws;
mod metered;
mod moves;
mod passes;
mod past;
mod reached;
mod refusals;
mod replies;
mod responses;
mod service;
mod session;
mod states;
mod stops;
mod streams;
mod texts;
mod turns;
mod writes;

pub use dp_bytes::Memory;
pub use dp_step::Steps;
pub use laws::stops_are_moments;
pub use metered::Metered;
pub use moves::{go_on_from, pass_one};
pub use passes::{Departure, Going, Passing};
pub use reached::{Passed, Reached};
pub use service::{ServeEnd, Served, close, close_cut, serve};
pub use session::{Answer, Report, Session, SessionEnd, line_in};
pub use states::{Phase, Reason};
pub use texts::{fault_text, feature_text, status_text, success_text};
