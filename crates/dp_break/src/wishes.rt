//! What an IDE wishes of breakpoints, and what it is answered.

use dp_packet::{Notify, Response};

/// What an IDE wishes of breakpoints: that one on a line without code goes to the next line that has code (`resolve`),
/// and that it is told of that (`notify`).
#[derive(Clone, Copy, Debug)]
pub struct Wishes {
    pub resolve: bool,
    pub notify: bool,
}

/// What a breakpoint command is answered: its response, and the news that goes before it.
#[derive(Debug, Drop)]
pub struct Answered {
    pub notice: Option<Notify>,
    pub response: Response,
}
