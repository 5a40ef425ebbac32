//! The calls of the crates of texts.

use crate::commands::{told_command, told_line};
use crate::frames::{told_commands, told_packets};
use crate::packets::{told_head, told_markup, told_packet};
use crate::settings::told_setting;
use dp_rows::{Memory, Row};
use std::alloc::Global;

/// A call of a crate of texts.
#[derive(Clone, Copy)]
pub(crate) enum TextCall {
    Read,
    Head,
    Packet,
    Line,
    Command,
    Commands,
    Packets,
    Setting,
}

impl TextCall {
    /// What comes of the call, in words.
    pub(crate) fn answer(
        self,
        alloc: Global,
        row: &Row<'_>,
        input: &[u8],
    ) -> Result<String, Memory> {
        match self {
            TextCall::Read => told_markup(alloc, input),
            TextCall::Head => told_head(alloc, row, input),
            TextCall::Packet => told_packet(alloc, input),
            TextCall::Line => told_line(alloc, input),
            TextCall::Command => told_command(alloc, input),
            TextCall::Commands => told_commands(alloc, input),
            TextCall::Packets => told_packets(alloc, input),
            TextCall::Setting => told_setting(alloc, input),
        }
    }
}
