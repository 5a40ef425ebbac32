//! Names of machines.
ghost use Rattle.std.specs.Prelude.{◌≡◌, ◌↔◌, IfSome, IsSome};
ghost use Rattle.dp_outside.specs.Names.{IsHost};

use crate::graphic_names::{HOST_LIMIT, is_name};
use std::marker::Model;

/// The name or address of a machine: 1 to 64 bytes from 0x21 to 0x7e. Contracts see the list of these bytes.
#[derive(Debug, Drop)]
pub struct Host {
    bytes: [u8; HOST_LIMIT],
    length: u8,
}

impl Model for Host {
    ghost use Rattle.std.specs.Prelude.{List, ℕ, take, ◌≤◌};
    ghost use Rattle.dp_outside.specs.Names.{IsHost, host_limit};

    ghost Value = { List ℕ };

    ghost view = { λ h. take h.length h.bytes };

    ghost invariant = { λ h. (h.length ≤ host_limit) × IsHost (take h.length h.bytes) };
}

impl Host {
    /// The host that stands for these bytes, and `None` exactly where they are not 1 to 64 bytes from 0x21 to
    /// 0x7e. Takes no memory.
    pub fn of(bytes: &[u8]) -> Option<Self>
        ensures exact { IfSome result (λ host. host ≡ bytes.now) }
        ensures valid { IsSome result ↔ IsHost bytes.now }
    {
        if !is_name(bytes, HOST_LIMIT) {
            return None;
        }
        let mut held = [0; HOST_LIMIT];
        held[..bytes.len()].copy_from_slice(bytes);
        Some(Host {
            bytes: held,
            length: bytes.len() as u8,
        })
    }

    /// The bytes that it stands for. Takes no memory.
    pub fn text(&self) -> &[u8]
        ensures text { result.now ≡ self.now }
        ensures valid { IsHost result.now }
    {
        &self.bytes[..self.length as usize]
    }
}
