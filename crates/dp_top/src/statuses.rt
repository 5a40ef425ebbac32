//! The statuses that the program ends with where it did not end as a PHP program did, by name.

/// The words ask for nothing.
pub(crate) const USAGE: u8 = 200;

/// A file is too long or no program.
pub(crate) const SOURCE: u8 = 201;

/// The shelf failed, or lacks a file.
pub(crate) const SHELF: u8 = 202;

/// An output failed.
pub(crate) const OUTPUT: u8 = 203;

/// A file is no script, or no list of events.
pub(crate) const SCRIPT: u8 = 204;

/// Something else was found than a script wants.
pub(crate) const DIFFERS: u8 = 205;

/// The peer ended before it should.
pub(crate) const PEER_END: u8 = 206;

/// Bytes are no command or no packet where one should stand.
pub(crate) const PACKET: u8 = 207;

/// The input, or the network, failed.
pub(crate) const NETWORK: u8 = 208;

/// Memory ran out.
pub(crate) const MEMORY: u8 = 209;

/// A record tells something else than its session does.
pub(crate) const LIES: u8 = 211;
