//! The calls over texts of their own, once there is room.

use crate::entry::{AdmitReply, Entry};
use crate::pass::Pass;
use crate::refusal::Refusal;
use crate::registry::Registry;
use dp_bytes::Bytes;

impl Registry {
    ghost use Rattle.std.specs.Prelude.{◌≡◌, false, Contains, IfOk};
    ghost use Rattle.dp_registry.specs.declared.entry.Entry.TheVariants as entry;
    ghost use Rattle.dp_registry.specs.Journal.{IsNew, live};
    ghost use Rattle.dp_outside.specs.Names.{IsHost, IsKey};
    ghost use Rattle.dp_registry.specs.Verdicts.{is_full, is_crowded, register_verdict, stop_verdict, admit_verdict};
    ghost use Rattle.dp_registry.specs.Verdicts.{reply_of, admit_reply_of, noted, IsAnswer};

    /// Registers a host and a port under a key, or refuses a key that is taken; either is an entry.
    #[tactic(auto, using(crate::proofs::FitEntries::registers, crate::proofs::FitEntries::register_free))]
    pub(crate) fn register_owned(
        &mut self,
        host: Bytes,
        port: u16,
        key: Bytes,
        multiple: bool,
    ) -> Result<(), Refusal>
        requires host { IsHost host }
        requires key { IsKey key }
        requires room { is_full self.old ≡ false }
        ensures verdict { IsAnswer (register_verdict self.old host port key) result }
        ensures journal { self.new ≡ noted self.old (λ reply. entry.Register host port key multiple reply)
            (reply_of result) }
    {
        match self.taken(&host, port, &key)? {
            None => {
                self.hold(host, port, key, multiple)?;
                Ok(())
            }
            Some((holder, its_port)) => {
                self.note(Entry::Register {
                    host,
                    port,
                    key,
                    multiple,
                    reply: 1,
                })?;
                Err(Refusal::Taken {
                    host: holder,
                    port: its_port,
                })
            }
        }
    }

    /// Ends a key's registration for the host that holds it, or refuses; either is an entry.
    #[tactic(auto, using(crate::proofs::FitEntries::stops, crate::proofs::FitEntries::stop_free))]
    pub(crate) fn stop_owned(&mut self, host: Bytes, key: Bytes) -> Result<(), Refusal>
        requires host { IsHost host }
        requires key { IsKey key }
        requires room { is_full self.old ≡ false }
        ensures verdict { IsAnswer (stop_verdict self.old host key) result }
        ensures journal { self.new ≡ noted self.old (λ reply. entry.Stop host key reply) (reply_of result) }
    {
        match self.is_holder(&host, &key) {
            Some(true) => {
                self.release(host, key)?;
                Ok(())
            }
            Some(false) => {
                self.note(Entry::Stop {
                    host,
                    key,
                    reply: 3,
                })?;
                Err(Refusal::NotYours)
            }
            None => {
                self.note(Entry::Stop {
                    host,
                    key,
                    reply: 2,
                })?;
                Err(Refusal::Unknown)
            }
        }
    }

    /// Gives a session to the holder of a key, or refuses; either is an entry.
    #[tactic(auto, using(crate::proofs::FitEntries::admits, crate::proofs::FitEntries::admit_free, crate::proofs::FitEntries::not_full))]
    pub(crate) fn admit_owned(&mut self, key: Bytes) -> Result<Pass, Refusal>
        requires key { IsKey key }
        requires room { is_crowded self.old ≡ false }
        ensures verdict { IsAnswer (admit_verdict self.old key) result }
        ensures journal { self.new ≡ noted self.old (λ reply. entry.Admit key reply) (admit_reply_of result) }
        ensures lives { IfOk result (λ pass. Contains (live self.new) pass.session) }
        ensures unused { IfOk result (λ pass. IsNew self.old pass.session) }
    {
        match self.admission(&key)? {
            AdmitReply::Given {
                session,
                host,
                port,
            } => {
                let pass = Pass {
                    session,
                    host: host.try_clone()?,
                    port,
                };
                self.give(key, host, port)?;
                Ok(pass)
            }
            AdmitReply::Unknown => {
                self.note(Entry::Admit {
                    key,
                    reply: AdmitReply::Unknown,
                })?;
                Err(Refusal::Unknown)
            }
            AdmitReply::Busy(session) => {
                self.note(Entry::Admit {
                    key,
                    reply: AdmitReply::Busy(session),
                })?;
                Err(Refusal::Busy { session })
            }
        }
    }
}
