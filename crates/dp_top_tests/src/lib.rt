//! Tests of the top call over the network of the system, in threads. A crate with tests is proved twice, so they stand
//! apart.
#![tactic(auto)]

#[cfg(test)]
mod breaks;
#[cfg(test)]
mod calls;
#[cfg(test)]
mod peers;
#[cfg(test)]
mod proxies;
#[cfg(test)]
mod tests;
