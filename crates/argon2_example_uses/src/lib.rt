//! Uses of `argon2` as callers write them, each proved only from its public contracts and lemmas.
//!
//! - [`passwords`]: texts of passwords, stored and verified.
//! - [`login`]: names with passwords, whose old texts are renewed.
//! - [`vault`]: a key from a passphrase.
//! - [`arena`]: many hashes on the same memory.
//! - [`scheduler`]: the steps of a hash in another order.
//! - [`digest`]: BLAKE2b of a message in pieces.
#![tactic(auto)]

pub mod arena;
pub mod digest;
pub mod login;
pub mod passwords;
pub mod scheduler;
pub mod vault;
