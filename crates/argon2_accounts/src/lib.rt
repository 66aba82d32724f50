//! Accounts of a service: names with passwords in a file, by one call for each thing.
//!
//! A service opens the file, or makes it:
//!
//! ```text
//! let file = AccountFile::open(rt, path, start)?;
//! Ok(Accounts { policy, file })
//! ```
//!
//! It registers a name, and copies the log into the file:
//!
//! ```text
//! accounts.register(rng, name, password)?;
//! Ok(accounts.file.checkpoint()?)
//! ```
//!
//! These are bodies of functions of `argon2_example_service`. They are over any disk, which keeps a proof short:
//! only `main` knows which store it has. `CALLING.md` shows more of that program.
//!
//! A call that hashes keeps the file locked meanwhile. Services on several machines, and those that
//! share the file with others, ask the [`Policy`](argon2_policy::Policy) about a text themselves, and
//! then replace it.
#![tactic(auto)]

mod accounts;
mod error;

pub use accounts::Accounts;
pub use error::AccountError;
