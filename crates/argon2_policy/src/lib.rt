//! What a service does with a password and a stored text, within a bound.
//!
//! ```text
//! let policy = Policy::new(alloc, Argon2::default(), bound)?;
//! let text = policy.hash_password(&mut rng, password)?;
//! let done = policy.log_in(&mut rng, stored, password)?;
//! ```
//!
//! `stored` is the text that is stored for a name, or `None`. A text that is locked, of another scheme or above the bound
//! accepts no password. A text that is weaker than the target, or was made under an old secret, is renewed at a login: the
//! call returns the text to be stored in its place.
#![tactic(auto)]

mod denial;
mod hashes;
mod login;
mod policy;
mod stored;

pub use argon2_schemes::Scheme;
pub use denial::Denial;
pub use login::{LoggedIn, Renewal};
pub use policy::Policy;
