//! How a stored text begins: with a lock, with a prefix of another program, or as a text of another scheme.
#![tactic(auto)]

mod locks;
mod prefixes;
mod schemes;

pub use locks::after_lock;
pub use prefixes::{after_any, begins_any, is_named, str_without_prefix, without_prefix};
pub use schemes::{Scheme, scheme_of};
