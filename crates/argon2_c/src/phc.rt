//! What `bindings/c/argon2_phc.c` calls: texts of the grammar of `argon2::phc`, with a secret and within a bound. No call
//! allocates.

pub mod admit;
pub mod encode;
mod fault;
pub mod login;
mod reading;
pub mod refusals;
pub mod renewal;
pub mod shown;
