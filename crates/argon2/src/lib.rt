//! Argon2 (RFC 9106): password hashing, key derivation and PHC texts.
//!
//! A service stores the text that hashing makes, and verifies later passwords against it:
//!
//! ```text
//! let argon2 = Argon2::default();
//! let hash = argon2.hash_password(alloc, &mut rng, password)?;
//! argon2.verify_password(alloc, password, hash.text().as_str())?;
//! ```
//!
//! [`Argon2`] hashes on memory that it allocates, on lent memory, watched, or by single steps.
//!
//! - [`params`], [`algorithm`], [`version`]: the settings of a hash.
//! - [`password_hash`]: hashing to texts, reading them, and verifying.
//! - [`bound`]: the greatest costs that a stored text may ask for.
//! - [`login`]: a store of names and texts that renews old texts.
//! - [`kdf`]: key derivation.
//! - [`laws`]: properties of the definitions, each as the contract of a function.
//! - [`blake2b`], [`blake2b_long`], [`block`], [`byte_list`], [`error`], [`phc`]: the parts.
#![tactic(auto)]

pub mod algorithm;
pub mod bound;
mod context;
pub mod kdf;
pub mod laws;
pub mod login;
pub mod params;
pub mod password_hash;
pub mod version;

pub use algorithm::Algorithm;
pub use argon2_base::block::{Block, Work};
pub use argon2_base::error::{B64Error, Error, Result};
pub use argon2_base::phc::{ARGON2D_IDENT, ARGON2I_IDENT, ARGON2ID_IDENT, PasswordHash};
pub use argon2_base::{blake2b, blake2b_long, block, byte_list, error, phc};
pub use context::{
    Argon2, MAX_AD_LEN, MAX_PWD_LEN, MAX_SALT_LEN, MAX_SECRET_LEN, MIN_SALT_LEN,
    RECOMMENDED_SALT_LEN, Segment,
};
pub use kdf::{Kdf, Pbkdf};
pub use params::{AssociatedData, KeyId, Params, ParamsBuilder};
pub use password_hash::{CustomizedPasswordHasher, PasswordHasher, PasswordVerifier};
pub use version::Version;
