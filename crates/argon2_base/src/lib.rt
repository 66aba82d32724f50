//! What Argon2 is built on: BLAKE2b (RFC 7693), the hash of any length, blocks and their mixing
//! (RFC 9106), byte lists, PHC texts, and the errors of hashing, of key derivation and of texts.
#![tactic(auto)]

pub mod blake2b;
pub mod blake2b_long;
pub mod block;
pub mod byte_list;
pub mod error;
pub mod phc;
