//! Argon2 for C: what `bindings/c/argon2.c` and `bindings/c/argon2_phc.c` call, under the codes of `argon2.h` and
//! `argon2_phc.h`.
//!
//! - [`request`]: what a caller asks for, and the first reason to refuse it.
//! - [`hash`], [`segments`]: the tag, by one call or by calls that threads share.
//! - [`fill`]: the memory that a hash fills.
//! - [`encode`], [`decode`], [`compare`]: texts are written, read and verified.
//! - [`laws`]: what the calls that verify a text answer together.
//! - [`phc`]: the calls of `argon2_phc.h`.
#![tactic(auto)]

mod code;
pub mod compare;
pub mod decode;
pub mod encode;
pub mod fill;
pub mod hash;
pub mod laws;
mod number;
pub mod phc;
pub mod request;
pub mod segments;
