//! What a sound text has.

use argon2::{Algorithm, KeyId};

/// The least costs, lengths and version, the algorithm, the key identifier, and whether other schemes count as sound.
#[derive(Clone, Copy)]
pub struct Limits {
    /// Memory in blocks of 1024 bytes.
    pub m_cost: u32,
    /// Passes.
    pub t_cost: u32,
    /// Lanes.
    pub p_cost: u32,
    /// Bytes of the salt.
    pub salt_len: u32,
    /// Bytes of the hash.
    pub hash_len: u32,
    /// The number of the version.
    pub version: u32,
    /// The required algorithm, if one is required.
    pub algorithm: Option<Algorithm>,
    /// The required key identifier, if one is required.
    pub keyid: Option<KeyId>,
    /// Whether texts of other schemes, locked and blank lines, and comments count as sound.
    pub allows_other: bool,
}
