//! What texts are counted by.

use argon2::password_hash::Settings;
use argon2::{Algorithm, Version};

/// The algorithm, the version and the costs of a text. Texts are counted by them.
#[derive(Clone, Copy, PartialEq, Eq, PartialOrd, Ord)]
pub struct Kind {
    pub algorithm: Algorithm,
    /// Version 0x10 if the text has no version.
    pub version: Version,
    /// Memory in blocks of 1024 bytes.
    pub m_cost: u32,
    /// Passes.
    pub t_cost: u32,
    /// Lanes.
    pub p_cost: u32,
}

impl Kind {
    /// The kind of a text with these settings.
    pub fn of(settings: &Settings) -> Kind {
        Kind {
            algorithm: settings.algorithm,
            version: settings.version,
            m_cost: settings.params.m_cost(),
            t_cost: settings.params.t_cost(),
            p_cost: settings.params.p_cost(),
        }
    }
}
