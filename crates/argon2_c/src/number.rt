//! The variant and the version that a number of a C caller stands for.

ghost use Rattle.std.specs.Prelude.{◌≢◌, ◌↔◌, ◌<◌, ◌≡◌, IfSome, IsNone};
ghost use Rattle.argon2.specs.Settings.{algorithm_number, version_number};

use argon2::{Algorithm, Version};

/// The variant with this number, if it exists.
pub fn variant(number: u32) -> Option<Algorithm>
    ensures found { IfSome result (λ algorithm. algorithm_number algorithm ≡ number) }
    ensures none { IsNone result ↔ 2 < number }
{
    match number {
        0 => Some(Algorithm::Argon2d),
        1 => Some(Algorithm::Argon2i),
        2 => Some(Algorithm::Argon2id),
        _ => None,
    }
}

/// The version with this number, if it exists.
pub fn version(number: u32) -> Option<Version>
    ensures found { IfSome result (λ version. version_number version ≡ number) }
    ensures none { IsNone result ↔ (number ≢ 16) × (number ≢ 19) }
{
    Version::try_from(number).ok()
}
