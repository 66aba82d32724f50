//! The versions of Argon2.

ghost use Rattle.std.specs.Prelude.{◌≡◌};
ghost use Rattle.argon2_base.specs.declared.error.Error.TheVariants.{VersionInvalid};
ghost use Rattle.argon2.specs.Settings.{version_number, IsReadBy};

use argon2_base::error::{Error, Result};

/// A version of Argon2. Its number is the `v` of RFC 9106, section 3.2.
#[derive(Clone, Copy, Debug, Default, PartialEq, Eq, PartialOrd, Ord)]
pub enum Version {
    /// Version 16: each pass overwrites the blocks of the one before.
    V0x10 = 16,
    /// Version 19, the one of RFC 9106: each pass is combined with the one before by exclusive or.
    #[default]
    V0x13 = 19,
}

impl TryFrom<u32> for Version {
    type Error = Error;

    ghost try_from_gives = { IsReadBy version_number VersionInvalid };

    /// The version of this number, 16 or 19. Any other number is [`Error::VersionInvalid`].
    fn try_from(number: u32) -> Result<Version> {
        match number {
            16 => Ok(Version::V0x10),
            19 => Ok(Version::V0x13),
            _ => Err(Error::VersionInvalid),
        }
    }
}

impl From<Version> for u32 {
    ghost from_gives = { λ version number. number ≡ version_number version };

    fn from(version: Version) -> u32 {
        version as u32
    }
}
