//! The variants of Argon2 (RFC 9106, section 3.1).

ghost use Rattle.std.specs.Prelude.{◌≡◌, Some};
ghost use Rattle.argon2_base.specs.PhcText.{ident_text};
ghost use Rattle.argon2_base.specs.declared.error.Error.TheVariants.{AlgorithmInvalid};
ghost use Rattle.argon2_base.specs.declared.error.password_hash.Error.TheVariants.{Algorithm as NoAlgorithm};
ghost use Rattle.argon2.specs.Settings.{algorithm_name, IsReadBy};

use argon2_base::error::{Error, Result, password_hash};
use argon2_base::phc::Ident;
pub use argon2_base::phc::{ARGON2D_IDENT, ARGON2I_IDENT, ARGON2ID_IDENT};
use std::convert::AsStr;
use std::fmt;
use std::str::FromStr;

/// A variant of Argon2. Its number is the type `y` of RFC 9106, section 3.2.
#[derive(Clone, Copy, Debug, Default, PartialEq, Eq, PartialOrd, Ord)]
pub enum Algorithm {
    /// References depend on the password, which leaves the least room for tradeoffs of time
    /// against memory, and leaks through side channels.
    Argon2d = 0,
    /// References depend only on positions, so they show nothing of the password.
    Argon2i = 1,
    /// Argon2i in the first half of the first pass, and Argon2d from then on.
    #[default]
    Argon2id = 2,
}

impl Algorithm {
    /// The variant of this name: `argon2d`, `argon2i` or `argon2id`. Any other name is
    /// [`Error::AlgorithmInvalid`].
    pub fn new(name: &str) -> Result<Algorithm>
        ensures { IsReadBy algorithm_name AlgorithmInvalid name.now result }
    {
        match name {
            "argon2d" => Ok(Algorithm::Argon2d),
            "argon2i" => Ok(Algorithm::Argon2i),
            "argon2id" => Ok(Algorithm::Argon2id),
            _ => Err(Error::AlgorithmInvalid),
        }
    }

    /// The variant's name.
    pub fn as_str(&self) -> &'static str
        ensures { result.now ≡ algorithm_name self.now }
    {
        match self {
            Algorithm::Argon2d => "argon2d",
            Algorithm::Argon2i => "argon2i",
            Algorithm::Argon2id => "argon2id",
        }
    }

    /// The variant's name as the identifier of a PHC text.
    pub fn ident(&self) -> Ident
        ensures { ident_text result ≡ algorithm_name self.now }
    {
        match self {
            Algorithm::Argon2d => ARGON2D_IDENT,
            Algorithm::Argon2i => ARGON2I_IDENT,
            Algorithm::Argon2id => ARGON2ID_IDENT,
        }
    }
}

impl AsStr for Algorithm {
    ghost text = { algorithm_name };

    fn as_str(&self) -> &str {
        self.as_str()
    }
}

impl fmt::Display for Algorithm {
    ghost output = { λ algorithm. Some (algorithm_name algorithm) };

    fn fmt<W: fmt::Write>(&self, f: &mut fmt::Formatter<W>) -> fmt::Result {
        f.write_str(self.as_str())
    }
}

impl FromStr for Algorithm {
    type Err = Error;

    ghost from_str_gives = { IsReadBy algorithm_name AlgorithmInvalid };

    fn from_str(name: &str) -> Result<Algorithm> {
        Algorithm::new(name)
    }
}

impl TryFrom<&str> for Algorithm {
    type Error = password_hash::Error;

    ghost try_from_gives = { λ name r. IsReadBy algorithm_name NoAlgorithm name.now r };

    fn try_from(name: &str) -> password_hash::Result<Algorithm> {
        Ok(Algorithm::new(name)?)
    }
}

impl From<Algorithm> for Ident {
    ghost from_gives = { λ algorithm ident. ident_text ident ≡ algorithm_name algorithm };

    fn from(algorithm: Algorithm) -> Ident {
        algorithm.ident()
    }
}
