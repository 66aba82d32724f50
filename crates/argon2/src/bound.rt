//! A bound on what a stored text may ask for.
//!
//! A text says which costs it is verified under, so whoever can write one can ask for up to 4 TiB.

ghost use Rattle.std.specs.Prelude.{◌≡◌, ◌↔◌, Some, Ok, Err, IsTrue, IfOk, IfErr, MatchResult};
ghost use Rattle.argon2_base.specs.PhcFields.{phc_of};
ghost use Rattle.argon2_base.specs.PhcText.{Phc, IsPhcText};
ghost use Rattle.argon2.specs.Argon2.{parameters_of, secret_of};
ghost use Rattle.argon2.specs.Bound.{AcceptsWithin, AsksBlocksWithin, AsksWithin, IsBoundRefusal, IsHashRefusal, IsBoundAnswer, IsWithin, IsStoredRefusal, IsVerifyRefusal, bound_error_text};
ghost use Rattle.argon2.specs.StoredTexts.{stored_of, stored_value};
ghost use Rattle.argon2.specs.declared.bound.BoundError.TheVariants.{Refused, TooExpensive};

use crate::context::Argon2;
use crate::params::Params;
use crate::password_hash::{Error, Settings, Stored};
use argon2_base::phc::PasswordHash;
use std::alloc::Global;
use std::fmt;

/// The greatest costs that a stored text may ask for.
#[derive(Clone, Copy, Debug, PartialEq, Eq)]
pub struct Bound {
    /// Blocks of 1024 bytes.
    pub m_cost: u32,
    /// Passes.
    pub t_cost: u32,
    /// Lanes.
    pub p_cost: u32,
}

/// A stored text that asks for no more than a bound.
#[derive(Debug, Drop)]
pub struct Admitted {
    /// The value of the text.
    pub hash: PasswordHash,
    /// The number of blocks of 1024 bytes that are filled to verify it.
    pub blocks: usize,
}

impl Bound {
    /// Reads a stored text that asks for no more than this bound. Allocates nothing.
    ///
    /// # Errors
    /// The first of these that holds:
    /// - [`BoundError::Refused`] with [`Error::EncodingInvalid`]: the text is outside the grammar.
    /// - the errors of [`Bound::admit_hash`].
    pub fn admit(&self, text: &str) -> Result<Admitted, BoundError>
        ensures text { IfOk result (λ admitted. IsPhcText text.now (phc_of admitted.hash)) }
        ensures only { IfOk result (λ admitted.
            (v : Phc) → IsPhcText text.now v → phc_of admitted.hash ≡ v) }
        ensures within { IfOk result (λ admitted.
            AsksBlocksWithin self.now (phc_of admitted.hash) admitted.blocks) }
        ensures refused { IfErr result (IsBoundRefusal self.now text.now) }
    {
        let hash = PasswordHash::new(text)?;
        let blocks = self.admit_hash(&hash)?;
        Ok(Admitted { hash, blocks })
    }

    /// Checks a stored hash against this bound, and returns the number of blocks of 1024 bytes that are
    /// filled to verify it. Allocates nothing.
    ///
    /// # Errors
    /// The first of these that holds:
    /// - [`BoundError::Refused`]: the parameters can't be read, with the error of `Params::try_from`.
    /// - [`BoundError::TooExpensive`]: a cost is above the bound's.
    pub fn admit_hash(&self, hash: &PasswordHash) -> Result<usize, BoundError>
        ensures within { IfOk result (AsksBlocksWithin self.now (phc_of hash.now)) }
        ensures refused { IfErr result (IsHashRefusal self.now (phc_of hash.now)) }
    {
        let params = self.admitted_params(hash)?;
        Ok(params.block_count())
    }

    /// Checks a stored hash against this bound, and reads its settings, its salt and its hash. Allocates
    /// nothing.
    ///
    /// # Errors
    /// The first of these that holds:
    /// - the errors of [`Bound::admit_hash`].
    /// - [`BoundError::Refused`] with the error of `Stored::try_from`: there is no salt or no hash, or the
    ///   algorithm or the version does not exist.
    pub fn admit_stored<'hash>(
        &self,
        hash: &'hash PasswordHash,
    ) -> Result<Stored<'hash>, BoundError>
        ensures within { IfOk result (λ stored. AsksWithin self.now (phc_of hash.now)) }
        ensures shown { IfOk result (λ stored.
            stored_of (phc_of hash.now) ≡ Ok (stored_value stored)) }
        ensures refused { IfErr result (IsStoredRefusal self.now (phc_of hash.now)) }
    {
        let params = self.admitted_params(hash)?;
        let settings = Settings::with_params(hash, params);
        Ok(Stored::with_settings(hash, settings)?)
    }

    /// Checks a text against this bound, and verifies a password against it under the secret of
    /// `argon2`. Memory is requested as by
    /// [`verify_password`](crate::password_hash::PasswordVerifier::verify_password).
    ///
    /// # Errors
    /// The first of these that holds:
    /// - the errors of [`Bound::admit`], whatever memory there is.
    /// - [`BoundError::Refused`] with the error of
    ///   [`verify_password`](crate::password_hash::PasswordVerifier::verify_password).
    pub fn verify(
        &self,
        alloc: Global,
        argon2: &Argon2<'_>,
        password: &[u8],
        text: &str,
    ) -> Result<(), BoundError>
        ensures accepted { let secret = secret_of argon2.now in
            MatchResult result (λ _. AcceptsWithin self.now secret password.now text.now)
            (IsVerifyRefusal self.now secret password.now text.now) }
        ensures answer { IsBoundAnswer self.now (secret_of argon2.now) password.now text.now
            result }
        ensures expensive { (v : Phc) → IsPhcText text.now v → IsHashRefusal self.now v TooExpensive
            → result ≡ Err TooExpensive }
    {
        let hash = PasswordHash::new(text)?;
        let stored = self.admit_stored(&hash)?;
        argon2.verify_stored(alloc, password, &stored)?;
        Ok(())
    }

    /// Whether no cost of the parameters is above this bound's.
    pub fn allows(&self, params: &Params) -> bool
        ensures { IsTrue result ↔ IsWithin self.now (parameters_of params.now) }
    {
        params.m_cost() <= self.m_cost
            && params.t_cost() <= self.t_cost
            && params.p_cost() <= self.p_cost
    }

    // Reads the parameters of a stored hash, and checks them against this bound.
    fn admitted_params(&self, hash: &PasswordHash) -> Result<Params, BoundError>
        ensures asked { IfOk result (λ params. (asks : AsksWithin self.now (phc_of hash.now))
            × (asks.parameters ≡ parameters_of params)) }
        ensures refused { IfErr result (IsHashRefusal self.now (phc_of hash.now)) }
    {
        let params = Params::try_from(hash)?;
        if !self.allows(&params) {
            return Err(BoundError::TooExpensive);
        }
        Ok(params)
    }
}

/// Why a text is not admitted or made, or does not accept the password.
#[derive(Clone, Copy, Debug, PartialEq, Eq)]
pub enum BoundError {
    /// A text, or settings for new texts, ask for more than the bound.
    TooExpensive,
    /// Reading, verifying or making a text fails with this error.
    Refused(Error),
}

impl fmt::Display for BoundError {
    ghost output = { λ error. Some (bound_error_text error) };

    fn fmt<W: fmt::Write>(&self, f: &mut fmt::Formatter<W>) -> fmt::Result {
        match self {
            BoundError::TooExpensive => f.write_str("costs are above the bound"),
            BoundError::Refused(e) => write!(f, "{e}"),
        }
    }
}

impl std::error::Error for BoundError {}

impl From<Error> for BoundError {
    ghost from_gives = { λ e error. error ≡ Refused e };

    fn from(e: Error) -> BoundError {
        BoundError::Refused(e)
    }
}
