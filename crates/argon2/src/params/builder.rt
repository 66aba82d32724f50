//! A builder of parameters.

ghost use Rattle.std.specs.Prelude.{◌≡◌, Some};
ghost use Rattle.argon2.specs.Argon2.{IsContextOf, associated_bytes, keyid_bytes};
ghost use Rattle.argon2.specs.Params.{IsParamsOf, Sets, builder_settings, built, default_settings};

use super::{AssociatedData, KeyId, Params};
use crate::algorithm::Algorithm;
use crate::context::Argon2;
use crate::version::Version;
use argon2_base::error::{Error, Result};

/// Six settings that parameters are built of. Two builders are equal if all six are; a key
/// identifier or associated data that is not set differs from an empty one that was set.
#[derive(Clone, Copy, Debug, PartialEq, Eq)]
pub struct ParamsBuilder {
    pub(super) m_cost: u32,
    pub(super) t_cost: u32,
    pub(super) p_cost: u32,
    pub(super) keyid: Option<KeyId>,
    pub(super) associated: Option<AssociatedData>,
    pub(super) output_len: Option<usize>,
}

impl ParamsBuilder {
    /// The costs of [`Params::DEFAULT`], and nothing else set.
    pub const DEFAULT: ParamsBuilder = ParamsBuilder {
        m_cost: Params::DEFAULT_M_COST,
        t_cost: Params::DEFAULT_T_COST,
        p_cost: Params::DEFAULT_P_COST,
        keyid: None,
        associated: None,
        output_len: None,
    };

    /// A builder with the costs of [`Params::DEFAULT`], and nothing else set.
    pub fn new() -> ParamsBuilder
        ensures { builder_settings result ≡ default_settings }
    {
        ParamsBuilder::DEFAULT
    }

    /// Sets the memory cost in blocks of 1024 bytes: from 8 times the number of lanes on.
    pub fn m_cost(&mut self, m_cost: u32) -> &mut Self
        ensures { Sets self.entry result (λ s. record s { m_cost = m_cost }) }
    {
        self.m_cost = m_cost;
        self
    }

    /// Sets the number of passes: from 1 on.
    pub fn t_cost(&mut self, t_cost: u32) -> &mut Self
        ensures { Sets self.entry result (λ s. record s { t_cost = t_cost }) }
    {
        self.t_cost = t_cost;
        self
    }

    /// Sets the number of lanes: 1 to 16777215.
    pub fn p_cost(&mut self, p_cost: u32) -> &mut Self
        ensures { Sets self.entry result (λ s. record s { p_cost = p_cost }) }
    {
        self.p_cost = p_cost;
        self
    }

    /// Sets the key identifier.
    pub fn keyid(&mut self, keyid: KeyId) -> &mut Self
        ensures { Sets self.entry result (λ s. record s { keyid = Some (keyid_bytes keyid) }) }
    {
        self.keyid = Some(keyid);
        self
    }

    /// Sets the associated data.
    pub fn data(&mut self, data: AssociatedData) -> &mut Self
        ensures { Sets self.entry result (λ s. record s { associated = Some (associated_bytes «data») }) }
    {
        self.associated = Some(data);
        self
    }

    /// Sets the length of each output in bytes: 4 to 4294967295.
    pub fn output_len(&mut self, len: usize) -> &mut Self
        ensures { Sets self.entry result (λ s. record s { output_len = Some len }) }
    {
        self.output_len = Some(len);
        self
    }

    /// The parameters of the settings. A key identifier or associated data that is not set is
    /// empty.
    ///
    /// # Errors
    /// Those of [`Params::new`], in the same order.
    pub fn build(&self) -> Result<Params>
        ensures { IsParamsOf (built (builder_settings self.now)) result }
    {
        let mut params = Params::new(self.m_cost, self.t_cost, self.p_cost, self.output_len)?;
        if let Some(keyid) = self.keyid {
            params.keyid = keyid;
        }
        if let Some(associated) = self.associated {
            params.associated = associated;
        }
        Ok(params)
    }

    /// Hashing by the parameters of the settings and no secret.
    ///
    /// # Errors
    /// Those of [`ParamsBuilder::build`].
    pub fn context(&self, algorithm: Algorithm, version: Version) -> Result<Argon2<'_>>
        ensures { IsContextOf algorithm version (built (builder_settings self.now)) result }
    {
        Ok(Argon2::new(algorithm, version, self.build()?))
    }
}

impl Default for ParamsBuilder {
    ghost is_default = { λ builder. builder_settings builder ≡ default_settings };

    fn default() -> ParamsBuilder {
        ParamsBuilder::DEFAULT
    }
}

impl TryFrom<ParamsBuilder> for Params {
    type Error = Error;

    ghost try_from_gives = { λ builder r. IsParamsOf (built (builder_settings builder)) r };

    fn try_from(builder: ParamsBuilder) -> Result<Params> {
        builder.build()
    }
}
