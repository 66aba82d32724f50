//! Parameters of a hash (RFC 9106, section 3.1), and their builder.

ghost use Rattle.std.specs.Prelude.{◌≡◌, ◌<◌, ◌^◌, IsNone};
ghost use Rattle.argon2.specs.Settings.{first_fault};

use argon2_base::error::{Error, Result};
use argon2_base::phc::Output;

mod builder;
mod printing;
mod reading;
mod short_bytes;

pub use builder::ParamsBuilder;
pub use short_bytes::{AssociatedData, KeyId};

// The slices of a pass (RFC 9106, section 3.4).
pub(crate) const SLICES: u32 = 4;

/// Parameters of a hash, which are valid by this type.
#[derive(Clone, Copy, Debug, PartialEq, Eq)]
pub struct Params {
    m_cost: u32,
    t_cost: u32,
    p_cost: u32,
    keyid: KeyId,
    associated: AssociatedData,
    output_len: Option<usize>,
    ghost valid: { IsNone (first_fault m_cost t_cost p_cost output_len) },
    ghost memory: { m_cost < 2 ^ 32 },
    ghost passes: { t_cost < 2 ^ 32 },
}

impl Params {
    ghost use Rattle.std.specs.Prelude.{◌≤◌, ◌*◌, ◌↔◌, IsTrue, unwrap_or};
    ghost use Rattle.argon2.specs.Params.{AreBytes, IsParamsOf};
    ghost use Rattle.argon2.specs.Settings.{AreValid, cost_parameters};
    ghost use Rattle.argon2.specs.Argon2.{parameters_of};
    ghost use Rattle.argon2.specs.Rfc9106.{block_count_for, lane_length_for, segment_length_for};

    /// The memory cost by default.
    pub const DEFAULT_M_COST: u32 = 19456;

    /// The least memory cost: two blocks for each slice of one lane.
    pub const MIN_M_COST: u32 = 8;

    /// The greatest memory cost.
    pub const MAX_M_COST: u32 = u32::MAX;

    /// The number of passes by default.
    pub const DEFAULT_T_COST: u32 = 2;

    /// The least number of passes.
    pub const MIN_T_COST: u32 = 1;

    /// The greatest number of passes.
    pub const MAX_T_COST: u32 = u32::MAX;

    /// The number of lanes by default.
    pub const DEFAULT_P_COST: u32 = 1;

    /// The least number of lanes.
    pub const MIN_P_COST: u32 = 1;

    /// The greatest number of lanes, 2^24 - 1.
    pub const MAX_P_COST: u32 = 16777215;

    /// The most bytes of a key identifier.
    pub const MAX_KEYID_LEN: usize = 8;

    /// The most bytes of associated data.
    pub const MAX_DATA_LEN: usize = 32;

    /// The length of an output in bytes by default.
    pub const DEFAULT_OUTPUT_LEN: usize = 32;

    /// The least length of an output in bytes.
    pub const MIN_OUTPUT_LEN: usize = 4;

    /// The greatest length of an output in bytes.
    pub const MAX_OUTPUT_LEN: usize = u32::MAX as usize;

    /// The parameters by default: 19456 blocks, 2 passes, 1 lane, no key identifier, no associated
    /// data, and any length of output.
    pub const DEFAULT: Params = Params {
        m_cost: Params::DEFAULT_M_COST,
        t_cost: Params::DEFAULT_T_COST,
        p_cost: Params::DEFAULT_P_COST,
        keyid: KeyId::EMPTY,
        associated: AssociatedData::EMPTY,
        output_len: None,
    };

    /// The parameters of `m_cost` blocks of 1024 bytes, `t_cost` passes and `p_cost` lanes, with
    /// no key identifier and no associated data. If an output length is set, in bytes, each
    /// output has exactly that length.
    ///
    /// # Errors
    /// The first of these that holds:
    /// - [`Error::MemoryTooLittle`]: `m_cost` is below 8.
    /// - [`Error::ThreadsTooFew`]: `p_cost` is 0.
    /// - [`Error::ThreadsTooMany`]: `p_cost` is above 16777215.
    /// - [`Error::MemoryTooLittle`]: `m_cost` is below 8 times `p_cost`.
    /// - [`Error::TimeTooSmall`]: `t_cost` is 0.
    /// - [`Error::OutputTooShort`]: the output length is below 4.
    /// - [`Error::OutputTooLong`]: the output length is above 4294967295.
    pub fn new(m_cost: u32, t_cost: u32, p_cost: u32, output_len: Option<usize>) -> Result<Params>
        ensures { IsParamsOf (cost_parameters m_cost t_cost p_cost output_len) result }
    {
        if let Some(fault) = fault(m_cost, t_cost, p_cost, output_len) {
            return Err(fault);
        }
        Ok(Params {
            m_cost,
            t_cost,
            p_cost,
            keyid: KeyId::EMPTY,
            associated: AssociatedData::EMPTY,
            output_len,
        })
    }

    /// The memory cost in blocks of 1024 bytes. A hash uses [`block_count`](Params::block_count) of
    /// them, which fill all segments evenly.
    pub fn m_cost(&self) -> u32
        ensures value { result ≡ (parameters_of self.now).m_cost }
        ensures valid { AreValid (parameters_of self.now) }
    {
        self.m_cost
    }

    /// The number of passes.
    pub fn t_cost(&self) -> u32
        ensures value { result ≡ (parameters_of self.now).t_cost }
        ensures valid { AreValid (parameters_of self.now) }
    {
        self.t_cost
    }

    /// The number of lanes.
    pub fn p_cost(&self) -> u32
        ensures value { result ≡ (parameters_of self.now).p_cost }
        ensures valid { AreValid (parameters_of self.now) }
    {
        self.p_cost
    }

    /// The key identifier's bytes, 0 to 8.
    pub fn keyid(&self) -> &[u8]
        ensures { AreBytes 8 (parameters_of self.now).keyid result.now }
    {
        self.keyid.as_bytes()
    }

    /// The associated data, 0 to 32 bytes.
    pub fn data(&self) -> &[u8]
        ensures { AreBytes 32 (parameters_of self.now).associated result.now }
    {
        self.associated.as_bytes()
    }

    /// The length that each output has, in bytes, if it is set.
    pub fn output_len(&self) -> Option<usize>
        ensures value { result ≡ (parameters_of self.now).output_len }
        ensures valid { AreValid (parameters_of self.now) }
    {
        self.output_len
    }

    /// The length of the hash in a PHC text that is made under these parameters, in bytes: the output
    /// length, or 32 if none is set.
    pub fn hash_len(&self) -> usize
        ensures value { result ≡ unwrap_or (parameters_of self.now).output_len 32 }
        ensures valid { AreValid (parameters_of self.now) }
    {
        self.output_len.unwrap_or(Params::DEFAULT_OUTPUT_LEN)
    }

    /// Whether a PHC text has room for a hash of [`hash_len`](Params::hash_len) bytes: at most 64.
    pub fn hash_fits_text(&self) -> bool
        ensures value { IsTrue result ↔ (unwrap_or (parameters_of self.now).output_len 32 ≤ 64) }
        ensures valid { AreValid (parameters_of self.now) }
    {
        self.hash_len() <= Output::MAX_LENGTH
    }

    /// The number of blocks that a hash fills: the greatest multiple of 4 times the number of lanes
    /// that is at most the memory cost (RFC 9106, section 3.2).
    pub fn block_count(&self) -> usize
        ensures value { result ≡ block_count_for (parameters_of self.now).m_cost
            (parameters_of self.now).p_cost }
        ensures in_memory { result ≤ (parameters_of self.now).m_cost }
        ensures small { result < 2 ^ 32 }
    {
        (SLICES * self.p_cost * self.segment_length()) as usize
    }

    /// The number of columns of a lane: four segments (RFC 9106, section 3.2, where it is `q`).
    pub fn lane_length(&self) -> u32
        ensures { result ≡ lane_length_for (parameters_of self.now).m_cost
            (parameters_of self.now).p_cost }
    {
        SLICES * self.segment_length()
    }

    /// The number of columns of a segment: the memory cost divided by 4 times the number of lanes,
    /// rounded down (RFC 9106, section 3.4).
    #[tactic(auto, unfolding(crate::specs::Rfc9106::segment_length_for))]
    pub fn segment_length(&self) -> u32
        ensures value { result ≡ segment_length_for (parameters_of self.now).m_cost
            (parameters_of self.now).p_cost }
        ensures lane { 4 * result ≤ (parameters_of self.now).m_cost }
        ensures lanes { (parameters_of self.now).p_cost * (4 * result)
            ≤ (parameters_of self.now).m_cost }
    {
        self.m_cost / (SLICES * self.p_cost)
    }
}

// The first fault of costs and an output length.
fn fault(m_cost: u32, t_cost: u32, p_cost: u32, output_len: Option<usize>) -> Option<Error>
    ensures { result ≡ first_fault m_cost t_cost p_cost output_len }
{
    let len = output_len.unwrap_or(Params::MIN_OUTPUT_LEN);
    if m_cost < Params::MIN_M_COST {
        Some(Error::MemoryTooLittle)
    } else if p_cost < Params::MIN_P_COST {
        Some(Error::ThreadsTooFew)
    } else if p_cost > Params::MAX_P_COST {
        Some(Error::ThreadsTooMany)
    } else if m_cost < 8 * p_cost {
        Some(Error::MemoryTooLittle)
    } else if t_cost < Params::MIN_T_COST {
        Some(Error::TimeTooSmall)
    } else if len < Params::MIN_OUTPUT_LEN {
        Some(Error::OutputTooShort)
    } else if len > Params::MAX_OUTPUT_LEN {
        Some(Error::OutputTooLong)
    } else {
        None
    }
}

impl Default for Params {
    ghost use Rattle.argon2.specs.Settings.{default_parameters};
    ghost use Rattle.argon2.specs.Argon2.{parameters_of};

    ghost is_default = { λ params. parameters_of params ≡ default_parameters };

    fn default() -> Params {
        Params::DEFAULT
    }
}
