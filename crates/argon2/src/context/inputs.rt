//! The context of a hash: its inputs except for the password, the salt and the length of the output.

ghost use Rattle.std.specs.Prelude.{◌≡◌, ◌+◌, ◌*◌, ◌^◌, ◌<◌, ◌≤◌, ◌&&◌, ◌==◌, IsNone, None, length, nat_lt};
ghost use Rattle.argon2.specs.Settings.{algorithm_number, first_fault, version_number};
ghost use Rattle.argon2.specs.Rfc9106.{Context, IsValid, block_count, lane_length, segment_length, segment_length_for};
ghost use Rattle.argon2.specs.Argon2.{context_of, context_under};
ghost use Rattle.argon2.specs.Layout.{IsSize};
ghost use Rattle.argon2.specs.Refusals.{max_len};

use super::Argon2;
use crate::params::SLICES;
use crate::{Algorithm, Version};
use std::marker::Model;

/// A variant with its costs and its keys, and the shape of the memory that follows from them. Contracts see
/// it as the record `Context` of specs/Rfc9106.antt.
#[derive(Drop)]
pub(super) struct Context<'a> {
    algorithm: Algorithm,
    pub(super) version: Version,
    pub(super) m_cost: u32,
    t_cost: u32,
    p_cost: u32,
    segment_length: u32,
    pub(super) secret: &'a [u8],
    pub(super) associated: &'a [u8],
}

impl<'a> Model for Context<'a> {
    ghost Value = { Context };

    ghost view = { λ a. record {
      algorithm = algorithm_number a.algorithm;
      version = version_number a.version;
      m_cost = a.m_cost;
      t_cost = a.t_cost;
      p_cost = a.p_cost;
      secret = a.secret.now;
      associated = a.associated.now;
    } };

    ghost invariant = { λ a. IsNone (first_fault a.m_cost a.t_cost a.p_cost None)
        × (a.segment_length ≡ segment_length_for a.m_cost a.p_cost)
        × (length a.secret.now < 2 ^ 32) × (length a.associated.now < 2 ^ 32) };
}

impl<'a> Context<'a> {
    /// The context of an `Argon2`, with this associated data in place of its parameters' data.
    pub(super) fn new(argon2: &'a Argon2<'_>, associated: &'a [u8]) -> Context<'a>
        requires { length associated.now ≤ max_len }
        ensures value { result ≡ context_under argon2.now associated.now }
        ensures valid { IsValid (context_of argon2.now) }
    {
        let params = &argon2.params;
        Context {
            algorithm: argon2.algorithm,
            version: argon2.version,
            m_cost: params.m_cost(),
            t_cost: params.t_cost(),
            p_cost: params.p_cost(),
            segment_length: params.segment_length(),
            secret: argon2.secret(),
            associated,
        }
    }

    /// The number of lanes.
    pub(super) fn lanes(&self) -> u32
        ensures { IsSize (λ context. context.p_cost) self.now result }
    {
        self.p_cost
    }

    /// The number of passes.
    pub(super) fn passes(&self) -> u32
        ensures { IsSize (λ context. context.t_cost) self.now result }
    {
        self.t_cost
    }

    /// The columns of a segment.
    pub(super) fn segment_length(&self) -> u32
        ensures { IsSize segment_length self.now result }
    {
        self.segment_length
    }

    /// The columns of a lane.
    pub(super) fn lane_length(&self) -> u32
        ensures { IsSize lane_length self.now result }
    {
        SLICES * self.segment_length()
    }

    /// The blocks of all lanes.
    pub(crate) fn block_count(&self) -> usize
        ensures { IsSize block_count self.now result }
    {
        (self.lanes() * self.lane_length()) as usize
    }

    /// The place of a lane's column in a memory that lies lane after lane.
    #[tactic(auto, using(crate::proofs::context_lemmas::InMemory::place_below))]
    pub(super) fn place(&self, lane: u32, column: u32) -> u32
        requires in_lanes { lane < self.now.p_cost }
        requires in_columns { column < lane_length self.now }
        ensures value { result ≡ lane * lane_length self.now + column }
        ensures within { result < block_count self.now }
    {
        lane * self.lane_length() + column
    }

    /// The variant.
    pub(super) fn algorithm(&self) -> Algorithm
        ensures { algorithm_number result ≡ self.now.algorithm }
    {
        self.algorithm
    }

    /// The variant's number.
    pub(super) fn algorithm_number(&self) -> u32
        ensures { result ≡ self.now.algorithm }
    {
        self.algorithm as u32
    }

    /// Whether a block of a pass is xored with the block that it replaces, of the pass before.
    pub(super) fn xors(&self, pass: u32) -> bool
        ensures { result ≡ ((self.now.version == 19) && nat_lt 0 pass) }
    {
        match self.version {
            Version::V0x10 => false,
            Version::V0x13 => pass > 0,
        }
    }
}
