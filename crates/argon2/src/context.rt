//! Hashing by Argon2 (RFC 9106, section 3), on memory that the caller lends or that a call allocates.

ghost use Rattle.std.specs.Prelude.{◌≡◌, ◌≤◌, ⊤, length};
ghost use Rattle.argon2.specs.Refusals.{max_len};

use crate::algorithm::Algorithm;
use crate::params::Params;
use crate::version::Version;
use argon2_base::block::{Block, Words, Work};
use argon2_base::error::{Error, Result};
use std::alloc::{AllocError, Allocator};
use std::fmt;
use std::marker::Model;

mod checks;
mod fill;
mod initial;
mod inputs;
mod memory_block;
mod reference;
mod segments;
mod steps;
mod tag;
mod watch;

use inputs::Context;
use memory_block::MemoryBlock;
pub use segments::Segment;
use watch::Watch;

/// The most bytes of a password.
pub const MAX_PWD_LEN: usize = u32::MAX as usize;

/// The fewest bytes of a salt.
pub const MIN_SALT_LEN: usize = 8;

/// The most bytes of a salt.
pub const MAX_SALT_LEN: usize = u32::MAX as usize;

/// The bytes of a salt that are recommended for hashing passwords (RFC 9106, section 3.1).
pub const RECOMMENDED_SALT_LEN: usize = 16;

/// The most bytes of a secret.
pub const MAX_SECRET_LEN: usize = u32::MAX as usize;

/// The most bytes of the associated data of
/// [`hash_password_into_with_data`](Argon2::hash_password_into_with_data).
pub const MAX_AD_LEN: usize = u32::MAX as usize;

// A secret of at most 4294967295 bytes.
#[derive(Clone, Copy)]
struct Secret<'key> {
    bytes: &'key [u8],
    ghost short: { length bytes.now ≤ max_len },
}

/// What passwords are hashed under: an algorithm, its version, parameters, and a secret if there
/// is one.
#[derive(Drop)]
pub struct Argon2<'key> {
    algorithm: Algorithm,
    version: Version,
    params: Params,
    secret: Option<Secret<'key>>,
}

impl<'key> Model for Argon2<'key> {
    ghost use Rattle.argon2.specs.Settings.{TargetValue};

    ghost Value = { TargetValue };

    ghost use Rattle.argon2.specs.Argon2.{target_inside};

    ghost view = { target_inside };
}

/// A clone makes hashes under the same settings and the same secret. `clone` never fails.
impl<'key> Clone for Argon2<'key> {
    ghost use Rattle.argon2.specs.Argon2.{target_of};

    ghost is_clone = { λ argon2 copy. target_of copy ≡ target_of argon2 };

    ghost is_infallible = { λ _. ⊤ };

    fn clone(&self) -> std::result::Result<Argon2<'key>, AllocError> {
        Ok(self.with_settings(self.algorithm, self.version, self.params))
    }
}

impl<'key> Argon2<'key> {
    ghost use Rattle.std.specs.Prelude.{◌≡◌, ◌+◌, ◌^◌, ◌<◌, ◌≤◌, [], IfOk, IfErr, OnOk, OnErr, length, map, replicate};
    ghost use Rattle.argon2_base.specs.Block.{zero_block};
    ghost use Rattle.argon2_base.specs.declared.error.Error.TheVariants.{OutOfMemory};
    ghost use Rattle.argon2.specs.Argon2.{context_of, context_under, own_parameters, secret_of, settings_of, settings_with, IsKeyed, IsSound, IsWith, parameters_of};
    ghost use Rattle.argon2.specs.Rfc9106.{IsValid, block_count, first_block, tag_of};
    ghost use Rattle.argon2.specs.Layout.{matrix_of};
    ghost use Rattle.argon2.specs.WatchedFilling.{AreReferencePlaces, mixing_calls, place_count};
    ghost use Rattle.argon2.specs.Hashing.{blocks_of, fill_refusal, refusal_of, AsksFirst, ChecksFirst, FillsFront, IsFilled, IsHashed, KeepsRest};
    ghost use Rattle.argon2.specs.Refusals.{answer_unless, associated_refusal, length_refusal};

    /// Hashing with these parameters and no secret. The key identifier of the parameters changes no
    /// hash, as [`key_identifier`](crate::laws::key_identifier) says; their associated data is hashed.
    pub fn new(algorithm: Algorithm, version: Version, params: Params) -> Argon2<'key>
        ensures { IsWith (settings_with algorithm version params) [] result }
    {
        Argon2 {
            algorithm,
            version,
            params,
            secret: None,
        }
    }

    /// Hashing with these parameters and a secret, 0 to 4294967295 bytes. An empty secret gives the
    /// tags of no secret.
    ///
    /// # Errors
    /// [`Error::SecretTooLong`] if the secret is longer.
    pub fn new_with_secret(
        secret: &'key [u8],
        algorithm: Algorithm,
        version: Version,
        params: Params,
    ) -> Result<Argon2<'key>>
        ensures { IsKeyed (settings_with algorithm version params) secret.now result }
    {
        if secret.len() > MAX_SECRET_LEN {
            return Err(Error::SecretTooLong);
        }
        Ok(Argon2 {
            algorithm,
            version,
            params,
            secret: Some(Secret { bytes: secret }),
        })
    }

    /// The algorithm.
    pub fn algorithm(&self) -> Algorithm
        ensures { result ≡ (settings_of self.now).algorithm }
    {
        self.algorithm
    }

    /// The version.
    pub fn version(&self) -> Version
        ensures { result ≡ (settings_of self.now).version }
    {
        self.version
    }

    /// The parameters.
    pub fn params(&self) -> &Params
        ensures value { parameters_of result.now ≡ own_parameters self.now }
        ensures sound { IsSound self.now }
    {
        &self.params
    }

    /// Writes the tag of a password and a salt into `out`. The first
    /// [`block_count`](Params::block_count) blocks of `memory` are then the matrix that it was made
    /// of, whatever they were before, and the others are as they were. No other memory is taken.
    ///
    /// If the parameters set an output length, `out` has exactly that many bytes; else it has 4 to
    /// 4294967295. The password has 0 to 4294967295 bytes, the salt 8 to 4294967295.
    ///
    /// # Errors
    /// The first of these that holds; output and memory are then as before:
    /// - [`Error::OutputTooShort`]: `out` is shorter than the parameters' output length, or than 4
    ///   bytes if they set none.
    /// - [`Error::OutputTooLong`]: `out` is longer than that length, or than 4294967295 bytes.
    /// - [`Error::PwdTooLong`]: the password is longer than 4294967295 bytes.
    /// - [`Error::SaltTooShort`]: the salt is shorter than 8 bytes.
    /// - [`Error::SaltTooLong`]: the salt is longer than 4294967295 bytes.
    /// - [`Error::MemoryTooLittle`]: `memory` has fewer blocks than are filled.
    pub fn hash_password_into_with_memory(
        &self,
        pwd: &[u8],
        salt: &[u8],
        out: &mut [u8],
        memory: &mut [Block],
    ) -> Result<()>
        ensures answer { result ≡ answer_unless (refusal_of self.now (length out.old) pwd.now
            salt.now (length memory.old)) tt }

        ensures hashed { OnOk result (IsHashed self.now pwd.now salt.now out.new memory.old
            memory.new) }

        ensures same { OnErr result ((out.new ≡ out.old) × (memory.new ≡ memory.old)) }
    {
        let data = self.params.data();
        self.hash(data, pwd, salt, out, memory, &mut Watch::nobody())
    }

    /// Writes the tag as [`hash_password_into_with_memory`](Argon2::hash_password_into_with_memory)
    /// does, on the words of blocks, as a C caller lends them, and under this associated data in
    /// place of the parameters': 0 to 4294967295 bytes.
    ///
    /// # Errors
    /// Those of [`hash_password_into_with_memory`](Argon2::hash_password_into_with_memory), in
    /// their order. Output and memory are then as before.
    pub fn hash_password_into_with_words(
        &self,
        associated: &[u8],
        pwd: &[u8],
        salt: &[u8],
        out: &mut [u8],
        memory: &mut [Words],
    ) -> Result<()>
        requires associated { length associated.now ≤ max_len }
        ensures answer { result ≡ answer_unless (refusal_of self.now (length out.old) pwd.now
            salt.now (length memory.old)) tt }

        ensures tag { let context = context_under self.now associated.now in OnOk result
            (out.new ≡ tag_of context pwd.now salt.now (length out.old)) }
        ensures matrix { let context = context_under self.now associated.now in OnOk result
            (blocks_of context memory.new ≡ matrix_of context pwd.now salt.now (length out.old)) }
        ensures rest { let context = context_under self.now associated.now in OnOk result
            (KeepsRest context memory.old memory.new) }

        ensures same { OnErr result ((out.new ≡ out.old) × (memory.new ≡ memory.old)) }
    {
        self.hash(associated, pwd, salt, out, memory, &mut Watch::nobody())
    }

    /// Writes the tag of a password and a salt into `out`, on memory that it allocates: one request to
    /// `alloc` for [`block_count`](Params::block_count) blocks of 1024 bytes, which are freed before
    /// the call returns.
    ///
    /// The lengths of `out`, the password and the salt are as for
    /// [`hash_password_into_with_memory`](Argon2::hash_password_into_with_memory).
    ///
    /// # Errors
    /// The first of these that holds; `out` is then as before:
    /// - [`Error::OutOfMemory`]: the request was refused. It is made before any check.
    /// - the errors of [`hash_password_into_with_memory`](Argon2::hash_password_into_with_memory) except
    ///   [`Error::MemoryTooLittle`], in their order.
    pub fn hash_password_into<A: Allocator>(
        &self,
        alloc: A,
        pwd: &[u8],
        salt: &[u8],
        out: &mut [u8],
    ) -> Result<()>
        ensures answer { AsksFirst (length_refusal (own_parameters self.now).output_len
            (length out.old) (length pwd.now) (length salt.now)) result }

        ensures tag { OnOk result (out.new
            ≡ tag_of (context_of self.now) pwd.now salt.now (length out.old)) }
        ensures same { OnErr result (out.new ≡ out.old) }
    {
        let mut memory = self.zeroed_blocks(alloc)?;
        self.hash_password_into_with_memory(pwd, salt, out, memory.as_mut_slice())
    }

    /// Writes the tag as [`hash_password_into`](Argon2::hash_password_into) does, under this associated
    /// data in place of the parameters': 0 to 4294967295 bytes, where theirs has at most 32. No text
    /// carries such data, so the calls that make and read texts take the parameters'.
    ///
    /// # Errors
    /// The first of these that holds; `out` is then as before:
    /// - [`Error::AdTooLong`]: the data is longer.
    /// - the errors of [`hash_password_into_with_memory`](Argon2::hash_password_into_with_memory) except
    ///   [`Error::MemoryTooLittle`], in their order. Then no memory is requested.
    /// - [`Error::OutOfMemory`]: the request was refused.
    pub fn hash_password_into_with_data<A: Allocator>(
        &self,
        alloc: A,
        associated: &[u8],
        pwd: &[u8],
        salt: &[u8],
        out: &mut [u8],
    ) -> Result<()>
        ensures answer { ChecksFirst (associated_refusal (length associated.now)
            (own_parameters self.now).output_len
            (length out.old) (length pwd.now) (length salt.now)) result }

        ensures tag { let context = context_under self.now associated.now in OnOk result
            (out.new ≡ tag_of context pwd.now salt.now (length out.old)) }

        ensures same { OnErr result (out.new ≡ out.old) }
    {
        if associated.len() > MAX_AD_LEN {
            return Err(Error::AdTooLong);
        }
        self.check(out.len(), pwd, salt, self.block_count())?;
        let mut memory = self.zeroed_blocks(alloc)?;
        let blocks = memory.as_mut_slice();
        self.hash(associated, pwd, salt, out, blocks, &mut Watch::nobody())
    }

    /// Writes the tag as [`hash_password_into_with_memory`](Argon2::hash_password_into_with_memory)
    /// does, and into `positions` which block each block refers to. Returns how often two blocks
    /// were mixed: once for each block except columns 0 and 1 of pass 0, and twice for each
    /// address block (RFC 9106, section 3.4.1.2). One address block serves 128 columns of a segment.
    ///
    /// `positions` has an entry for each block of each pass. If a lane has q columns, the block of a
    /// lane and a column is at place lane * q + column of the memory. If there are b blocks, entry
    /// pass * b + place is the place of the block that it refers to in this pass. The entries of
    /// columns 0 and 1 of pass 0 stay as they were.
    ///
    /// # Errors
    /// Those of [`hash_password_into_with_memory`](Argon2::hash_password_into_with_memory) in their
    /// order; output, memory and positions are then as before.
    pub fn hash_password_into_watched(
        &self,
        pwd: &[u8],
        salt: &[u8],
        out: &mut [u8],
        memory: &mut [Block],
        positions: &mut [u32],
    ) -> Result<Work>
        requires { length positions.old ≡ place_count (context_of self.now) }
        ensures answer { result ≡ answer_unless (refusal_of self.now (length out.old) pwd.now
            salt.now (length memory.old)) (mixing_calls (context_of self.now)) }

        ensures hashed { OnOk result (IsHashed self.now pwd.now salt.now out.new memory.old
            memory.new) }
        ensures positions { let context = context_of self.now in OnOk result (AreReferencePlaces context
            (first_block context pwd.now salt.now (length out.old)) positions.old positions.new) }

        ensures same { OnErr result ((out.new ≡ out.old) × (memory.new ≡ memory.old)
            × (positions.new ≡ positions.old)) }
    {
        let mut watch = Watch::new(positions, Work::new());
        self.hash(self.params.data(), pwd, salt, out, memory, &mut watch)?;
        Ok(watch.into_work())
    }

    /// Fills the first [`block_count`](Params::block_count) blocks of `memory` as a hash of a
    /// password and a salt for an output of no bytes does. The others are as they were.
    ///
    /// # Errors
    /// The first of these that holds; the memory is then as before:
    /// - [`Error::PwdTooLong`]: the password is longer than 4294967295 bytes.
    /// - [`Error::SaltTooShort`]: the salt is shorter than 8 bytes.
    /// - [`Error::SaltTooLong`]: the salt is longer than 4294967295 bytes.
    /// - [`Error::MemoryTooLittle`]: `memory` has fewer blocks than are filled.
    pub fn fill_memory(&self, pwd: &[u8], salt: &[u8], memory: &mut [Block]) -> Result<()>
        ensures answer { result
            ≡ answer_unless (fill_refusal self.now pwd.now salt.now (length memory.old)) tt }
        ensures filled { OnOk result (IsFilled self.now pwd.now salt.now 0 memory.old memory.new) }
        ensures same { OnErr result (memory.new ≡ memory.old) }
    {
        self.check_filling(pwd, salt, memory.len())?;
        self.context()
            .fill_blocks(pwd, salt, 0, memory, &mut Watch::nobody());
        Ok(())
    }

    /// Fills memory as [`fill_memory`](Argon2::fill_memory) does, on the words of blocks, as a C caller lends
    /// them, and under this associated data in place of the parameters': 0 to 4294967295 bytes.
    ///
    /// # Errors
    /// Those of [`fill_memory`](Argon2::fill_memory), in their order. The memory is then as before.
    pub fn fill_memory_with_words(
        &self,
        associated: &[u8],
        pwd: &[u8],
        salt: &[u8],
        memory: &mut [Words],
    ) -> Result<()>
        requires associated { length associated.now ≤ max_len }
        ensures answer { result
            ≡ answer_unless (fill_refusal self.now pwd.now salt.now (length memory.old)) tt }
        ensures matrix { let context = context_under self.now associated.now in OnOk result
            (blocks_of context memory.new ≡ matrix_of context pwd.now salt.now 0) }
        ensures rest { let context = context_under self.now associated.now in OnOk result
            (KeepsRest context memory.old memory.new) }
        ensures same { OnErr result (memory.new ≡ memory.old) }
    {
        self.check_filling(pwd, salt, memory.len())?;
        let context = Context::new(self, associated);
        context.fill_blocks(pwd, salt, 0, memory, &mut Watch::nobody());
        Ok(())
    }

    // Hashes on lent memory, under this associated data: the body of all such calls.
    fn hash<B: MemoryBlock>(
        &self,
        associated: &[u8],
        pwd: &[u8],
        salt: &[u8],
        out: &mut [u8],
        memory: &mut [B],
        watch: &mut Watch,
    ) -> Result<()>
        requires associated { length associated.now ≤ max_len }
        requires count { watch.old.work < 2 ^ 126 }
        ensures answer { result ≡ answer_unless (refusal_of self.now (length out.old) pwd.now
            salt.now (length memory.old)) tt }
        ensures valid { OnOk result (IsValid (context_of self.now)) }
        ensures tag { let context = context_under self.now associated.now in OnOk result
            (out.new ≡ tag_of context pwd.now salt.now (length out.old)) }
        ensures filled { let context = context_under self.now associated.now in OnOk result
            (FillsFront context pwd.now salt.now (length out.old) (map B.words memory.old)
            (map B.words memory.new) watch.old.positions.now watch.new.positions.now) }
        ensures list { watch.new.positions.ghost_name ≡ watch.old.positions.ghost_name }
        ensures count { let context = context_under self.now associated.now in OnOk result
            (watch.new.work ≡ watch.old.work + mixing_calls context) }
        ensures same { OnErr result ((out.new ≡ out.old) × (memory.new ≡ memory.old)
            × (watch.new ≡ watch.old)) }
    {
        self.check(out.len(), pwd, salt, memory.len())?;
        let context = Context::new(self, associated);
        context.fill_blocks(pwd, salt, out.len() as u32, memory, watch);
        let blocks = &memory[..context.block_count()];
        context.write_tag(context.lane_length(), blocks, out);
        Ok(())
    }

    // Allocates the blocks that a hash fills, by one request, and sets them to zero. `resize` makes each block at its
    // place, while `vec!` would copy it there.
    fn zeroed_blocks<A: Allocator>(&self, alloc: A) -> Result<Vec<Block, A>>
        ensures zeroed { IfOk result (λ blocks. blocks.items
            ≡ replicate (block_count (context_of self.now)) zero_block) }
        ensures refused { IfErr result (λ e. e ≡ OutOfMemory) }
    {
        let mut blocks = Vec::new(alloc);
        blocks.resize(self.block_count(), Block::new())?;
        Ok(blocks)
    }

    // The number of blocks that a hash fills.
    fn block_count(&self) -> usize
        ensures value { result ≡ block_count (context_of self.now) }
    {
        self.params.block_count()
    }

    // The secret's bytes.
    fn secret(&self) -> &'key [u8]
        ensures value { result.now ≡ secret_of self.now }
        ensures short { length result.now ≤ MAX_SECRET_LEN }
    {
        match self.secret {
            Some(secret) => secret.bytes,
            None => &[],
        }
    }

    // An `Argon2` with other settings and the same secret.
    pub(crate) fn with_settings(
        &self,
        algorithm: Algorithm,
        version: Version,
        params: Params,
    ) -> Argon2<'key>
        ensures { IsWith (settings_with algorithm version params) (secret_of self.now) result }
    {
        Argon2 {
            algorithm,
            version,
            params,
            secret: self.secret,
        }
    }

    // The context that blocks are filled under.
    fn context(&self) -> Context<'_>
        ensures value { result ≡ context_of self.now }
        ensures valid { IsValid (context_of self.now) }
        ensures associated { length (context_of self.now).associated ≤ 32 }
        ensures sound { IsSound self.now }
    {
        let params = self.params();
        Context::new(self, params.data())
    }
}

impl Default for Argon2<'_> {
    ghost use Rattle.std.specs.Prelude.{[]};
    ghost use Rattle.argon2.specs.Argon2.{IsWith, argon2id_with};
    ghost use Rattle.argon2.specs.Settings.{default_parameters};

    ghost is_default = { IsWith (argon2id_with default_parameters) [] };

    /// Argon2id of version 0x13 with the default parameters and no secret.
    fn default() -> Self {
        Argon2::from(Params::default())
    }
}

impl From<Params> for Argon2<'_> {
    ghost use Rattle.std.specs.Prelude.{[]};
    ghost use Rattle.argon2.specs.Argon2.{IsWith, argon2id_with, parameters_of};

    ghost from_gives = { λ params. IsWith (argon2id_with (parameters_of params)) [] };

    /// Argon2id of version 0x13 with these parameters and no secret.
    fn from(params: Params) -> Self {
        Argon2::new(Algorithm::default(), Version::default(), params)
    }
}

impl From<&Params> for Argon2<'_> {
    ghost use Rattle.std.specs.Prelude.{[]};
    ghost use Rattle.argon2.specs.Argon2.{IsWith, argon2id_with, parameters_of};

    ghost from_gives = { λ params. IsWith (argon2id_with (parameters_of params.now)) [] };

    /// Argon2id of version 0x13 with these parameters and no secret.
    fn from(params: &Params) -> Self {
        Argon2::from(*params)
    }
}

/// Shows neither the secret nor whether there is one.
impl fmt::Debug for Argon2<'_> {
    fn fmt<W: fmt::Write>(&self, f: &mut fmt::Formatter<W>) -> fmt::Result {
        f.debug_struct("Argon2")
            .field("algorithm", &self.algorithm)
            .field("version", &self.version)
            .field("params", &self.params)
            .finish_non_exhaustive()
    }
}
