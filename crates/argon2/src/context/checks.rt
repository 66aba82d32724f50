//! Refusals by length: of an output, a password, a salt, or memory.

ghost use Rattle.std.specs.Prelude.{◌≡◌, ◌≤◌, OnOk};
ghost use Rattle.argon2.specs.Argon2.{context_of};
ghost use Rattle.argon2.specs.Rfc9106.{AreShort, block_count};
ghost use Rattle.argon2.specs.Hashing.{fill_refusal, output_refusal, refusal_of, IsOutputLength};
ghost use Rattle.argon2.specs.Refusals.{answer_unless};

use super::{Argon2, MAX_PWD_LEN, MAX_SALT_LEN, MIN_SALT_LEN};
use crate::params::Params;
use argon2_base::error::{Error, Result};

impl Argon2<'_> {
    /// Refuses an output of `out_len` bytes, a password, a salt or memory of `blocks` blocks, by the
    /// first fault.
    pub(super) fn check(&self, out_len: usize, pwd: &[u8], salt: &[u8], blocks: usize) -> Result<()>
        ensures answer { result
            ≡ answer_unless (refusal_of self.now out_len pwd.now salt.now blocks) tt }
        ensures output { OnOk result (IsOutputLength out_len) }
        ensures short { OnOk result (AreShort pwd.now salt.now) }
        ensures room { OnOk result (block_count (context_of self.now) ≤ blocks) }
    {
        self.check_output(out_len)?;
        self.check_filling(pwd, salt, blocks)
    }

    /// Refuses a password, a salt or memory of `blocks` blocks, by the first fault.
    pub(super) fn check_filling(&self, pwd: &[u8], salt: &[u8], blocks: usize) -> Result<()>
        ensures answer { result
            ≡ answer_unless (fill_refusal self.now pwd.now salt.now blocks) tt }
        ensures short { OnOk result (AreShort pwd.now salt.now) }
        ensures room { OnOk result (block_count (context_of self.now) ≤ blocks) }
    {
        if pwd.len() > MAX_PWD_LEN {
            Err(Error::PwdTooLong)
        } else if salt.len() < MIN_SALT_LEN {
            Err(Error::SaltTooShort)
        } else if salt.len() > MAX_SALT_LEN {
            Err(Error::SaltTooLong)
        } else if blocks < self.params.block_count() {
            Err(Error::MemoryTooLittle)
        } else {
            Ok(())
        }
    }

    /// Refuses an output of `len` bytes.
    fn check_output(&self, len: usize) -> Result<()>
        ensures answer { result ≡ answer_unless (output_refusal self.now len) tt }
        ensures fits { OnOk result (IsOutputLength len) }
    {
        let output_len = self.params.output_len();
        if len < output_len.unwrap_or(Params::MIN_OUTPUT_LEN) {
            Err(Error::OutputTooShort)
        } else if len > output_len.unwrap_or(Params::MAX_OUTPUT_LEN) {
            Err(Error::OutputTooLong)
        } else {
            Ok(())
        }
    }
}
