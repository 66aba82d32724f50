//! Salts and outputs, and the strict Base64 of bytes.

ghost use Rattle.std.specs.Prelude.{◌≡◌, ℕ, List, ◌<◌, ◌≤◌, ◌*◌, Some, IfOk, MatchResult, ⊤, length, nat_eq};
ghost use Rattle.std.specs.Cmp.{partial_equiv_from_equiv};
ghost use Rattle.std.specs.Cmp.Lexicographic.{pointwise, nat_list_eq_equiv};
ghost use Rattle.argon2_base.specs.ByteList.{list_bytes};
ghost use Rattle.argon2_base.specs.PhcText.{HasBytes};
ghost use Rattle.argon2_base.specs.Texts.{strict_base64};
ghost use Rattle.argon2_base.specs.declared.error.password_hash.Error.TheVariants.{SaltInvalid, OutputSize};

use super::compare::are_equal;
use crate::byte_list::ByteList;
use crate::error::password_hash::{Error, Result};
use arrayvec::ArrayString;
use base64::engine::general_purpose::STANDARD_NO_PAD;
use std::alloc::AllocError;
use std::convert::AsSlice;
use std::marker::Model;
use std::{fmt, str};

/// From `MIN_LEN` to `MAX_LEN` bytes of a PHC text.
#[derive(Drop)]
pub struct TextBytes<const MIN_LEN: usize, const MAX_LEN: usize> {
    pub(super) bytes: ByteList<MAX_LEN>,
}

impl<const MIN_LEN: usize, const MAX_LEN: usize> Model for TextBytes<MIN_LEN, MAX_LEN> {
    ghost Value = { List ℕ };

    ghost view = { λ s. list_bytes s.bytes };

    ghost invariant = { λ s. HasBytes MIN_LEN MAX_LEN (list_bytes s.bytes) };
}

impl<const MIN_LEN: usize, const MAX_LEN: usize> TextBytes<MIN_LEN, MAX_LEN> {
    /// The bytes.
    pub fn as_bytes(&self) -> &[u8]
        ensures value { result.now ≡ self.now }
        ensures bytes { HasBytes MIN_LEN MAX_LEN self.now }
    {
        self.bytes.as_bytes()
    }

    /// How many bytes there are: `MIN_LEN` to `MAX_LEN`.
    pub fn len(&self) -> usize
        ensures value { result ≡ length self.now }
        ensures min { MIN_LEN ≤ result }
        ensures max { result ≤ MAX_LEN }
    {
        self.as_bytes().len()
    }
}

impl<const MIN_LEN: usize, const MAX_LEN: usize> AsSlice<u8> for TextBytes<MIN_LEN, MAX_LEN> {
    ghost items = { λ s. s };

    fn as_slice(&self) -> &[u8] {
        self.as_bytes()
    }
}

/// A copy, which allocates nothing and never fails.
impl<const MIN_LEN: usize, const MAX_LEN: usize> Clone for TextBytes<MIN_LEN, MAX_LEN> {
    ghost is_clone = { λ s copy. copy ≡ s };

    ghost is_infallible = { λ _. ⊤ };

    fn clone(&self) -> std::result::Result<TextBytes<MIN_LEN, MAX_LEN>, AllocError> {
        Ok(TextBytes { bytes: self.bytes })
    }
}

/// Two are compared by [`are_equal`].
impl<const MIN_LEN: usize, const MAX_LEN: usize> PartialEq for TextBytes<MIN_LEN, MAX_LEN> {
    ghost eq = { pointwise nat_eq };

    ghost laws = { partial_equiv_from_equiv nat_list_eq_equiv };

    fn eq(&self, other: &Self) -> bool {
        are_equal(self.as_bytes(), other.as_bytes())
    }
}

impl<const MIN_LEN: usize, const MAX_LEN: usize> Eq for TextBytes<MIN_LEN, MAX_LEN> {
    ghost laws = { nat_list_eq_equiv };
}

/// A salt of 8 to 48 bytes.
pub type Salt = TextBytes<8, 48>;

impl Salt {
    /// The fewest bytes that a salt has.
    pub const MIN_LENGTH: usize = 8;

    /// The most bytes that a salt has.
    pub const MAX_LENGTH: usize = 48;

    /// How many bytes a fresh salt has.
    pub const RECOMMENDED_LENGTH: usize = 16;

    /// The salt of these bytes, or `SaltInvalid` if they are fewer than 8 or more than 48.
    pub fn new(bytes: &[u8]) -> Result<Salt>
        ensures value { IfOk result (λ s. s ≡ bytes.now) }
        ensures when { MatchResult result (λ _. (8 ≤ length bytes.now) × (length bytes.now ≤ 48))
            (λ e. (e ≡ SaltInvalid) × (8 ≤ length bytes.now → length bytes.now ≤ 48 → ⊥)) }
    {
        match ByteList::new(bytes) {
            Some(bytes) if bytes.len >= Self::MIN_LENGTH => Ok(TextBytes { bytes }),
            _ => Err(Error::SaltInvalid),
        }
    }

    /// Its strict Base64.
    pub fn text(&self) -> ArrayString<64>
        ensures { result.bytes ≡ strict_base64 self.now }
    {
        base64_text(self.as_bytes())
    }
}

impl fmt::Display for Salt {
    ghost output = { λ s. Some (strict_base64 s) };

    fn fmt<W: fmt::Write>(&self, f: &mut fmt::Formatter<W>) -> fmt::Result {
        f.pad(self.text().as_str())
    }
}

impl fmt::Debug for Salt {
    fn fmt<W: fmt::Write>(&self, f: &mut fmt::Formatter<W>) -> fmt::Result {
        write!(f, "Salt({self})")
    }
}

/// An output of 4 to 64 bytes: the hash of a password.
pub type Output = TextBytes<4, 64>;

impl Output {
    /// The fewest bytes that an output has.
    pub const MIN_LENGTH: usize = 4;

    /// The most bytes that an output has.
    pub const MAX_LENGTH: usize = 64;

    /// The output of these bytes, or `OutputSize` if they are fewer than 4 or more than 64.
    pub fn new(bytes: &[u8]) -> Result<Output>
        ensures value { IfOk result (λ s. s ≡ bytes.now) }
        ensures when { MatchResult result (λ _. (4 ≤ length bytes.now) × (length bytes.now ≤ 64))
            (λ e. (e ≡ OutputSize) × (4 ≤ length bytes.now → length bytes.now ≤ 64 → ⊥)) }
    {
        match ByteList::new(bytes) {
            Some(bytes) if bytes.len >= Self::MIN_LENGTH => Ok(TextBytes { bytes }),
            _ => Err(Error::OutputSize),
        }
    }

    /// Its strict Base64.
    pub fn text(&self) -> ArrayString<86>
        ensures { result.bytes ≡ strict_base64 self.now }
    {
        base64_text(self.as_bytes())
    }
}

impl fmt::Display for Output {
    ghost output = { λ s. Some (strict_base64 s) };

    fn fmt<W: fmt::Write>(&self, f: &mut fmt::Formatter<W>) -> fmt::Result {
        f.pad(self.text().as_str())
    }
}

impl fmt::Debug for Output {
    fn fmt<W: fmt::Write>(&self, f: &mut fmt::Formatter<W>) -> fmt::Result {
        write!(f, "Output({self})")
    }
}

// The strict Base64 of bytes: at most 4 characters for 3 bytes.
#[tactic(auto, using(crate::proofs::phc_lemmas::Base64Lemmas::strict_base64_written))]
pub(super) fn base64_text<const N: usize>(bytes: &[u8]) -> ArrayString<N>
    requires { 4 * length bytes.now ≤ 3 * N }
    ensures { result.bytes ≡ strict_base64 bytes.now }
{
    let mut buffer = [0; N];
    let Ok(len) = STANDARD_NO_PAD.encode_slice(bytes, &mut buffer) else {
        unreachable!();
    };
    let Ok(written) = str::from_utf8(&buffer[..len]) else {
        unreachable!();
    };
    let mut text = ArrayString::new();
    text.push_str(written);
    text
}
