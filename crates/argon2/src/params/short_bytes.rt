//! Key identifiers and associated data.

ghost use Rattle.std.specs.Prelude.{◌≡◌, ◌↔◌, [], IsTrue, length};
ghost use Rattle.argon2_base.specs.Texts.{IsBytes};
ghost use Rattle.argon2_base.specs.ByteList.{base64_length, list_bytes};
ghost use Rattle.argon2_base.specs.declared.error.Error.TheVariants.{AdTooLong, KeyIdTooLong};

use argon2_base::byte_list::ByteList;
use argon2_base::error::{Error, Result};
use std::convert::AsSlice;
use std::fmt;
use std::str::FromStr;

/// 0 to `MAX_LEN` bytes of parameters. Two are equal, ordered and hashed as their bytes are, so a prefix
/// comes before the longer bytes.
#[derive(Clone, Copy, PartialEq, Eq, PartialOrd, Ord, Hash)]
pub struct ShortBytes<const MAX_LEN: usize> {
    bytes: ByteList<MAX_LEN>,
    ghost are_bytes: { IsBytes (list_bytes bytes) },
}

impl<const MAX_LEN: usize> ShortBytes<MAX_LEN> {
    ghost use Rattle.argon2.specs.Params.{AreBytes, IsOfBytes, IsOfText};
    ghost use Rattle.argon2.specs.Argon2.{own_bytes};

    // These bytes, or this error if they are more than `MAX_LEN`.
    fn of_bytes(source: &[u8], fault: Error) -> Result<Self>
        ensures { IsOfBytes own_bytes MAX_LEN fault source.now result }
    {
        match ByteList::new(source) {
            Some(bytes) => Ok(ShortBytes { bytes }),
            None => Err(fault),
        }
    }

    /// The bytes whose Base64 the text is (RFC 4648, section 4), without padding and with the unused
    /// last bits zero.
    ///
    /// # Errors
    /// [`Error::B64Encoding`], of `InvalidLength` if the text is longer than the Base64 of `MAX_LEN` bytes,
    /// else of `InvalidEncoding` if it is the Base64 of no bytes.
    pub fn from_b64(text: &str) -> Result<Self>
        ensures { IsOfText own_bytes (base64_length MAX_LEN) text.now result }
    {
        let bytes = ByteList::from_b64(text)?;
        Ok(ShortBytes { bytes })
    }

    /// The bytes.
    pub fn as_bytes(&self) -> &[u8]
        ensures { AreBytes MAX_LEN (own_bytes self.now) result.now }
    {
        self.bytes.as_bytes()
    }

    /// The number of bytes.
    pub fn len(&self) -> usize
        ensures { result ≡ length (own_bytes self.now) }
    {
        self.as_bytes().len()
    }

    /// Whether there are no bytes.
    pub fn is_empty(&self) -> bool
        ensures { IsTrue result ↔ (own_bytes self.now ≡ []) }
    {
        self.as_bytes().is_empty()
    }
}

impl<const MAX_LEN: usize> Default for ShortBytes<MAX_LEN> {
    ghost use Rattle.argon2.specs.Argon2.{own_bytes};

    ghost is_default = { λ bytes. own_bytes bytes ≡ [] };

    fn default() -> Self {
        let bytes = ByteList {
            bytes: [0; MAX_LEN],
            len: 0,
        };
        ShortBytes { bytes }
    }
}

impl<const MAX_LEN: usize> AsSlice<u8> for ShortBytes<MAX_LEN> {
    ghost use Rattle.argon2.specs.Argon2.{own_bytes};

    ghost items = { own_bytes };

    fn as_slice(&self) -> &[u8] {
        self.as_bytes()
    }
}

impl<const MAX_LEN: usize> FromStr for ShortBytes<MAX_LEN> {
    ghost use Rattle.argon2.specs.Params.{IsOfText};
    ghost use Rattle.argon2.specs.Argon2.{own_bytes};

    type Err = Error;

    ghost from_str_gives = { IsOfText own_bytes (base64_length MAX_LEN) };

    fn from_str(text: &str) -> Result<Self> {
        ShortBytes::from_b64(text)
    }
}

/// A key identifier: 0 to 8 bytes, which distinguish keys and enter no hash. Its Base64 has at most 11
/// characters.
pub type KeyId = ShortBytes<8>;

impl KeyId {
    ghost use Rattle.argon2.specs.Params.{IsOfBytes};
    ghost use Rattle.argon2.specs.Argon2.{keyid_bytes};

    /// The most bytes of a key identifier.
    pub const MAX_LEN: usize = 8;

    /// The key identifier of no bytes.
    pub const EMPTY: KeyId = ShortBytes {
        bytes: ByteList {
            bytes: [0; 8],
            len: 0,
        },
    };

    /// The key identifier of these bytes. More than 8 are [`Error::KeyIdTooLong`].
    pub fn new(source: &[u8]) -> Result<KeyId>
        ensures { IsOfBytes keyid_bytes 8 KeyIdTooLong source.now result }
    {
        ShortBytes::of_bytes(source, Error::KeyIdTooLong)
    }
}

impl TryFrom<&[u8]> for KeyId {
    ghost use Rattle.argon2.specs.Params.{IsOfBytes};
    ghost use Rattle.argon2.specs.Argon2.{keyid_bytes};

    type Error = Error;

    ghost try_from_gives = { λ source r. IsOfBytes keyid_bytes 8 KeyIdTooLong source.now r };

    fn try_from(source: &[u8]) -> Result<KeyId> {
        KeyId::new(source)
    }
}

impl fmt::Debug for KeyId {
    fn fmt<W: fmt::Write>(&self, f: &mut fmt::Formatter<W>) -> fmt::Result {
        f.debug_struct("KeyId").field("bytes", &self.bytes).finish()
    }
}

/// Associated data: 0 to 32 bytes that every hash depends on, the `X` of RFC 9106, section 3.1. Its
/// Base64 has at most 43 characters.
pub type AssociatedData = ShortBytes<32>;

impl AssociatedData {
    ghost use Rattle.argon2.specs.Params.{IsOfBytes};
    ghost use Rattle.argon2.specs.Argon2.{associated_bytes};

    /// The most bytes of associated data.
    pub const MAX_LEN: usize = 32;

    /// The associated data of no bytes.
    pub const EMPTY: AssociatedData = ShortBytes {
        bytes: ByteList {
            bytes: [0; 32],
            len: 0,
        },
    };

    /// The associated data of these bytes. More than 32 are [`Error::AdTooLong`].
    pub fn new(source: &[u8]) -> Result<AssociatedData>
        ensures { IsOfBytes associated_bytes 32 AdTooLong source.now result }
    {
        ShortBytes::of_bytes(source, Error::AdTooLong)
    }
}

impl TryFrom<&[u8]> for AssociatedData {
    ghost use Rattle.argon2.specs.Params.{IsOfBytes};
    ghost use Rattle.argon2.specs.Argon2.{associated_bytes};

    type Error = Error;

    ghost try_from_gives = { λ source r. IsOfBytes associated_bytes 32 AdTooLong source.now r };

    fn try_from(source: &[u8]) -> Result<AssociatedData> {
        AssociatedData::new(source)
    }
}

impl fmt::Debug for AssociatedData {
    fn fmt<W: fmt::Write>(&self, f: &mut fmt::Formatter<W>) -> fmt::Result {
        f.debug_struct("AssociatedData")
            .field("bytes", &self.bytes)
            .finish()
    }
}
