//! Identifiers of algorithms, and names of parameters.

ghost use Rattle.std.specs.Prelude.{◌≡◌, IsTrue, false, Some, IfOk, MatchResult};
ghost use Rattle.std.specs.Cmp.Rules.{hashing};
ghost use Rattle.std.specs.Hash as fed;
ghost use Rattle.std.proofs.Common.{rules};
ghost use Rattle.std.specs.List.{list_all};
ghost use Rattle.argon2_base.specs.ByteList.{list_bytes};
ghost use Rattle.argon2_base.specs.Texts.{is_name, is_name_char};
ghost use Rattle.argon2_base.specs.declared.error.password_hash.Error.TheVariants.{EncodingInvalid};

use crate::byte_list::ByteList;
use crate::error::password_hash::{Error, Result};
use std::convert::AsStr;
use std::hash::{Hash, Hasher};
use std::str::FromStr;
use std::{fmt, str};

/// An identifier: 1 to 32 characters of a-z, 0-9 and `-`.
#[derive(Clone, Copy, PartialEq, Eq, PartialOrd, Ord)]
pub struct Ident {
    bytes: ByteList<32>,
    ghost name: { IsTrue (is_name (list_bytes bytes)) },
}

/// `argon2d`.
pub const ARGON2D_IDENT: Ident = Ident {
    bytes: ByteList {
        bytes: *b"argon2d\0\0\0\0\0\0\0\0\0\0\0\0\0\0\0\0\0\0\0\0\0\0\0\0\0",
        len: 7,
    },
};

/// `argon2i`.
pub const ARGON2I_IDENT: Ident = Ident {
    bytes: ByteList {
        bytes: *b"argon2i\0\0\0\0\0\0\0\0\0\0\0\0\0\0\0\0\0\0\0\0\0\0\0\0\0",
        len: 7,
    },
};

/// `argon2id`.
pub const ARGON2ID_IDENT: Ident = Ident {
    bytes: ByteList {
        bytes: *b"argon2id\0\0\0\0\0\0\0\0\0\0\0\0\0\0\0\0\0\0\0\0\0\0\0\0",
        len: 8,
    },
};

fn is_name_byte(c: u8) -> bool
    ensures { result ≡ is_name_char c }
{
    c.is_ascii_lowercase() || c.is_ascii_digit() || c == b'-'
}

fn are_name_bytes(text: &str) -> bool
    ensures { result ≡ list_all is_name_char text.now }
{
    text.bytes().all(|c| is_name_byte(c))
}

// Whether a text is a name.
pub(super) fn is_name_text(text: &str) -> bool
    ensures { result ≡ is_name text.now }
{
    1 <= text.len() && text.len() <= 32 && are_name_bytes(text)
}

impl Ident {
    ghost use Rattle.argon2_base.specs.PhcText.{ident_text};

    /// The identifier with this text, or `EncodingInvalid` if it is none.
    pub fn new(text: &str) -> Result<Ident>
        ensures value { IfOk result (λ i. ident_text i ≡ text.now) }
        ensures when { MatchResult result (λ _. IsTrue (is_name text.now))
            (λ e. (e ≡ EncodingInvalid) × (is_name text.now ≡ false)) }
    {
        match ByteList::new(text.as_bytes()) {
            Some(bytes) if is_name_text(text) => Ok(Ident { bytes }),
            _ => Err(Error::EncodingInvalid),
        }
    }

    /// Its text.
    #[tactic(auto, using(crate::proofs::phc_lemmas::Characters::name_utf8))]
    pub fn as_str(&self) -> &str
        ensures value { result.now ≡ ident_text self.now }
        ensures name { IsTrue (is_name (ident_text self.now)) }
    {
        let Ok(text) = str::from_utf8(self.bytes.as_bytes()) else {
            unreachable!();
        };
        text
    }
}

impl AsStr for Ident {
    ghost use Rattle.argon2_base.specs.PhcText.{ident_text};

    ghost text = { ident_text };

    fn as_str(&self) -> &str {
        self.as_str()
    }
}

impl fmt::Display for Ident {
    ghost use Rattle.argon2_base.specs.PhcText.{ident_text};

    ghost output = { λ i. Some (ident_text i) };

    fn fmt<W: fmt::Write>(&self, f: &mut fmt::Formatter<W>) -> fmt::Result {
        f.pad(self.as_str())
    }
}

impl fmt::Debug for Ident {
    fn fmt<W: fmt::Write>(&self, f: &mut fmt::Formatter<W>) -> fmt::Result {
        fmt::Debug::fmt(&self.as_str(), f)
    }
}

impl FromStr for Ident {
    ghost use Rattle.argon2_base.specs.PhcText.{ident_text};

    type Err = Error;

    ghost from_str_gives = { λ text r. MatchResult r
        (λ i. (ident_text i ≡ text) × IsTrue (is_name text))
        (λ e. (e ≡ EncodingInvalid) × (is_name text ≡ false)) };

    fn from_str(text: &str) -> Result<Ident> {
        Ident::new(text)
    }
}

impl Hash for Ident {
    ghost use Rattle.argon2_base.specs.PhcText.{ident_text};

    ghost hash_input = { λ i. fed.str (ident_text i) };

    ghost respects_eq = { Prim.search (hashing, rules) };

    fn hash<H: Hasher>(&self, state: &mut H) {
        self.as_str().hash(state);
    }
}
