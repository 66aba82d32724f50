//! Byte lists of a fixed capacity. Identifiers, salts, outputs, key identifiers and associated data
//! are such lists.

ghost use Rattle.std.specs.Prelude.{◌≡◌, ◌<◌, ◌≤◌, ◌-◌, Some, MatchOption, drop, length, nat_eq, refl, replicate};
ghost use Rattle.std.specs.Cmp.{on_equiv, on_per, on_po, on_total, partial_equiv_from_equiv};
ghost use Rattle.std.specs.Cmp.Lexicographic.{nat_list_cmp_total, nat_list_eq_equiv, pointwise, slice_cmp, texts_po, texts_ties};
ghost use Rattle.std.specs.Cmp.Rules.{hashing};
ghost use Rattle.std.specs.Hash as fed;
ghost use Rattle.std.specs.Ordering.{nat_cmp};
ghost use Rattle.std.proofs.Common.{rules};

use crate::error::B64Error;
use base64::engine::general_purpose::STANDARD_NO_PAD;
use std::cmp::Ordering;
use std::fmt;
use std::hash::{Hash, Hasher};

/// At most `N` bytes. Two are equal, ordered and hashed as the slices of their bytes are.
#[derive(Clone, Copy)]
pub struct ByteList<const N: usize> {
    pub bytes: [u8; N],
    pub len: usize,
    ghost fits: { len ≤ N },
    // One list of bytes is one value.
    ghost zeros: { drop len bytes ≡ replicate (N - len) 0 },
}

impl<const N: usize> ByteList<N> {
    ghost use Rattle.argon2_base.specs.ByteList.{IsListOfText, list_bytes};

    /// The list of these bytes, if they fit.
    pub fn new(source: &[u8]) -> Option<Self>
        ensures { MatchOption result (N < length source.now)
            (λ list. list_bytes list ≡ source.now) }
    {
        if source.len() > N {
            return None;
        }
        let mut bytes = [0; N];
        bytes[..source.len()].copy_from_slice(source);
        Some(ByteList {
            bytes,
            len: source.len(),
        })
    }

    /// The list whose strict Base64 the text is. `InvalidLength` if the text is longer than the Base64
    /// of `N` bytes, else `InvalidEncoding` if it is the strict Base64 of no bytes.
    pub fn from_b64(text: &str) -> Result<Self, B64Error>
        ensures { IsListOfText text.now result }
    {
        if 3 * text.len() as u128 > 4 * N as u128 + 2 {
            return Err(B64Error::InvalidLength);
        }
        let mut bytes = [0; N];
        match STANDARD_NO_PAD.decode_slice(text.as_bytes(), &mut bytes) {
            Ok(len) => Ok(ByteList { bytes, len }),
            Err(_) => Err(B64Error::InvalidEncoding),
        }
    }

    /// The bytes.
    pub fn as_bytes(&self) -> &[u8]
        ensures value { result.now ≡ list_bytes self.now }
        ensures fits { length (list_bytes self.now) ≤ N }
    {
        &self.bytes[..self.len]
    }
}

impl<const N: usize> fmt::Debug for ByteList<N> {
    fn fmt<W: fmt::Write>(&self, f: &mut fmt::Formatter<W>) -> fmt::Result {
        fmt::Debug::fmt(&self.as_bytes(), f)
    }
}

impl<const N: usize> PartialEq for ByteList<N> {
    ghost use Rattle.argon2_base.specs.ByteList.{list_bytes};

    ghost eq = { λ a b. pointwise nat_eq (list_bytes a) (list_bytes b) };

    ghost laws = { on_per list_bytes (partial_equiv_from_equiv nat_list_eq_equiv) };

    fn eq(&self, other: &Self) -> bool {
        self.as_bytes() == other.as_bytes()
    }
}

impl<const N: usize> Eq for ByteList<N> {
    ghost use Rattle.argon2_base.specs.ByteList.{list_bytes};

    ghost laws = { on_equiv list_bytes nat_list_eq_equiv };
}

impl<const N: usize> PartialOrd for ByteList<N> {
    ghost use Rattle.argon2_base.specs.ByteList.{list_bytes};

    ghost partial_cmp = { λ a b. Some (slice_cmp nat_cmp (list_bytes a) (list_bytes b)) };

    ghost laws = { on_po list_bytes texts_po };

    fn partial_cmp(&self, other: &Self) -> Option<Ordering> {
        Some(self.cmp(other))
    }
}

impl<const N: usize> Ord for ByteList<N> {
    ghost use Rattle.argon2_base.specs.ByteList.{list_bytes};

    ghost cmp = { λ a b. slice_cmp nat_cmp (list_bytes a) (list_bytes b) };

    ghost total = { on_total list_bytes nat_list_cmp_total };

    ghost matches_partial_cmp = { λ a b. refl };

    ghost matches_eq = { λ a b. texts_ties (list_bytes a) (list_bytes b) };

    fn cmp(&self, other: &Self) -> Ordering {
        self.as_bytes().cmp(&other.as_bytes())
    }
}

impl<const N: usize> Hash for ByteList<N> {
    ghost use Rattle.argon2_base.specs.ByteList.{list_bytes};

    ghost hash_input = { λ list. fed.slice fed.u8 (list_bytes list) };

    ghost respects_eq = { Prim.search (hashing, rules) };

    fn hash<H: Hasher>(&self, state: &mut H) {
        self.as_bytes().hash(state);
    }
}
