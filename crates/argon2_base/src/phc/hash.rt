//! Whole PHC texts.

ghost use Rattle.std.specs.Prelude.{◌≡◌, ◌↔◌, ◌<◌, ◌≤◌, ◌+◌, ◌++◌, ◌∷◌, Some, IfOk, IfErr, IsOkAnd, IsTrue, MatchResult, ⊤, length};
ghost use Rattle.std.specs.Cmp.{on_equiv, on_per, partial_equiv_from_equiv};
ghost use Rattle.std.proofs.Props.{props};
ghost use Rattle.arrayvec.specs.ArrayString.{array_string_len};
ghost use Rattle.argon2_base.specs.PhcText.{IsPhc, Phc, IsPhcText, phc_with, field, fields_text, list_field, phc_eq, phc_eq_equiv, version_text};
ghost use Rattle.argon2_base.specs.declared.error.password_hash.Error.TheVariants.{EncodingInvalid};

use super::bytes::{Output, Salt};
use super::fields::{first_field, params_field, salt_and_hash, version_field};
use super::ident::Ident;
use super::list::ParamsString;
use super::value::decimal_text;
use crate::error::password_hash::{Error, Result};
use arrayvec::ArrayString;
use std::alloc::AllocError;
use std::fmt;
use std::str::FromStr;

/// The text of a hash, in place: it allocates nothing, and is `Copy`. The longest has 326 bytes.
pub type Text = ArrayString<326>;

/// What a PHC text says, which is in the grammar by this type: there is no hash without a salt.
#[derive(Debug, Drop)]
pub struct PasswordHash {
    /// The identifier of the algorithm.
    pub algorithm: Ident,
    /// The version, if the text has one.
    pub version: Option<u32>,
    /// The parameters.
    pub params: ParamsString,
    /// The salt, if the text has one.
    pub salt: Option<Salt>,
    /// The hash, if the text has one.
    pub hash: Option<Output>,
    ghost grammatical: { IsPhc
        (phc_with algorithm version params salt hash) } by { Prim.hlevel props },
}

impl PasswordHash {
    ghost use Rattle.argon2_base.specs.PhcFields.{phc_of};

    /// What a PHC text says, or `EncodingInvalid` if it is outside the grammar.
    pub fn new(text: &str) -> Result<PasswordHash>
        ensures found { IfOk result (λ h. IsPhcText text.now (phc_of h)) }
        ensures only { (v : Phc) → IsPhcText text.now v → IsOkAnd result (λ h. phc_of h ≡ v) }
        ensures invalid { IfErr result (λ e. e ≡ EncodingInvalid) }
    {
        let Some(text) = text.strip_prefix('$') else {
            return Err(Error::EncodingInvalid);
        };
        let (first, left) = first_field(text);
        let algorithm = Ident::new(first)?;
        let (version, left) = version_field(left)?;
        let (params, left) = params_field(left)?;
        let (salt, hash) = salt_and_hash(left)?;
        Ok(PasswordHash {
            algorithm,
            version,
            params,
            salt,
            hash,
        })
    }

    /// The text that says it, which [`PasswordHash::new`] reads as the same.
    pub fn text(&self) -> Text
        ensures { IsPhcText result.bytes (phc_of self.now) }
    {
        let mut text = ArrayString::new();
        push_field(&mut text, self.algorithm.as_str());
        push_version(&mut text, self.version);
        push_params(&mut text, &self.params);
        push_base64(&mut text, self.salt.as_ref().map(Salt::text));
        push_base64(&mut text, self.hash.as_ref().map(Output::text));
        text
    }
}

/// A copy, which allocates nothing and never fails.
impl Clone for PasswordHash {
    ghost use Rattle.argon2_base.specs.PhcFields.{phc_of};

    ghost is_clone = { λ h copy. phc_of copy ≡ phc_of h };

    ghost is_infallible = { λ _. ⊤ };

    fn clone(&self) -> std::result::Result<PasswordHash, AllocError> {
        Ok(PasswordHash {
            algorithm: self.algorithm,
            version: self.version,
            params: self.params.clone()?,
            salt: self.salt.clone()?,
            hash: self.hash.clone()?,
        })
    }
}

/// Reads a text as [`PasswordHash::new`] does.
impl FromStr for PasswordHash {
    ghost use Rattle.argon2_base.specs.PhcFields.{phc_of};

    type Err = Error;

    ghost from_str_gives = { λ text r.
        MatchResult r (λ h. IsPhcText text (phc_of h)) (λ e. e ≡ EncodingInvalid)
        × ((v : Phc) → IsPhcText text v → IsOkAnd r (λ h. phc_of h ≡ v)) };

    fn from_str(text: &str) -> Result<PasswordHash> {
        PasswordHash::new(text)
    }
}

/// Two are equal if they say the same.
impl PartialEq for PasswordHash {
    ghost use Rattle.argon2_base.specs.PhcFields.{phc_of};

    ghost eq = { λ a b. phc_eq (phc_of a) (phc_of b) };

    ghost laws = { on_per phc_of (partial_equiv_from_equiv phc_eq_equiv) };

    fn eq(&self, other: &Self) -> bool
        ensures value { result ≡ phc_eq (phc_of self.now) (phc_of other.now) }
        ensures same { IsTrue result ↔ (phc_of self.now ≡ phc_of other.now) }
    {
        self.algorithm == other.algorithm
            && self.version == other.version
            && self.params == other.params
            && self.salt == other.salt
            && self.hash == other.hash
    }
}

impl Eq for PasswordHash {
    ghost use Rattle.argon2_base.specs.PhcFields.{phc_of};

    ghost laws = { on_equiv phc_of phc_eq_equiv };
}

impl fmt::Display for PasswordHash {
    ghost use Rattle.argon2_base.specs.PhcFields.{text_of};

    ghost output = { λ h. Some (text_of h) };

    fn fmt<W: fmt::Write>(&self, f: &mut fmt::Formatter<W>) -> fmt::Result {
        f.pad(self.text().as_str())
    }
}

// Appends a field after its `$`.
fn push_field(text: &mut Text, field: &str)
    requires { array_string_len text.old + length field.now < 326 }
    ensures bytes { text.new.bytes ≡ text.old.bytes ++ 36 ∷ field.now }
    ensures len { array_string_len text.new ≡ array_string_len text.old + length field.now + 1 }
{
    text.push('$');
    text.push_str(field);
}

// Appends the field of a version.
fn push_version(text: &mut Text, version: Option<u32>)
    requires { array_string_len text.old ≤ 313 }
    ensures bytes { text.new.bytes ≡ text.old.bytes ++ fields_text (field version_text version) }
    ensures max { array_string_len text.new ≤ array_string_len text.old + 13 }
{
    if let Some(version) = version {
        text.push_str("$v=");
        text.push_str(decimal_text(version).as_str());
    }
}

// Appends the field of parameters.
fn push_params(text: &mut Text, params: &ParamsString)
    requires { array_string_len text.old ≤ 198 }
    ensures bytes { text.new.bytes ≡ text.old.bytes ++ fields_text (list_field params.now) }
    ensures max { array_string_len text.new ≤ array_string_len text.old + 128 }
{
    if !params.is_empty() {
        push_field(text, params.as_str());
    }
}

// Appends the field of bytes, given their Base64.
fn push_base64<const N: usize>(text: &mut Text, base64: Option<ArrayString<N>>)
    requires { array_string_len text.old + N < 326 }
    ensures bytes { text.new.bytes
        ≡ text.old.bytes ++ fields_text (field (λ t. t.bytes) base64.entry) }
    ensures max { array_string_len text.new ≤ array_string_len text.old + N + 1 }
{
    if let Some(base64) = base64 {
        push_field(text, base64.as_str());
    }
}
