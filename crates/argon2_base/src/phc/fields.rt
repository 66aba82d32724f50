//! The fields of a PHC text, read one by one.
#![tactic(auto, using(crate::proofs::phc_lemmas::PhcTextLemmas::field_steps))]

ghost use Rattle.std.specs.Prelude.{◌≡◌, ◌<◌, ◌^◌, ◌++◌, ◌∷◌, ℕ, List, Option, IfOk, IfErr, IfSome, IsSome, IsOkAnd, IsTrue};
ghost use Rattle.argon2_base.specs.Texts.{strict_base64};
ghost use Rattle.argon2_base.specs.PhcText.{HasBytes, Pair, are_params, field, list_field, version_text};
ghost use Rattle.argon2_base.specs.PhcFields.{fields_of, fields_left, IsBytesField, HasNoVersionFirst, HasNoItemFirst};
ghost use Rattle.argon2_base.specs.declared.error.password_hash.Error.TheVariants.{EncodingInvalid};

use super::bytes::{Output, Salt, TextBytes};
use super::list::{ParamsString, cut};
use super::value::read_decimal;
use crate::byte_list::ByteList;
use crate::error::password_hash::{Error, Result};

// The text up to the first `$`, and what follows that.
pub(super) fn first_field(text: &str) -> (&str, Option<&str>)
    ensures { fields_of text.now ≡ result.0.now ∷ fields_left result.1 }
{
    match text.split_once('$') {
        Some((field, rest)) => (field, Some(rest)),
        None => (text, None),
    }
}

// The version, if it is next, and what is left.
pub(super) fn version_field(left: Option<&str>) -> Result<(Option<u32>, Option<&str>)>
    ensures found { IfOk result (λ x.
        (fields_left left.entry ≡ field version_text x.0 ++ fields_left x.1)
        × IfSome x.0 (λ n. n < 2 ^ 32)) }
    ensures only { (o : Option ℕ) (rest : List (List ℕ))
        → IfSome o (λ n. n < 2 ^ 32) → HasNoVersionFirst rest
        → fields_left left.entry ≡ field version_text o ++ rest
        → IsOkAnd result (λ x. (x.0 ≡ o) × (fields_left x.1 ≡ rest)) }
    ensures invalid { IfErr result (λ e. e ≡ EncodingInvalid) }
{
    let Some(text) = left else {
        return Ok((None, None));
    };
    let (field, more) = first_field(text);
    let Some(digits) = field.strip_prefix("v=") else {
        return Ok((None, left));
    };
    match read_decimal(digits) {
        Some(number) => Ok((Some(number), more)),
        None => Err(Error::EncodingInvalid),
    }
}

// The parameters, if they are next, and what is left.
pub(super) fn params_field(left: Option<&str>) -> Result<(ParamsString, Option<&str>)>
    ensures found { IfOk result (λ x.
        (fields_left left.entry ≡ list_field x.0 ++ fields_left x.1)
        × IsTrue (are_params x.0)) }
    ensures only { (ps : List Pair) (rest : List (List ℕ))
        → IsTrue (are_params ps) → HasNoItemFirst rest
        → fields_left left.entry ≡ list_field ps ++ rest
        → IsOkAnd result (λ x. (x.0 ≡ ps) × (fields_left x.1 ≡ rest)) }
    ensures invalid { IfErr result (λ e. e ≡ EncodingInvalid) }
{
    let Some(text) = left else {
        return Ok((ParamsString::new(), None));
    };
    let (field, more) = first_field(text);
    let Some(_pair) = cut(field, b'=') else {
        return Ok((ParamsString::new(), left));
    };
    let Ok(params) = ParamsString::read(field) else {
        return Err(Error::EncodingInvalid);
    };
    Ok((params, more))
}

// The bytes of the next field, which is their strict Base64, if a field is left; and the fields after it.
fn bytes_field<const MIN_LEN: usize, const MAX_LEN: usize>(
    left: Option<&str>,
) -> Result<(Option<TextBytes<MIN_LEN, MAX_LEN>>, Option<&str>)>
    ensures { IsBytesField MIN_LEN MAX_LEN (fields_left left.entry) result }
{
    let Some(text) = left else {
        return Ok((None, None));
    };
    let (field, more) = first_field(text);
    let Ok(bytes) = ByteList::from_b64(field) else {
        return Err(Error::EncodingInvalid);
    };
    if bytes.as_bytes().len() < MIN_LEN {
        return Err(Error::EncodingInvalid);
    }
    Ok((Some(TextBytes { bytes }), more))
}

// The salt and the hash, if they are next and nothing follows.
pub(super) fn salt_and_hash(left: Option<&str>) -> Result<(Option<Salt>, Option<Output>)>
    ensures found { IfOk result (λ x.
        (fields_left left.entry ≡ field strict_base64 x.0 ++ field strict_base64 x.1)
        × IfSome x.0 (HasBytes 8 48) × IfSome x.1 (HasBytes 4 64) × (IsSome x.1 → IsSome x.0)) }
    ensures only { (s o : Option (List ℕ))
        → IfSome s (HasBytes 8 48) → IfSome o (HasBytes 4 64) → (IsSome o → IsSome s)
        → fields_left left.entry ≡ field strict_base64 s ++ field strict_base64 o
        → IsOkAnd result (λ x. (x.0 ≡ s) × (x.1 ≡ o)) }
    ensures invalid { IfErr result (λ e. e ≡ EncodingInvalid) }
{
    let (salt, left) = bytes_field(left)?;
    let (hash, left) = bytes_field(left)?;
    if left.is_some() {
        return Err(Error::EncodingInvalid);
    }
    Ok((salt, hash))
}
