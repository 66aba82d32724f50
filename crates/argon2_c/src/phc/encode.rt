//! Writing the text of a hash in the grammar of `argon2::phc`.

ghost use Rattle.std.specs.Prelude.{◌≡◌, ◌≢◌, ◌++◌, ◌∷◌, None, suc, length, drop};
ghost use Rattle.argon2_base.specs.PhcFields.{phc_of};
ghost use Rattle.argon2_base.specs.PhcText.{phc_text};
ghost use Rattle.argon2.specs.Refusals.{first_of};
ghost use Rattle.argon2_c.specs.PhcRequests.{making_faults, params_refusal, phc_encode_code, value_with};

use super::refusals::{params_refusal, text_refusal};
use crate::code::{OK, ROOM_TOO_SHORT};
use crate::encode::put;
use crate::number::variant;
use crate::request::Request;
use argon2::phc::{Output, ParamsString, Salt};
use argon2::{AssociatedData, KeyId, ParamsBuilder, PasswordHash};

/// Writes the text of parameters with this salt and this hash, and a zero byte after it, and returns 0.
///
/// # Errors
/// The first of these that holds; `out` is then as before:
/// - the code of the first fault of the parameters, and then of the lengths, as for `argon2_c_text_refusal`.
/// - -72: `out` is too short.
#[unsafe(no_mangle)]
pub extern "C" fn argon2_c_phc_encode(
    request: &Request,
    keyid: &[u8],
    associated: &[u8],
    salt: &[u8],
    hash: &[u8],
    out: &mut [u8],
) -> i32
    ensures answer { result ≡ phc_encode_code request.now keyid.now associated.now salt.now hash.now
        (length out.old) }
    ensures written { let text = phc_text (value_with request.now keyid.now associated.now salt.now hash.now) in
        result ≡ OK → out.new ≡ text ++ 0 ∷ drop (suc (length text)) out.old }
    ensures same { result ≢ OK → out.new ≡ out.old }
{
    let most = AssociatedData::MAX_LEN;
    if let Some(code) = params_refusal(request, None, most, keyid.len(), associated.len(), 0) {
        return code;
    }
    if let Some(code) = text_refusal(salt.len(), hash.len(), 0) {
        return code;
    }
    let text = value_of(request, keyid, associated, salt, hash).text();
    let text = text.as_str().as_bytes();
    if text.len() >= out.len() {
        return ROOM_TOO_SHORT;
    }
    let at = put(text, out, 0);
    put(b"\0", out, at);
    OK
}

// The value of parameters, a salt and a hash, which are not refused.
fn value_of(
    request: &Request,
    keyid: &[u8],
    associated: &[u8],
    salt: &[u8],
    hash: &[u8],
) -> PasswordHash
    requires params { params_refusal request.now None 32 (length keyid.now) (length associated.now) 0
        ≡ None }
    requires text { first_of (making_faults (length salt.now) (length hash.now) 0) ≡ None }
    ensures { phc_of result ≡ value_with request.now keyid.now associated.now salt.now hash.now }
{
    let mut builder = ParamsBuilder::new();
    builder.m_cost(request.m_cost);
    builder.t_cost(request.t_cost);
    builder.p_cost(request.lanes);
    builder.keyid(KeyId::new(keyid).unwrap());
    builder.data(AssociatedData::new(associated).unwrap());
    let params = builder.build().unwrap();
    let Ok(params) = ParamsString::try_from(&params) else {
        unreachable!();
    };
    let (Ok(salt), Ok(hash)) = (Salt::new(salt), Output::new(hash)) else {
        unreachable!();
    };
    PasswordHash {
        algorithm: variant(request.algorithm).unwrap().ident(),
        version: Some(request.version),
        params,
        salt: Some(salt),
        hash: Some(hash),
    }
}
