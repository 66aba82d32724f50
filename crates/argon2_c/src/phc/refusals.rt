//! Why the parameters of a C caller are refused, and the lengths for a text or for a raw tag.

ghost use Rattle.std.specs.Prelude.{◌≡◌, ◌≢◌, ◌≤◌, IfSome, IsNone, unwrap_or};
ghost use Rattle.std.specs.Option.{option_or};
ghost use Rattle.argon2.specs.Refusals.{first_of};
ghost use Rattle.argon2_c.specs.PhcRequests.{AreTaken, length_set, making_faults, params_refusal, tag_faults};

use super::fault::error_code;
use crate::code::*;
use crate::number::{variant, version};
use crate::request::Request;
use argon2::phc::{Output, Salt};
use argon2::{
    AssociatedData, KeyId, MAX_AD_LEN, MAX_PWD_LEN, MAX_SALT_LEN, MAX_SECRET_LEN, MIN_SALT_LEN,
    Params,
};

/// The lengths of a C caller's parameters.
#[repr(C)]
#[derive(Clone, Copy)]
pub struct PhcLengths {
    /// The length of the key identifier.
    pub keyid: usize,
    /// The length of the associated data.
    pub associated: usize,
    /// The length of the secret.
    pub secret: usize,
    /// The length of outputs, if it is set.
    pub output: usize,
    /// Whether the length of outputs is set.
    pub has_output: bool,
}

/// The length of outputs, if it is set.
pub fn output_of(lengths: &PhcLengths) -> Option<usize>
    ensures { result ≡ length_set lengths.now.has_output lengths.now.output }
{
    if lengths.has_output {
        Some(lengths.output)
    } else {
        None
    }
}

/// Why parameters are refused. If `output` is set, outputs have this length.
pub fn params_refusal(
    request: &Request,
    output: Option<usize>,
    most_associated: usize,
    keyid: usize,
    associated: usize,
    secret: usize,
) -> Option<i32>
    ensures first { result ≡ params_refusal request.now output most_associated keyid associated secret }
    ensures code { IfSome result (λ code. code ≢ OK) }
    ensures none { IsNone result → AreTaken request.now output most_associated keyid associated secret }
{
    if let Err(error) = Params::new(request.m_cost, request.t_cost, request.lanes, output) {
        Some(error_code(&error))
    } else if keyid > KeyId::MAX_LEN {
        Some(KEYID_TOO_LONG)
    } else if associated > most_associated {
        Some(AD_TOO_LONG)
    } else if variant(request.algorithm).is_none() {
        Some(NO_ALGORITHM)
    } else if version(request.version).is_none() {
        Some(NO_VERSION)
    } else if secret > MAX_SECRET_LEN {
        Some(SECRET_TOO_LONG)
    } else {
        None
    }
}

/// The code of the first fault of parameters, or 0.
#[unsafe(no_mangle)]
pub extern "C" fn argon2_c_params_refusal(request: &Request, lengths: &PhcLengths) -> i32
    ensures { let n = lengths.now in result ≡ unwrap_or (params_refusal request.now
        (length_set n.has_output n.output) 32 n.keyid n.associated n.secret) OK }
{
    params_refusal(
        request,
        output_of(lengths),
        AssociatedData::MAX_LEN,
        lengths.keyid,
        lengths.associated,
        lengths.secret,
    )
    .unwrap_or(OK)
}

/// The code of the first fault of the parameters, else of the lengths `salt`, `hash` and `pwd` of a text's salt, its hash and
/// the password, else 0.
#[unsafe(no_mangle)]
pub extern "C" fn argon2_c_text_refusal(
    request: &Request,
    lengths: &PhcLengths,
    salt: usize,
    hash: usize,
    pwd: usize,
) -> i32
    ensures { let n = lengths.now in result ≡ unwrap_or (option_or
        (params_refusal request.now (length_set n.has_output n.output) 32 n.keyid n.associated
        n.secret) (first_of (making_faults salt hash pwd))) OK }
{
    let most = AssociatedData::MAX_LEN;
    let (keyid, associated, secret) = (lengths.keyid, lengths.associated, lengths.secret);
    match params_refusal(request, output_of(lengths), most, keyid, associated, secret) {
        Some(code) => code,
        None => text_refusal(salt, hash, pwd).unwrap_or(OK),
    }
}

/// Why no text is made, by the lengths of its salt and its hash and the length of the password.
pub fn text_refusal(salt: usize, hash: usize, pwd: usize) -> Option<i32>
    ensures first { result ≡ first_of (making_faults salt hash pwd) }
    ensures code { IfSome result (λ code. code ≢ OK) }
    ensures none { IsNone result → hash ≤ 64 }
{
    if salt < Salt::MIN_LENGTH {
        Some(SALT_TOO_SHORT)
    } else if salt > Salt::MAX_LENGTH {
        Some(SALT_TOO_LONG)
    } else if hash < Output::MIN_LENGTH {
        Some(OUTPUT_TOO_SHORT)
    } else if hash > Output::MAX_LENGTH {
        Some(OUTPUT_TOO_LONG)
    } else if pwd > MAX_PWD_LEN {
        Some(PWD_TOO_LONG)
    } else {
        None
    }
}

/// The code of the first fault of the parameters, else of the lengths of a raw tag, a password and a salt, else 0. Associated
/// data may have up to 4294967295 bytes, and no key identifier is allowed.
#[unsafe(no_mangle)]
pub extern "C" fn argon2_c_tag_refusal(
    request: &Request,
    lengths: &PhcLengths,
    out: usize,
    pwd: usize,
    salt: usize,
) -> i32
    ensures { let n = lengths.now in let output = length_set n.has_output n.output in
        result ≡ unwrap_or (option_or
        (params_refusal request.now output 4294967295 0 n.associated n.secret)
        (first_of (tag_faults output out pwd salt))) OK }
{
    let output = output_of(lengths);
    let secret = lengths.secret;
    match params_refusal(request, output, MAX_AD_LEN, 0, lengths.associated, secret) {
        Some(code) => code,
        None => tag_refusal(output, out, pwd, salt).unwrap_or(OK),
    }
}

// Why no tag of `out` bytes is made, by this length and the lengths of the password and the salt.
fn tag_refusal(output: Option<usize>, out: usize, pwd: usize, salt: usize) -> Option<i32>
    ensures { result ≡ first_of (tag_faults output out pwd salt) }
{
    if out < output.unwrap_or(Params::MIN_OUTPUT_LEN) {
        Some(OUTPUT_TOO_SHORT)
    } else if out > output.unwrap_or(Params::MAX_OUTPUT_LEN) {
        Some(OUTPUT_TOO_LONG)
    } else if pwd > MAX_PWD_LEN {
        Some(PWD_TOO_LONG)
    } else if salt < MIN_SALT_LEN {
        Some(SALT_TOO_SHORT)
    } else if salt > MAX_SALT_LEN {
        Some(SALT_TOO_LONG)
    } else {
        None
    }
}
