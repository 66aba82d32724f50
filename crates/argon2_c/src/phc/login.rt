//! What a login decides besides verifying: whether it can renew hashes at all, and whether a hash is replaced.

ghost use Rattle.std.specs.Prelude.{◌≡◌, ◌≢◌, ℤ, None, Some, Ok, IfSome, IsNone, length};
ghost use Rattle.argon2.specs.Refusals.{first_of};
ghost use Rattle.argon2.specs.Settings.{SettingsValue};
ghost use Rattle.argon2.specs.StoredTexts.{settings_value, shown_settings};
ghost use Rattle.argon2_base.specs.PhcText.{Phc, IsPhcText};
ghost use Rattle.argon2_c.specs.PhcLogin.{AreRenewing, AreWanted, IsAllowed, IsDueCode, wanted_code, wanted_faults};
ghost use Rattle.argon2_c.specs.PhcRequests.{length_set, params_refusal};

use super::admit::PhcBound;
use super::fault::text_code;
use super::reading::read;
use super::refusals::{PhcLengths, output_of, params_refusal, text_refusal};
use crate::code::{CURRENT, DUE, OK, SECRETS_DIFFER, TEXT_INVALID, WANTED_OUT_OF_BOUND};
use crate::number::{variant, version};
use crate::request::Request;
use argon2::password_hash::Settings;
use argon2::phc::are_equal;
use argon2::{AssociatedData, KeyId, Params, ParamsBuilder, RECOMMENDED_SALT_LEN};

/// The code of the first fault of parameters of new hashes beside a verifier, or 0. `secret` is the secret of new hashes, and
/// `verifying` is the verifier's.
///
/// # Errors
/// The first of these that holds:
/// - -75: a cost is above the bound's, or the bound does not allow the length of new hashes.
/// - -76: the secrets differ.
/// - the code of the first fault of the parameters, and then of the lengths, as for `argon2_c_text_refusal` with a salt of 16
///   bytes.
#[unsafe(no_mangle)]
pub extern "C" fn argon2_c_phc_wanted_refusal(
    wanted: &Request,
    lengths: &PhcLengths,
    bound: &PhcBound,
    secret: &[u8],
    verifying: &[u8],
) -> i32
    ensures first { let n = lengths.now in result ≡ wanted_code bound.now wanted.now
        (length_set n.has_output n.output) n.keyid n.associated secret.now verifying.now }
    ensures none { let n = lengths.now in result ≡ OK → AreRenewing bound.now wanted.now
        (length_set n.has_output n.output) n.keyid n.associated secret.now verifying.now }
{
    let output = output_of(lengths);
    let hash = output.unwrap_or(Params::DEFAULT_OUTPUT_LEN);
    if let Some(code) = wanted_refusal(bound, wanted, hash, secret, verifying) {
        return code;
    }
    let most = AssociatedData::MAX_LEN;
    let (keyid, associated) = (lengths.keyid, lengths.associated);
    match params_refusal(wanted, output, most, keyid, associated, secret.len()) {
        Some(code) => code,
        None => text_refusal(RECOMMENDED_SALT_LEN, hash, 0).unwrap_or(OK),
    }
}

// Why a verifier refuses each new hash of `output` bytes.
fn wanted_refusal(
    bound: &PhcBound,
    wanted: &Request,
    output: usize,
    secret: &[u8],
    verifying: &[u8],
) -> Option<i32>
    ensures first { result ≡ first_of (wanted_faults bound.now wanted.now output secret.now verifying.now) }
    ensures code { IfSome result (λ code. code ≢ OK) }
    ensures none { IsNone result → IsAllowed bound.now wanted.now output secret.now verifying.now }
{
    if wanted.m_cost > bound.m_cost
        || wanted.t_cost > bound.t_cost
        || wanted.lanes > bound.p_cost
        || output < bound.min_output as usize
        || output > bound.max_output as usize
    {
        Some(WANTED_OUT_OF_BOUND)
    } else if !are_equal(secret, verifying) {
        Some(SECRETS_DIFFER)
    } else {
        None
    }
}

/// Whether a text that accepted a password is to be replaced. Each new hash has `output` bytes. The answer is 1 if the old secret
/// accepted the password, or if the text is weaker than new hashes, and otherwise 0.
///
/// # Errors
/// The first of these that holds:
/// - the code of the first fault of the parameters.
/// - -80: the text is outside the grammar.
/// - the code of the first fault of the text's parameters, its algorithm and its version.
#[unsafe(no_mangle)]
pub extern "C" fn argon2_c_phc_is_due(
    wanted: &Request,
    output: usize,
    keyid: &[u8],
    associated: &[u8],
    by_old_secret: bool,
    text: &[u8],
) -> i32
    ensures refused { (code : ℤ) → params_refusal wanted.now (Some output) 32 (length keyid.now)
        (length associated.now) 0 ≡ Some code → result ≡ code }
    ensures said { params_refusal wanted.now (Some output) 32 (length keyid.now) (length associated.now) 0
        ≡ None → (v : Phc) → IsPhcText text.now v
        → (settings : SettingsValue) × AreWanted wanted.now output keyid.now associated.now settings
        × IsDueCode settings by_old_secret (shown_settings v) result }
    ensures unsaid { params_refusal wanted.now (Some output) 32 (length keyid.now) (length associated.now) 0
        ≡ None → ((v : Phc) → IsPhcText text.now v → ⊥) → result ≡ TEXT_INVALID }
{
    let most = AssociatedData::MAX_LEN;
    let (own, data) = (keyid.len(), associated.len());
    if let Some(code) = params_refusal(wanted, Some(output), most, own, data, 0) {
        return code;
    }
    let wanted = settings_of(wanted, output, keyid, associated);
    let Some(hash) = read(text) else {
        return TEXT_INVALID;
    };
    match Settings::try_from(&hash) {
        Ok(shown) => due_code(&wanted, by_old_secret, &shown),
        Err(error) => text_code(&error),
    }
}

// Whether a text with these settings is to be replaced.
fn due_code(wanted: &Settings, by_old_secret: bool, shown: &Settings) -> i32
    ensures { IsDueCode (settings_value wanted.now) by_old_secret (Ok (settings_value shown.now)) result }
{
    if by_old_secret || !shown.is_no_weaker_than(wanted) {
        DUE
    } else {
        CURRENT
    }
}

// The settings of parameters that are not refused.
fn settings_of(wanted: &Request, output: usize, keyid: &[u8], associated: &[u8]) -> Settings
    requires { params_refusal wanted.now (Some output) 32 (length keyid.now) (length associated.now) 0
        ≡ None }
    ensures { AreWanted wanted.now output keyid.now associated.now (settings_value result) }
{
    let mut builder = ParamsBuilder::new();
    builder.m_cost(wanted.m_cost);
    builder.t_cost(wanted.t_cost);
    builder.p_cost(wanted.lanes);
    builder.keyid(KeyId::new(keyid).unwrap());
    builder.data(AssociatedData::new(associated).unwrap());
    builder.output_len(output);
    Settings {
        algorithm: variant(wanted.algorithm).unwrap(),
        version: version(wanted.version).unwrap(),
        params: builder.build().unwrap(),
    }
}
