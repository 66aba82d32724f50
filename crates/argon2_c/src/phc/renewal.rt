//! Whether a text is to be renewed.

ghost use Rattle.std.specs.Prelude.{◌≡◌};
ghost use Rattle.argon2_base.specs.PhcFields.{phc_of};
ghost use Rattle.argon2_base.specs.PhcText.{Phc, IsPhcText};
ghost use Rattle.argon2.specs.StoredTexts.{settings_value};
ghost use Rattle.argon2_c.specs.PhcRenewal.{is_below, is_wanted, renewal_code};

use super::fault::text_code;
use super::reading::read;
use super::shown::output_of;
use crate::code::{BELOW, CURRENT, OTHER, TEXT_INVALID};
use crate::request::Request;
use argon2::PasswordHash;
use argon2::password_hash::Settings;
use argon2::phc::are_equal;

/// Whether a text is to be renewed: 2 if its memory, passes, lanes, version or the length of its hash is below
/// what is wanted, else 0 if it shows exactly what is wanted, else 1. A missing hash counts as a hash of 0 bytes.
///
/// # Errors
/// The first of these that holds:
/// - -80: the text is outside the grammar.
/// - the code of the first fault of the text's parameters, its algorithm and its version.
#[unsafe(no_mangle)]
pub extern "C" fn argon2_c_phc_renewal(
    wanted: &Request,
    output: usize,
    keyid: &[u8],
    associated: &[u8],
    text: &[u8],
) -> i32
    ensures said { (v : Phc) → IsPhcText text.now v
        → result ≡ renewal_code wanted.now output keyid.now associated.now v }
    ensures unsaid { ((v : Phc) → IsPhcText text.now v → ⊥) → result ≡ TEXT_INVALID }
{
    match read(text) {
        Some(hash) => renewal(wanted, output, keyid, associated, &hash),
        None => TEXT_INVALID,
    }
}

// Whether a text is to be renewed.
fn renewal(
    wanted: &Request,
    output: usize,
    keyid: &[u8],
    associated: &[u8],
    hash: &PasswordHash,
) -> i32
    ensures { result
        ≡ renewal_code wanted.now output keyid.now associated.now (phc_of hash.now) }
{
    let shown = match Settings::try_from(hash) {
        Ok(settings) => settings,
        Err(error) => return text_code(&error),
    };
    let len = output_of(hash).len();
    if is_below(wanted, output, &shown, len) {
        return BELOW;
    }
    if is_wanted(wanted, output, keyid, associated, &shown, len) {
        return CURRENT;
    }
    OTHER
}

// Whether something is below what is wanted.
fn is_below(wanted: &Request, output: usize, shown: &Settings, hash: usize) -> bool
    ensures { result ≡ is_below wanted.now output (settings_value shown.now) hash }
{
    let params = &shown.params;
    params.m_cost() < wanted.m_cost
        || params.t_cost() < wanted.t_cost
        || params.p_cost() < wanted.lanes
        || hash < output
        || u32::from(shown.version) < wanted.version
}

// Whether all is as wanted.
fn is_wanted(
    wanted: &Request,
    output: usize,
    keyid: &[u8],
    associated: &[u8],
    shown: &Settings,
    hash: usize,
) -> bool
    ensures { result
        ≡ is_wanted wanted.now output keyid.now associated.now (settings_value shown.now) hash }
{
    let params = &shown.params;
    shown.algorithm as u32 == wanted.algorithm
        && u32::from(shown.version) == wanted.version
        && params.m_cost() == wanted.m_cost
        && params.t_cost() == wanted.t_cost
        && params.p_cost() == wanted.lanes
        && hash == output
        && are_equal(params.keyid(), keyid)
        && are_equal(params.data(), associated)
}
