//! What a text shows.

ghost use Rattle.std.specs.Prelude.{◌≡◌, ◌≤◌, ◌-◌, ◌++◌, [], Ok, Err, length, replicate, unwrap_or};
ghost use Rattle.argon2_base.specs.Error.{Fault};
ghost use Rattle.argon2_base.specs.PhcFields.{phc_of};
ghost use Rattle.argon2_base.specs.PhcText.{Phc, IsPhcText, field, fields_text, version_text};
ghost use Rattle.argon2.specs.Settings.{AreValid, SettingsValue};
ghost use Rattle.argon2.specs.StoredTexts.{settings_value, shown_settings};
ghost use Rattle.argon2_c.specs.PhcShown.{ShowsFields, ShowsNoSettings, ShowsSettings, show_code};

use super::fault::text_code;
use super::reading::read;
use crate::code::{OK, TEXT_INVALID};
use argon2::PasswordHash;
use argon2::byte_list::ByteList;
use argon2::password_hash::Settings;
use itoa::Buffer;

/// What a text shows. The bytes after each value are 0.
#[repr(C)]
#[derive(Clone, Copy)]
pub struct PhcShown {
    /// The length of the identifier.
    pub name_len: u32,
    /// 1 if the text has a version, else 0.
    pub has_version: u32,
    /// The version that the text has, or 0.
    pub text_version: u32,
    /// The index at which the list of parameters begins, or 0 if the text has no list.
    pub params_at: u32,
    /// The length of the list of parameters.
    pub params_len: u32,
    /// The length of the salt, 0 if the text has no salt.
    pub salt_len: u32,
    /// The length of the hash, 0 if the text has no hash.
    pub output_len: u32,
    /// The variant.
    pub algorithm: u32,
    /// The version, 16 if the text has no version.
    pub version: u32,
    /// The memory cost.
    pub m_cost: u32,
    /// The number of passes.
    pub t_cost: u32,
    /// The number of lanes.
    pub p_cost: u32,
    /// The length of the key identifier.
    pub keyid_len: u32,
    /// The length of the associated data.
    pub associated_len: u32,
    /// The salt.
    pub salt: [u8; 48],
    /// The hash.
    pub output: [u8; 64],
    /// The key identifier.
    pub keyid: [u8; 8],
    /// The associated data.
    pub associated: [u8; 32],
}

/// Writes what a text shows into `shown`, and returns 0.
///
/// # Errors
/// The first of these that holds:
/// - -80: the text is outside the grammar. `shown` is then as before.
/// - the code of the first fault of the text's parameters, its algorithm and its version. `shown` then holds the fields
///   of the text, and its members for settings are 0.
#[unsafe(no_mangle)]
pub extern "C" fn argon2_c_phc_show(text: &[u8], shown: &mut PhcShown) -> i32
    ensures said { (v : Phc) → IsPhcText text.now v
        → (result ≡ show_code v) × ShowsFields v shown.new }
    ensures settings { (v : Phc) (s : SettingsValue) → IsPhcText text.now v → shown_settings v ≡ Ok s
        → ShowsSettings s shown.new }
    ensures no_settings { (v : Phc) (fault : Fault) → IsPhcText text.now v
        → shown_settings v ≡ Err fault → ShowsNoSettings shown.new }
    ensures unsaid { ((v : Phc) → IsPhcText text.now v → ⊥)
        → (result ≡ TEXT_INVALID) × (shown.new ≡ shown.old) }
{
    match read(text) {
        Some(hash) => show(&hash, shown),
        None => TEXT_INVALID,
    }
}

// Writes what a text shows, and returns its code.
fn show(hash: &PasswordHash, shown: &mut PhcShown) -> i32
    ensures code { result ≡ show_code (phc_of hash.now) }
    ensures fields { ShowsFields (phc_of hash.now) shown.new }
    ensures settings { (s : SettingsValue) → shown_settings (phc_of hash.now) ≡ Ok s
        → ShowsSettings s shown.new }
    ensures no_settings { (fault : Fault) → shown_settings (phc_of hash.now) ≡ Err fault
        → ShowsNoSettings shown.new }
{
    match Settings::try_from(hash) {
        Ok(settings) => {
            *shown = with_settings(hash, &settings);
            OK
        }
        Err(error) => {
            *shown = fields(hash);
            text_code(&error)
        }
    }
}

// The fields of a text, without settings.
fn fields(hash: &PasswordHash) -> PhcShown
    ensures fields { ShowsFields (phc_of hash.now) result }
    ensures no_settings { ShowsNoSettings result }
{
    let name_len = hash.algorithm.as_str().len() as u32;
    let params_len = hash.params.as_str().len() as u32;
    let params_at = if params_len == 0 {
        0
    } else {
        name_len + version_len(hash.version) + 2
    };
    let salt = list::<48>(salt_of(hash));
    let salt_bytes = salt.bytes;
    let output = list::<64>(output_of(hash));
    let output_bytes = output.bytes;
    let keyid = [0; 8];
    let associated = [0; 32];
    PhcShown {
        name_len,
        has_version: hash.version.is_some() as u32,
        text_version: hash.version.unwrap_or(0),
        params_at,
        params_len,
        salt_len: salt.len as u32,
        output_len: output.len as u32,
        algorithm: 0,
        version: 0,
        m_cost: 0,
        t_cost: 0,
        p_cost: 0,
        keyid_len: 0,
        associated_len: 0,
        salt: salt_bytes,
        output: output_bytes,
        keyid,
        associated,
    }
}

// The length of the field of a version.
fn version_len(version: Option<u32>) -> u32
    ensures value { result ≡ length (fields_text (field version_text version)) }
    ensures small { result ≤ 13 }
{
    match version {
        Some(version) => Buffer::new().format(version).len() as u32 + 3,
        None => 0,
    }
}

// The bytes of the salt of a text, none if it has no salt.
fn salt_of(hash: &PasswordHash) -> &[u8]
    ensures value { result.now ≡ unwrap_or (phc_of hash.now).salt [] }
    ensures fits { length result.now ≤ 48 }
{
    match &hash.salt {
        Some(salt) => salt.as_bytes(),
        None => &[],
    }
}

/// The bytes of the hash of a text, none if it has no hash.
pub fn output_of(hash: &PasswordHash) -> &[u8]
    ensures value { result.now ≡ unwrap_or (phc_of hash.now).hash [] }
    ensures fits { length result.now ≤ 64 }
{
    match &hash.hash {
        Some(hash) => hash.as_bytes(),
        None => &[],
    }
}

// A list of bytes, which fit into it.
fn list<const N: usize>(bytes: &[u8]) -> ByteList<N>
    requires { length bytes.now ≤ N }
    ensures bytes { result.bytes ≡ bytes.now ++ replicate (N - length bytes.now) 0 }
    ensures len { result.len ≡ length bytes.now }
{
    let Some(list) = ByteList::new(bytes) else {
        unreachable!();
    };
    list
}

/// The fields of a text, and its settings.
pub fn with_settings(hash: &PasswordHash, settings: &Settings) -> PhcShown
    ensures fields { ShowsFields (phc_of hash.now) result }
    ensures settings { ShowsSettings (settings_value settings.now) result }
    ensures valid { AreValid (settings_value settings.now).parameters }
    ensures fits { result.associated_len ≤ 32 }
{
    let mut shown = fields(hash);
    let params = &settings.params;
    let keyid = list::<8>(params.keyid());
    let keyid_bytes = keyid.bytes;
    let associated = list::<32>(params.data());
    let associated_bytes = associated.bytes;
    shown.algorithm = settings.algorithm as u32;
    shown.version = u32::from(settings.version);
    shown.m_cost = params.m_cost();
    shown.t_cost = params.t_cost();
    shown.p_cost = params.p_cost();
    shown.keyid_len = keyid.len as u32;
    shown.associated_len = associated.len as u32;
    shown.keyid = keyid_bytes;
    shown.associated = associated_bytes;
    shown
}
