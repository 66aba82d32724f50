//! Whether a bound admits a text that is to be verified.

ghost use Rattle.std.specs.Prelude.{◌≡◌, ◌≢◌, IfSome, IsNone};
ghost use Rattle.argon2.specs.Refusals.{first_of};
ghost use Rattle.argon2_c.specs.PhcAdmission.{AreAllowed, IsAdmitted, admit_faults, bound_of};

use super::fault::bound_code;
use super::reading::read;
use super::shown::{PhcShown, with_settings};
use crate::code::{OK, OUTPUT_OUT_OF_BOUND, PWD_TOO_LONG, SECRET_TOO_LONG, TEXT_INVALID};
use argon2::bound::Bound;
use argon2::{MAX_PWD_LEN, MAX_SECRET_LEN};

/// The most that a text may ask for, and the lengths that its hash may have.
#[repr(C)]
#[derive(Clone, Copy)]
pub struct PhcBound {
    /// Blocks of 1024 bytes.
    pub m_cost: u32,
    /// Passes.
    pub t_cost: u32,
    /// Lanes.
    pub p_cost: u32,
    /// The least length of the hash.
    pub min_output: u32,
    /// The greatest length of the hash.
    pub max_output: u32,
}

/// Reads a text, and checks its costs against a bound, and the lengths of the password and of both secrets, where 0 is no
/// secret. Writes what the text shows into `shown`, and returns 0. `argon2_c_hash` then accepts the request that is shown.
///
/// # Errors
/// The first of these that holds; `shown` is then as before:
/// - -80: the text is outside the grammar.
/// - the code of the first fault of the text's parameters.
/// - -88: a cost is above the bound's.
/// - -87: the text has no salt, or no hash.
/// - -70: no variant has the identifier.
/// - -71: no version has the number.
/// - -89: the bound does not allow the length of the hash.
/// - -5, -11: the password or a secret is longer than 4294967295 bytes.
#[unsafe(no_mangle)]
pub extern "C" fn argon2_c_phc_admit(
    bound: &PhcBound,
    text: &[u8],
    pwd: usize,
    secret: usize,
    old_secret: usize,
    shown: &mut PhcShown,
) -> i32
    ensures admitted { IsAdmitted bound.now text.now pwd secret old_secret result shown.new }
    ensures refused { result ≢ OK → shown.new ≡ shown.old }
{
    let Some(hash) = read(text) else {
        return TEXT_INVALID;
    };
    let stored = match bound_of(bound).admit_stored(&hash) {
        Ok(stored) => stored,
        Err(error) => return bound_code(&error),
    };
    let output = stored.hash.len();
    if let Some(code) = length_refusal(bound, output, pwd, secret, old_secret) {
        return code;
    }
    *shown = with_settings(&hash, &stored.settings);
    OK
}

// The bound on the costs.
fn bound_of(bound: &PhcBound) -> Bound
    ensures { result ≡ bound_of bound.now }
{
    Bound {
        m_cost: bound.m_cost,
        t_cost: bound.t_cost,
        p_cost: bound.p_cost,
    }
}

// Why the lengths of a text's hash, of a password and of two secrets are refused.
fn length_refusal(
    bound: &PhcBound,
    output: usize,
    pwd: usize,
    secret: usize,
    old_secret: usize,
) -> Option<i32>
    ensures first { result ≡ first_of (admit_faults bound.now output pwd secret old_secret) }
    ensures code { IfSome result (λ code. code ≢ OK) }
    ensures none { IsNone result → AreAllowed bound.now output pwd secret old_secret }
{
    if output < bound.min_output as usize || output > bound.max_output as usize {
        Some(OUTPUT_OUT_OF_BOUND)
    } else if pwd > MAX_PWD_LEN {
        Some(PWD_TOO_LONG)
    } else if secret > MAX_SECRET_LEN || old_secret > MAX_SECRET_LEN {
        Some(SECRET_TOO_LONG)
    } else {
        None
    }
}
