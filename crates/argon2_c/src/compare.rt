//! Comparing hashes.

ghost use Rattle.std.specs.Prelude.{◌≡◌};
ghost use Rattle.argon2_c.specs.Verification.{compare_code};

use crate::code::{OK, VERIFY_MISMATCH};
use argon2_base::phc::are_equal;

/// Whether two slices are equal: 0, or -35. If they have one length, it reads each byte of both.
#[unsafe(no_mangle)]
pub extern "C" fn argon2_c_compare(a: &[u8], b: &[u8]) -> i32
    ensures { result ≡ compare_code a.now b.now }
{
    if are_equal(a, b) { OK } else { VERIFY_MISMATCH }
}
