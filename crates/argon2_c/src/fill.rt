//! Filling memory that the C lends.

ghost use Rattle.std.specs.Prelude.{◌≡◌, ◌≢◌, ◌↔◌, [], length};
ghost use Rattle.argon2.specs.Hashing.{blocks_of};
ghost use Rattle.argon2.specs.Layout.{matrix_of};
ghost use Rattle.argon2.specs.Rfc9106.{block_count};
ghost use Rattle.argon2_c.specs.Requests.{request_context, IsFaultless};

use crate::code::{INCORRECT_PARAMETER, OK};
use crate::hash::hashing;
use crate::request::Request;
use argon2_base::block::Words;

/// Fills lent memory, whatever it held, as a hash with an output of 0 bytes fills it, lane after lane. Returns 0, or
/// -25 if `argon2_c_hash` with an output of a valid length returns -25; `memory` is then as before. It allocates nothing.
#[unsafe(no_mangle)]
pub extern "C" fn argon2_c_fill(
    request: &Request,
    pwd: &[u8],
    salt: &[u8],
    secret: &[u8],
    associated: &[u8],
    memory: &mut [Words],
) -> i32
    ensures taken { (result ≡ OK) ↔ IsFaultless request.now 4 (length pwd.now) (length salt.now)
        (length secret.now) (length associated.now)
        × (length memory.old ≡ block_count (request_context request.now [] [])) }
    ensures matrix { let context = request_context request.now secret.now associated.now in
        result ≡ OK → blocks_of context memory.new ≡ matrix_of context pwd.now salt.now 0 }
    ensures refused { result ≢ OK → (result ≡ INCORRECT_PARAMETER) × (memory.new ≡ memory.old) }
{
    let Some(argon2) = hashing(request, secret, associated.len()) else {
        return INCORRECT_PARAMETER;
    };
    if memory.len() != argon2.params().block_count() {
        return INCORRECT_PARAMETER;
    }
    match argon2.fill_memory_with_words(associated, pwd, salt, memory) {
        Ok(()) => OK,
        Err(_) => INCORRECT_PARAMETER,
    }
}
