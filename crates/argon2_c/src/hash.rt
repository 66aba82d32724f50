//! Hashing on memory that the C lends, by one call.

ghost use Rattle.std.specs.Prelude.{◌≡◌, ◌≢◌, ◌↔◌, IfSome, IsSome, None, [], length};
ghost use Rattle.argon2.specs.Argon2.{context_of, own_parameters};
ghost use Rattle.argon2_c.specs.Requests.{request_context, IsFaultless, IsTagged};

use crate::code::{INCORRECT_PARAMETER, OK};
use crate::number::{variant, version};
use crate::request::Request;
use argon2::{Argon2, MAX_AD_LEN, Params};
use argon2_base::block::Words;

/// Hashes on lent memory, whatever it held, and writes the tag into `out`. Returns 0, or -25 if the request has a
/// fault, null pointers, threads and callbacks aside, or if the length of `memory` is not the number of blocks that
/// the request asks for. `out` and `memory` are then as before. It allocates nothing.
#[unsafe(no_mangle)]
pub extern "C" fn argon2_c_hash(
    request: &Request,
    pwd: &[u8],
    salt: &[u8],
    secret: &[u8],
    associated: &[u8],
    memory: &mut [Words],
    out: &mut [u8],
) -> i32
    ensures tagged { IsTagged request.now pwd.now salt.now secret.now associated.now (length memory.old)
        out.old result out.new }
    ensures refused { result ≢ OK → (result ≡ INCORRECT_PARAMETER) × (out.new ≡ out.old)
        × (memory.new ≡ memory.old) }
{
    let Some(argon2) = hashing(request, secret, associated.len()) else {
        return INCORRECT_PARAMETER;
    };
    if memory.len() != argon2.params().block_count() {
        return INCORRECT_PARAMETER;
    }
    match argon2.hash_password_into_with_words(associated, pwd, salt, out, memory) {
        Ok(()) => OK,
        Err(_) => INCORRECT_PARAMETER,
    }
}

/// The settings and the secret of a request, if it has no fault, null pointers, threads, callbacks and the lengths of output,
/// password and salt aside. Each call on the `Argon2` passes the associated data, which has `associated` bytes. A request comes
/// from C as numbers, so each call makes the parameters of these numbers again.
pub fn hashing<'key>(
    request: &Request,
    secret: &'key [u8],
    associated: usize,
) -> Option<Argon2<'key>>
    ensures found { IsFaultless request.now 4 0 8 (length secret.now) associated → IsSome result }
    ensures faultless { IfSome result (λ _. IsFaultless request.now 4 0 8 (length secret.now)
        associated) }
    ensures context { IfSome result (λ argon2. context_of argon2
        ≡ request_context request.now secret.now []) }
    ensures any_length { IfSome result (λ argon2. (own_parameters argon2).output_len ≡ None) }
{
    if associated > MAX_AD_LEN {
        return None;
    }
    let algorithm = variant(request.algorithm)?;
    let version = version(request.version)?;
    let params = Params::new(request.m_cost, request.t_cost, request.lanes, None).ok()?;
    Argon2::new_with_secret(secret, algorithm, version, params).ok()
}
