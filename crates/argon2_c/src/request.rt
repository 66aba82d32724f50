//! What a C caller asks for, and why it is refused.

ghost use Rattle.std.specs.Prelude.{◌≡◌, unwrap_or};
ghost use Rattle.argon2.specs.Refusals.{first_of};
ghost use Rattle.argon2_c.specs.Requests.{IsFaultless, length_faults, request_faults};

use crate::code::*;
use crate::number::{variant, version};
use argon2::{MAX_AD_LEN, MAX_PWD_LEN, MAX_SALT_LEN, MAX_SECRET_LEN, MIN_SALT_LEN, Params};

/// What a C caller asks for, besides its bytes.
#[repr(C)]
#[derive(Clone, Copy)]
pub struct Request {
    /// The variant: 0 is Argon2d, 1 is Argon2i, 2 is Argon2id.
    pub algorithm: u32,
    /// The version: 16 or 19.
    pub version: u32,
    /// The memory cost in blocks of 1024 bytes.
    pub m_cost: u32,
    /// The number of passes.
    pub t_cost: u32,
    /// The number of lanes.
    pub lanes: u32,
    /// The most threads that fill the lanes.
    pub threads: u32,
    /// Whether the output's pointer is null.
    pub lacks_output: bool,
    /// Whether the password's pointer is null and its length is not 0.
    pub lacks_pwd: bool,
    /// Whether the salt's pointer is null and its length is not 0.
    pub lacks_salt: bool,
    /// Whether the secret's pointer is null and its length is not 0.
    pub lacks_secret: bool,
    /// Whether the associated data's pointer is null and its length is not 0.
    pub lacks_associated: bool,
    /// Whether the caller sets a function that gives memory.
    pub has_allocate: bool,
    /// Whether the caller sets a function that takes memory back.
    pub has_free: bool,
}

/// The code of the first fault of a request, by the lengths of its bytes, or 0.
#[unsafe(no_mangle)]
pub extern "C" fn argon2_c_refusal(
    request: &Request,
    output: usize,
    pwd: usize,
    salt: usize,
    secret: usize,
    associated: usize,
) -> i32
    ensures first { result ≡ unwrap_or (first_of (request_faults request.now output pwd salt secret
        associated)) OK }
    ensures none { result ≡ OK → IsFaultless request.now output pwd salt secret associated }
{
    if request.lacks_output {
        OUTPUT_PTR_NULL
    } else if output < Params::MIN_OUTPUT_LEN {
        OUTPUT_TOO_SHORT
    } else if output > Params::MAX_OUTPUT_LEN {
        OUTPUT_TOO_LONG
    } else if request.lacks_pwd {
        PWD_PTR_MISMATCH
    } else if pwd > MAX_PWD_LEN {
        PWD_TOO_LONG
    } else if request.lacks_salt {
        SALT_PTR_MISMATCH
    } else if salt < MIN_SALT_LEN {
        SALT_TOO_SHORT
    } else if salt > MAX_SALT_LEN {
        SALT_TOO_LONG
    } else if request.lacks_secret {
        SECRET_PTR_MISMATCH
    } else if secret > MAX_SECRET_LEN {
        SECRET_TOO_LONG
    } else if request.lacks_associated {
        AD_PTR_MISMATCH
    } else if associated > MAX_AD_LEN {
        AD_TOO_LONG
    } else if request.m_cost < Params::MIN_M_COST {
        MEMORY_TOO_LITTLE
    } else if (request.m_cost as u64) < 8 * request.lanes as u64 {
        MEMORY_TOO_LITTLE
    } else if request.t_cost < Params::MIN_T_COST {
        TIME_TOO_SMALL
    } else if request.lanes < Params::MIN_P_COST {
        LANES_TOO_FEW
    } else if request.lanes > Params::MAX_P_COST {
        LANES_TOO_MANY
    } else if request.threads < Params::MIN_P_COST {
        THREADS_TOO_FEW
    } else if request.threads > Params::MAX_P_COST {
        THREADS_TOO_MANY
    } else if request.has_allocate && !request.has_free {
        FREE_MEMORY_CBK_NULL
    } else if !request.has_allocate && request.has_free {
        ALLOCATE_MEMORY_CBK_NULL
    } else if variant(request.algorithm).is_none() {
        INCORRECT_TYPE
    } else if version(request.version).is_none() {
        INCORRECT_TYPE
    } else {
        OK
    }
}

/// The code with which `argon2_hash` refuses these lengths before everything else, or 0.
#[unsafe(no_mangle)]
pub extern "C" fn argon2_c_length_refusal(output: usize, pwd: usize, salt: usize) -> i32
    ensures { result ≡ unwrap_or (first_of (length_faults output pwd salt)) OK }
{
    if pwd > MAX_PWD_LEN {
        PWD_TOO_LONG
    } else if salt > MAX_SALT_LEN {
        SALT_TOO_LONG
    } else if output > Params::MAX_OUTPUT_LEN {
        OUTPUT_TOO_LONG
    } else if output < Params::MIN_OUTPUT_LEN {
        OUTPUT_TOO_SHORT
    } else {
        OK
    }
}
