//! The codes of the faults of texts and of parameters.

ghost use Rattle.std.specs.Prelude.{◌≡◌, ◌≢◌};
ghost use Rattle.argon2_base.specs.Error.{fault_of};
ghost use Rattle.argon2_c.specs.PhcFaults.{bound_code, param_code, text_code};
ghost use Rattle.argon2_c.specs.PhcRequests.{error_code};

use crate::code::*;
use argon2::bound::BoundError;
use argon2::error::Error;
use argon2::error::password_hash::Error as TextError;

/// The code of a fault of a text.
pub fn text_code(error: &TextError) -> i32
    ensures value { result ≡ text_code (fault_of error.now) }
    ensures refuses { result ≢ OK }
{
    match error {
        TextError::Algorithm => NO_ALGORITHM,
        TextError::Version => NO_VERSION,
        TextError::ParamsInvalid => TEXT_PARAMETERS,
        TextError::ParamInvalid { name } => param_code(name),
        TextError::PasswordInvalid => TEXT_INCOMPLETE,
        _ => TEXT_INVALID,
    }
}

// The code of a parameter that is not valid.
fn param_code(name: &str) -> i32
    ensures value { result ≡ param_code name.now }
    ensures refuses { result ≢ OK }
{
    match name {
        "m" => TEXT_MEMORY,
        "t" => TEXT_PASSES,
        "p" => TEXT_LANES,
        "keyid" => TEXT_KEYID,
        _ => TEXT_DATA,
    }
}

/// The code of the error with which a bound refuses a text.
pub fn bound_code(error: &BoundError) -> i32
    ensures value { result ≡ bound_code error.now }
    ensures refuses { result ≢ OK }
{
    match error {
        BoundError::TooExpensive => ABOVE_BOUND,
        BoundError::Refused(error) => text_code(error),
    }
}

/// The code of a fault of costs or of an output's length.
pub fn error_code(error: &Error) -> i32
    ensures value { result ≡ error_code error.now }
    ensures refuses { result ≢ OK }
{
    match error {
        Error::ThreadsTooFew => LANES_TOO_FEW,
        Error::ThreadsTooMany => LANES_TOO_MANY,
        Error::TimeTooSmall => TIME_TOO_SMALL,
        Error::OutputTooShort => OUTPUT_TOO_SHORT,
        Error::OutputTooLong => OUTPUT_TOO_LONG,
        _ => MEMORY_TOO_LITTLE,
    }
}
