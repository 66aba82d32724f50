//! Passwords, each a line of standard input.

ghost use Rattle.std.specs.Prelude.{◌≡◌, ◌≢◌, [], Some, IfErr, IfOk, IfSome, OnOk, length, take};
ghost use Rattle.std.specs.Io.BufRead.{DropsThrough};
ghost use Rattle.argon2_passwd.specs.Passwords.{IsNotNew, IsUnread, line_of, password_of};

use crate::failure::{Failure, of_reading};
use std::alloc::Global;
use std::io::BufRead;

/// The most bytes that a password may have.
pub const MAX_PASSWORD_LEN: usize = 4096;

/// Reads a password: the next line of the input, without its LF or CR LF.
pub fn read_password<R: BufRead>(alloc: Global, input: &mut R) -> Result<Vec<u8>, Failure>
    ensures found { IfOk result (λ password. IfSome (R.remaining input.old)
        (λ bytes. password_of bytes ≡ Some password.items)) }
    ensures rest { OnOk result (DropsThrough (R.remaining input.old) (R.remaining input.new) 10) }
    ensures refused { IfErr result (IsUnread (R.remaining input.old)) }
{
    let mut line = Vec::new(alloc);
    match input.read_until(b'\n', &mut line) {
        Ok(0) => return Err(Failure::NoPassword),
        Ok(_) => {}
        Err(e) => return Err(of_reading(&e)),
    }
    let len = line_len(line.as_slice());
    if len > MAX_PASSWORD_LEN {
        return Err(Failure::LongPassword);
    }
    line.truncate(len);
    Ok(line)
}

/// Reads a new password, as [`read_password`]. An empty line is refused.
pub fn read_new_password<R: BufRead>(alloc: Global, input: &mut R) -> Result<Vec<u8>, Failure>
    ensures found { IfOk result (λ password. IfSome (R.remaining input.old)
        (λ bytes. password_of bytes ≡ Some password.items)) }
    ensures some { IfOk result (λ password. password.items ≢ []) }
    ensures refused { IfErr result (IsNotNew (R.remaining input.old)) }
{
    let password = read_password(alloc, input)?;
    if password.is_empty() {
        return Err(Failure::EmptyPassword);
    }
    Ok(password)
}

/// The length of a line without its LF or CR LF.
pub fn line_len(line: &[u8]) -> usize
    ensures value { take result line.now ≡ line_of line.now }
    ensures length { length (line_of line.now) ≡ result }
{
    let Some((b'\n', rest)) = line.split_last() else {
        return line.len();
    };
    match rest.split_last() {
        Some((b'\r', rest)) => rest.len(),
        _ => rest.len(),
    }
}
