//! The program over any streams.

ghost use Rattle.std.specs.Prelude.{◌≡◌, ◌↔◌, ◌≤◌, ◌++◌, ◌∷◌, [], IfSome, IfOk, OnOk, IfErr, map, string_bytes};
ghost use Rattle.std.specs.Io.KnownBytes.{Keeps};
ghost use Rattle.hex.specs.Hex.{encode_lower};
ghost use Rattle.argon2_base.specs.Blake2b.{blake2b};
ghost use Rattle.argon2_tool.specs.Commands.{AnswersCommand, FailsBy, IsCommand, IsPage, IsReply, Spells};
ghost use Rattle.argon2_io.specs.Lines.{AppendsPrefix};
ghost use Rattle.argon2_tool.specs.Failures.{IsOfInput, IsReported};

use crate::arguments::{Command, Request};
use crate::failure::Failure;
use argon2::blake2b::Blake2b;
use argon2::blake2b_long::blake2b_long;
use argon2::{Argon2, PasswordHasher, PasswordVerifier};
use argon2_io::{self as io, write_line};
use std::alloc::Global;
use std::io::{ErrorKind, Read, Write};

const USAGE: &str =
    "usage: argon2-tool digest N | long N | tag ALG VER M T P LEN SALT | phc ALG VER M T P SALT | verify TEXT";

// The last line has its line feed from `write_line`.
const HELP: &str = "\
argon2-tool reads all of standard input, also a line break at its end, and writes one line.

    argon2-tool digest N                         BLAKE2b digest of N bytes, 1 to 64
    argon2-tool long N                           hash of any length (RFC 9106, 3.3) of N bytes, 1 to 1024
    argon2-tool tag ALG VER M T P LEN SALT       tag of LEN bytes, 4 to 1024, of a password
    argon2-tool phc ALG VER M T P SALT           PHC string of a password, to store
    argon2-tool verify TEXT                      ok if the PHC string accepts the password
    argon2-tool --help                           this help
    argon2-tool --version                        the version

What the words mean, and where they go wrong:

    N, LEN    how many bytes, written in hexadecimal: a number above the range is no command
    ALG       argon2d, argon2i or argon2id
    VER       19, or 16 for the version before: 13 is refused
    M         memory in blocks of 1024 bytes, not MiB: 8 or more for each lane
    T, P      passes and lanes: 1 or more
    SALT      8 bytes or more, as they are: for a text to store take new ones each time
    TEXT      in single quotes: in others the shell reads its dollar signs

Numbers are decimals without leading zeros. echo adds a line break to a password, and printf does not.

    printf 'correct horse' | argon2-tool phc argon2id 19 19456 2 1 \"$(openssl rand -hex 16)\"

The status is 0 if the line is written. It is 1 if the command is refused or fails, which standard error
explains, and 2 if the arguments spell no command.";

// With the version in the file VERSION.
const VERSION: &str = "argon2-tool 0.6.0+2";

/// Runs the command that `args` spell on `input`, and returns the exit status.
///
/// Status 0: the command's line is written to `output`, and nothing to `errors`. Status 1: the command
/// fails, and the reason is written to `errors` as a line. Nothing is written to `output`, unless a write
/// of `output` fails. Status 2: the arguments spell no command, `errors` has the usage line, and neither
/// `input` nor `output` is touched. The help and the version do not touch `input` either. If `errors`
/// can't be written, the status stays.
pub fn run<R: Read, W: Write, E: Write>(
    alloc: Global,
    args: &[String],
    input: &mut R,
    output: &mut W,
    errors: &mut E,
) -> u8
    ensures status { result ≤ 2 }
    ensures usage { (result ≡ 2) ↔ ((c : Command) → ¬ Spells (map string_bytes args.now) c) }
    ensures unread { result ≡ 2 → input.new ≡ input.old }
    ensures page { (c : Command) → Spells (map string_bytes args.now) c → IsPage c
        → input.new ≡ input.old }
    ensures unwritten { result ≡ 2 → output.new ≡ output.old }
    ensures answered { result ≡ 0 → (c : Command) × Spells (map string_bytes args.now) c
        × AnswersCommand c (R.remaining input.old) (W.contents output.old) (W.contents output.new) }
    ensures quiet { result ≡ 0 → Keeps (E.contents errors.old) (E.contents errors.new) }
    ensures failed { result ≡ 1 → (c : Command) × Spells (map string_bytes args.now) c
        × (failure : Failure)
        × FailsBy c failure (R.remaining input.old) (W.contents output.old) (W.contents output.new)
        × IsReported failure (E.contents errors.old) (E.contents errors.new) }
    ensures usage_line { result ≡ 2 → AppendsPrefix (E.contents errors.old) (E.contents errors.new)
        (USAGE.now ++ 10 ∷ []) }
{
    let Some(command) = Command::parse(args) else {
        let _ = write_line(errors, &[USAGE.as_bytes()]);
        return 2;
    };
    match answer(alloc, &command, input, output) {
        Ok(()) => 0,
        Err(failure) => fail(errors, failure),
    }
}

/// Says on `errors` why the program fails, and returns the exit status, 1.
pub fn fail<E: Write>(errors: &mut E, failure: Failure) -> u8
    ensures status { result ≡ 1 }
    ensures reported { IsReported failure (E.contents errors.old) (E.contents errors.new) }
{
    let (start, name, end) = failure.text();
    let _ = write_line(
        errors,
        &[
            b"argon2: ",
            start.as_bytes(),
            name.as_bytes(),
            end.as_bytes(),
        ],
    );
    1
}

// Writes the answer of a command to `output`, as a line.
fn answer<R: Read, W: Write>(
    alloc: Global,
    command: &Command<'_>,
    input: &mut R,
    output: &mut W,
) -> Result<(), Failure>
    requires { IsCommand command.now }
    ensures ok { OnOk result (AnswersCommand command.now (R.remaining input.old)
        (W.contents output.old) (W.contents output.new)) }
    ensures err { IfErr result (λ failure. FailsBy command.now failure (R.remaining input.old)
        (W.contents output.old) (W.contents output.new)) }
    ensures page { IsPage command.now → input.new ≡ input.old }
{
    let text = reply(alloc, command, input)?;
    match write_line(output, &[text.as_str().as_bytes()]) {
        Ok(()) => Ok(()),
        Err(error) => Err(io::Failure::Output(error).into()),
    }
}

// The reply of a command to the input.
fn reply<R: Read>(alloc: Global, command: &Command<'_>, input: &mut R) -> Result<String, Failure>
    requires { IsCommand command.now }
    ensures reply { IfSome (R.remaining input.old) (λ message.
        IsReply command.now message result) }
    ensures page { IsPage command.now → input.new ≡ input.old }
{
    match *command {
        Command::Digest(len) => digest(alloc, len as usize, input),
        Command::Long(len) => long(alloc, len as usize, &read_all(alloc, input)?),
        Command::Tag(request, len, salt) => {
            tag(alloc, request, len, salt, &read_all(alloc, input)?)
        }
        Command::Phc(request, salt) => phc(alloc, request, salt, &read_all(alloc, input)?),
        Command::Verify(text) => verify(alloc, text, &read_all(alloc, input)?),
        Command::Help => Ok(String::from_str(alloc, HELP)?),
        Command::Version => Ok(String::from_str(alloc, VERSION)?),
    }
}

/// All that is left in `input`.
pub(crate) fn read_all<R: Read>(alloc: Global, input: &mut R) -> Result<Vec<u8>, Failure>
    ensures ok { IfOk result (λ bytes. IfSome (R.remaining input.old)
        (λ message. bytes.items ≡ message)) }
    ensures err { IfErr result IsOfInput }
{
    let mut bytes = Vec::new(alloc);
    input.read_to_end(&mut bytes)?;
    Ok(bytes)
}

// The BLAKE2b digest of the input, of `len` bytes, in hex. The input is read in pieces, so that it
// needs no memory.
fn digest<R: Read>(alloc: Global, len: usize, input: &mut R) -> Result<String, Failure>
    requires low { 1 ≤ len }
    requires high { len ≤ 64 }
    ensures ok { IfOk result (λ text. IfSome (R.remaining input.old)
        (λ message. string_bytes text ≡ encode_lower (blake2b len message))) }
    ensures err { IfErr result IsOfInput }
{
    let mut hasher = Blake2b::new(len);
    let mut piece = [0u8; 65536];
    'pieces: for turn in 0..u64::MAX {
        match input.read(&mut piece) {
            Ok(0) => {
                let mut out = [0u8; 64];
                hasher.finalize_into(&mut out[..len]);
                let text = hex::encode(alloc, &out[..len])?;
                return Ok(text);
            }
            Ok(count) => hasher.update(&piece[..count]),
            Err(e) if e.kind() == ErrorKind::Interrupted => {}
            Err(e) => return Err(e.into()),
        }
    }
    Err(io::Failure::Input(ErrorKind::Other.into()).into())
}

// The variable-length hash of a message, of `len` bytes, in hex.
fn long(alloc: Global, len: usize, message: &[u8]) -> Result<String, Failure>
    requires { len ≤ 1024 }
    ensures { IsReply (Command.Long len) message.now result }
{
    let mut out = vec![in alloc; 0u8; len]?;
    blake2b_long(&[message], out.as_mut_slice())?;
    Ok(hex::encode(alloc, out.as_slice())?)
}

// The tag of a password, of `len` bytes, in hex.
fn tag(
    alloc: Global,
    request: Request<'_>,
    len: u32,
    salt: &str,
    password: &[u8],
) -> Result<String, Failure>
    ensures { IsReply (Command.Tag request.entry len salt.entry) password.now result }
{
    let argon2 = request.argon2()?;
    let mut out = vec![in alloc; 0u8; len as usize]?;
    argon2.hash_password_into(alloc, password, salt.as_bytes(), out.as_mut_slice())?;
    Ok(hex::encode(alloc, out.as_slice())?)
}

// The PHC text of a password.
fn phc(alloc: Global, request: Request<'_>, salt: &str, password: &[u8]) -> Result<String, Failure>
    ensures { IsReply (Command.Phc request.entry salt.entry) password.now result }
{
    let argon2 = request.argon2()?;
    let hash = argon2.hash_password_with_salt(alloc, password, salt.as_bytes())?;
    Ok(String::from_str(alloc, hash.text().as_str())?)
}

// `ok`, if a PHC text accepts a password.
fn verify(alloc: Global, text: &str, password: &[u8]) -> Result<String, Failure>
    ensures { IsReply (Command.Verify text.entry) password.now result }
{
    Argon2::default().verify_password(alloc, password, text)?;
    Ok(String::from_str(alloc, "ok")?)
}
