//! Runs a command, over any streams and any `Outside`.
#![tactic(auto, using(crate::proofs::Common::unwritten_keeps))]

ghost use Rattle.std.specs.Prelude.{◌≡◌, ◌≤◌, ◌⊎◌, ◌++◌, ◌∷◌, [], ℕ, vec_items, IfErr, IfOk, IsTrue, OnOk, false, string_bytes, take};
ghost use Rattle.argon2_passwd.specs.Answers.{Appends, AppendsPrefix, IsDenialOf, EndsAction, EndsCommand, IsPolicy, IsSalt, IsSecret, WritesErrors, Outcome, Params, WritesLine, denial_line, news_of, news_text, next_salt, option_map, policy_by, policy_value, status_by, status_of};

use crate::command::{Action, Command, EditTask, Task};
use crate::failure::{Failure, Flaw, SecretKind};
use crate::options::Options;
use crate::outside::{News, Outside};
use argon2::{Algorithm, Argon2, Version};
use argon2_io::write_line;
use argon2_policy::Policy;
use rand_chacha::ChaCha20Rng;
use rand_core::SeedableRng;
use std::alloc::{AllocError, Global};
use std::io::{self, BufRead, Write};

mod accounts;
mod edits;
mod others;
mod texts;

/// The name of the program.
pub const PROGRAM: &str = "argon2-passwd";

/// Answers a command, and returns the exit status.
///
/// Status 0: the answer is written to `output`, and to `errors` the news of the file, if there is some. Status 1: the
/// password, the name or a line is refused. Status 2: the parameters are above the bound. Status 3: a file, a stream,
/// random bytes or a request for memory failed. Status 4: the text that was to accept the password is outside the
/// grammar, has no valid parameters, is above the bound or of another scheme; or an import has passed over lines.
/// Unless it is 0, the failure's text is written to `errors`, and nothing to `output`; only a write of it that fails may
/// leave a prefix of the answer, and a list what could be read. If `errors` can't be written, the status stays. Unless
/// `explain` is set, a refused login has the same text for an unknown name, a locked name and a wrong password.
/// Whatever the status, the command is all that was done with a file.
pub fn run<P: Outside, R: BufRead, W: Write, E: Write>(
    alloc: Global,
    command: Command<'_>,
    outside: &mut P,
    input: &mut R,
    output: &mut W,
    errors: &mut E,
) -> u8
    requires { P.closed outside.old [] }
    ensures status { result ≤ 4 }
    ensures ended { (ended : Outcome) × (result ≡ status_by ended)
        × EndsCommand P.File.Store P.gives P.holds command.entry.options
        command.entry.action ended (R.remaining input.old) (W.contents output.old)
        (W.contents output.new) (P.closed outside.new)
        × WritesErrors command.entry.options command.entry.action (P.news outside.new) ended
        (E.contents errors.old) (E.contents errors.new) }
{
    let answered = answer(alloc, &command, outside, input, output);
    tell(alloc, errors, command.action, outside.news());
    match answered {
        Ok(()) => 0,
        Err(failure) => fail(errors, &command, &failure),
    }
}

// Writes the news of the file to `errors`, as far as one write goes.
fn tell<E: Write>(alloc: Global, errors: &mut E, action: Action<'_>, news: News)
    ensures { (n : ℕ) × Appends (E.contents errors.old) (E.contents errors.new)
        (take n (news_of action.entry news)) }
{
    if let Action::OnFile(path, _) = action
        && let Ok(text) = news_text(alloc, path, news)
    {
        let _ = errors.write(text.as_str().as_bytes());
    }
}

// The lines of the news.
fn news_text(alloc: Global, path: &str, news: News) -> Result<String, AllocError>
    ensures { IfOk result (λ text. string_bytes text ≡ news_text path.now news) }
{
    let made = if news.is_made {
        format!(in alloc; "{PROGRAM}: made {path}\n")?
    } else {
        String::new(alloc)
    };
    let behind = if news.is_behind {
        format!(in alloc; "{PROGRAM}: {path}-wal has changes that {path} lacks: keep both\n")?
    } else {
        String::new(alloc)
    };
    format!(in alloc; "{made}{behind}")
}

/// Writes to `errors` why the program fails, and returns the exit status. Nothing is written if the reader of standard output has
/// gone.
pub fn fail<E: Write>(errors: &mut E, command: &Command<'_>, failure: &Failure) -> u8
    ensures value { result ≡ status_of failure.now }
    ensures some { (1 ≤ result) × (result ≤ 4) }
    ensures denied { command.now.options.explain ≡ false → IsDenialOf command.now.action failure.now →
        AppendsPrefix (E.contents errors.old) (E.contents errors.new) denial_line }
{
    let _ = say_failure(errors, command, failure);
    failure.status()
}

/// Writes to `errors` why the program fails, and nothing if the reader of standard output has gone. Unless `explain` is set, a
/// refused login has the same line for an unknown name, a locked name and a wrong password.
///
/// # Errors
/// A write fails. Then a prefix of the line is written.
pub fn say_failure<E: Write>(
    errors: &mut E,
    command: &Command<'_>,
    failure: &Failure,
) -> io::Result<()>
    ensures denied { command.now.options.explain ≡ false → IsDenialOf command.now.action failure.now →
        OnOk result (Appends (E.contents errors.old) (E.contents errors.new) denial_line) }
    ensures cut { command.now.options.explain ≡ false → IsDenialOf command.now.action failure.now →
        AppendsPrefix (E.contents errors.old) (E.contents errors.new) denial_line }
{
    if matches!(failure, Failure::Unread) {
        Ok(())
    } else if let Failure::Passed(lines) = failure {
        write_passed(errors, lines.as_slice())
    } else if is_hidden(command, failure) {
        write_line(errors, &[b"argon2-passwd: name or password is invalid"])
    } else {
        match subject(command, failure) {
            Some(subject) => writeln!(errors, "{PROGRAM}: {subject}: {failure}"),
            None => writeln!(errors, "{PROGRAM}: {failure}"),
        }
    }
}

// Writes which lines were passed over, and why.
fn write_passed<E: Write>(errors: &mut E, lines: &[(usize, Flaw)]) -> io::Result<()> {
    for (number, why) in lines {
        writeln!(errors, "{PROGRAM}: line {number}: {why}")?;
    }
    Ok(())
}

// Whether the message must hide whether the file has the name.
fn is_hidden(command: &Command<'_>, failure: &Failure) -> bool
    ensures { command.now.options.explain ≡ false → IsDenialOf command.now.action failure.now → IsTrue result }
{
    let logs_in = matches!(
        command.action,
        Action::OnFile(_, Task::Verify(_) | Task::Edit(EditTask::Change, _))
    );
    logs_in && failure.is_denial() && !command.options.explain
}

// What the message names: the path of a file that fails, the name whose text no password opens, or `HASH` of `check`.
fn subject<'a>(command: &Command<'a>, failure: &Failure) -> Option<&'a str> {
    match failure {
        Failure::Secret(kind) | Failure::SecretLength(kind) => match kind {
            SecretKind::Current => command.options.secret_file,
            SecretKind::Old => command.options.old_secret_file,
        },
        Failure::File(error) if error.is_refusal() => None,
        Failure::Unfit(_) | Failure::Unopened(_) | Failure::File(_) | Failure::BrokenLine => {
            match command.action {
                Action::OnFile(path, _) => Some(path),
                _ => None,
            }
        }
        failure if failure.status() == 4 => match command.action {
            Action::Check(_) => Some("HASH"),
            Action::OnFile(_, Task::Verify(name) | Task::Edit(_, name)) => Some(name),
            _ => None,
        },
        _ => None,
    }
}

// Answers a command.
fn answer<P: Outside, R: BufRead, W: Write>(
    alloc: Global,
    command: &Command<'_>,
    outside: &mut P,
    input: &mut R,
    output: &mut W,
) -> Result<(), Failure>
    requires { P.closed outside.old [] }
    ensures { EndsCommand P.File.Store P.gives P.holds command.now.options
        command.now.action result (R.remaining input.old) (W.contents output.old)
        (W.contents output.new) (P.closed outside.new) }
{
    let options = &command.options;
    let current = secret(outside, options.secret_file, SecretKind::Current)?;
    let old = secret(outside, options.old_secret_file, SecretKind::Old)?;
    let policy = policy(alloc, options, &current, &old)?;
    serve(alloc, outside, &policy, command.action, input, output)
}

// Does the action of a command, under a policy.
fn serve<P: Outside, R: BufRead, W: Write>(
    alloc: Global,
    outside: &mut P,
    policy: &Policy<'_>,
    action: Action<'_>,
    input: &mut R,
    output: &mut W,
) -> Result<(), Failure>
    requires { P.closed outside.old [] }
    ensures { EndsAction P.File.Store P.gives (policy_value policy.now) action.entry
        result (R.remaining input.old) (W.contents output.old) (W.contents output.new) (P.closed outside.new) }
{
    match action {
        Action::Hash => texts::hash(alloc, outside, policy, input, output),
        Action::Check(text) => texts::check(alloc, outside, policy, text, input, output),
        Action::OnFile(path, task) => {
            let if_absent = task.if_absent();
            outside.check_path(path, if_absent)?;
            let access = &accounts::Access {
                path,
                if_absent,
                rows: task.rows(),
                policy,
            };
            match task {
                Task::Verify(name) => accounts::verify(alloc, outside, access, name, input, output),
                Task::Edit(change, name) => edits::edit(
                    alloc, outside, access, change, name, input,
                ),
                Task::Show(view) => accounts::show(outside, access, view, output),
                Task::Import { any_text } => accounts::import(
                    alloc, outside, access, any_text, input,
                ),
                Task::ImportOthers { any_text } => {
                    others::import_others(alloc, outside, access, any_text, input)
                }
                Task::CheckFile => accounts::check_file(outside, access),
            }
        }
    }
}

// Reads the secret in the file at a path, if the options name a path.
fn secret<P: Outside>(
    outside: &P,
    path: Option<&str>,
    kind: SecretKind,
) -> Result<Option<Vec<u8>>, Failure>
    ensures ok { IfOk result (λ secret. IsSecret P.holds path.entry (option_map vec_items secret)) }
    ensures err { IfErr result (λ failure. status_of failure ≡ 3) }
{
    match path {
        None => Ok(None),
        Some(path) => Ok(Some(outside.secret(path, kind)?)),
    }
}

// Makes the policy of the options and their secrets.
fn policy<'key>(
    alloc: Global,
    options: &Options<'_>,
    secret: &'key Option<Vec<u8>>,
    old: &'key Option<Vec<u8>>,
) -> Result<Policy<'key>, Failure>
    ensures ok { IfOk result (λ policy. policy_value policy
        ≡ policy_by options.now (option_map vec_items secret.now) (option_map vec_items old.now)) }
    ensures err { IfErr result (λ failure. (status_of failure ≡ 3) ⊎ ((failure ≡ Params) × ¬ (IsPolicy
        (policy_by options.now (option_map vec_items secret.now) (option_map vec_items old.now))))) }
{
    let (algorithm, version) = (Algorithm::Argon2id, Version::V0x13);
    let secret: &'key [u8] = match secret {
        None => &[],
        Some(secret) => secret.as_slice(),
    };
    let Ok(argon2) = Argon2::new_with_secret(secret, algorithm, version, options.params) else {
        return Err(Failure::SecretLength(SecretKind::Current));
    };
    let Ok(policy) = Policy::new(alloc, argon2, options.bound()) else {
        return Err(Failure::Params);
    };
    match old {
        None => Ok(policy),
        Some(old) => policy
            .with_old_secret(old.as_slice())
            .or(Err(Failure::SecretLength(SecretKind::Old))),
    }
}

// Starts a generator of salts by random bytes of the system.
fn generator<P: Outside>(outside: &P) -> Result<ChaCha20Rng, Failure>
    ensures salt { IfOk result (λ rng. IsSalt P.gives (next_salt rng)) }
    ensures failed { IfErr result (λ failure. status_of failure ≡ 3) }
{
    Ok(ChaCha20Rng::from_seed(outside.seed()?))
}

// Writes a line.
fn say<W: Write>(output: &mut W, line: &str) -> Result<(), Failure>
    ensures { WritesLine (line.now ++ 10 ∷ []) result (W.contents output.old) (W.contents output.new) }
{
    write_line(output, &[line.as_bytes()])?;
    Ok(())
}
