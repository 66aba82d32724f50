//! The commands on accounts in a file that change no single name: `verify`, `list`, `export`, `import` and `check-file`.

ghost use Rattle.std.specs.Prelude.{◌≡◌, ◌∷◌, ◌⊎◌, [], ℕ, List, Option, Some, Ok, IfErr, IfOk, MatchResult, OnErr, map, string_bytes};
ghost use Rattle.argon2_passwd.specs.Answers.{AddsLines, EndsOrFailsToOpen, FailsToRead, FileUse, IsLogin, ReadsText, IsOpened, IsSalt, EndsAction, database_of, entry_of, drawn_salt, login_by, option_map, policy_value, status_of};

use super::edits::edit_file;
use super::{generator, say};
use crate::command::{Action, Task};
use crate::entries::read_all;
use crate::failure::{Failure, Flaw};
use crate::lines::{entries_and_flaws, read_lines};
use crate::outside::{IfAbsent, Outside, RowCheck};
use crate::passwords::read_password;
use argon2::login::Accepted;
use argon2_policy::{LoggedIn, Policy};
use argon2_rows::StoredText;
use argon2_store::{AccountFile, Edit, FileError, OpenError, View};
use rand_core::Rng;
use sqlite_trees::store::Store;
use std::alloc::Global;
use std::io::{BufRead, Write};

/// The file that a command uses, how it is opened, and the policy for its texts.
#[derive(Clone, Copy)]
pub(super) struct Access<'a> {
    pub(super) path: &'a str,
    pub(super) if_absent: IfAbsent,
    pub(super) rows: RowCheck,
    pub(super) policy: &'a Policy<'a>,
}

/// `verify`: logs a name in with the next password, and writes what became of its text.
pub(super) fn verify<P: Outside, R: BufRead, W: Write>(
    alloc: Global,
    outside: &mut P,
    access: &Access<'_>,
    name: &str,
    input: &mut R,
    output: &mut W,
) -> Result<(), Failure>
    requires { P.closed outside.old [] }
    ensures { EndsAction P.File.Store P.gives (policy_value access.now.policy.now)
        (Action.OnFile access.now.path (Task.Verify name.entry)) result (R.remaining input.old)
        (W.contents output.old) (W.contents output.new) (P.closed outside.new) }
{
    let mut rng = generator(outside)?;
    let password = read_password(alloc, input)?;
    let accepted = log_in(outside, access, name, &mut rng, password.as_slice())?;
    say(output, accepted.as_str())
}

/// `list` and `export`: writes a line for each name, up to the first name that would break its line.
pub(super) fn show<P: Outside, W: Write>(
    outside: &mut P,
    access: &Access<'_>,
    view: View,
    output: &mut W,
) -> Result<(), Failure>
    requires { P.closed outside.old [] }
    ensures { (input : Option (List ℕ)) → EndsAction P.File.Store P.gives
        (policy_value access.now.policy.now) (Action.OnFile access.now.path (Task.Show view)) result input
        (W.contents output.old) (W.contents output.new) (P.closed outside.new) }
{
    let mut accounts = open(outside, access)?;
    let written = accounts.write_lines(view, output);
    outside.close(accounts.into_store());
    written.map_err(Failure::from)
}

/// `check-file`: opens the file, which checks all its rows, and closes it.
pub(super) fn check_file<P: Outside>(outside: &mut P, access: &Access<'_>) -> Result<(), Failure>
    requires { P.closed outside.old [] }
    ensures { (input output : Option (List ℕ)) → EndsAction P.File.Store P.gives
        (policy_value access.now.policy.now) (Action.OnFile access.now.path Task.CheckFile) result
        input output output (P.closed outside.new) }
{
    let accounts = open(outside, access)?;
    outside.close(accounts.into_store());
    Ok(())
}

/// `import`: adds the names and texts of all lines of the input, or none.
pub(super) fn import<P: Outside, R: BufRead>(
    alloc: Global,
    outside: &mut P,
    access: &Access<'_>,
    any_text: bool,
    input: &mut R,
) -> Result<(), Failure>
    requires { P.closed outside.old [] }
    ensures { (output : Option (List ℕ)) → EndsAction P.File.Store P.gives
        (policy_value access.now.policy.now) (Action.OnFile access.now.path (Task.Import any_text)) result
        (R.remaining input.old) output output (P.closed outside.new) }
{
    let bytes = read_all(alloc, input)?;
    let lines = read_lines(alloc, bytes.as_slice(), any_text)?;
    let (entries, flaws) = entries_and_flaws(alloc, lines.as_slice())?;
    if let Some((number, flaw)) = flaws.first() {
        return Err(Failure::Line(*number, *flaw));
    }
    let mut accounts = open(outside, access)?;
    let added = add_all(&mut accounts, entries.as_slice());
    outside.close(accounts.into_store());
    added
}

// Opens the file. While another process has the file open, the open is tried again.
pub(super) fn open<P: Outside>(
    outside: &mut P,
    access: &Access<'_>,
) -> Result<AccountFile<P::File>, Failure>
    requires { (uses : List (FileUse P.File)) × P.closed outside.old uses }
    ensures ok { IfOk result IsOpened }
    ensures err { IfErr result (λ failure. status_of failure ≡ 3) }
    ensures opened { IfOk result (λ file. (uses : List (FileUse P.File)) →
        P.closed outside.old uses → P.opened outside.new uses access.now.path.now (database_of file)) }
    ensures untouched { OnErr result ((uses : List (FileUse P.File)) →
        P.closed outside.old uses → P.closed outside.new uses) }
{
    for _ in 0..u64::MAX {
        match outside.open(access.path, access.if_absent, access.rows) {
            Err(Failure::Unopened(OpenError::Busy)) => {}
            done => return done,
        }
        if !outside.pause() {
            break;
        }
    }
    Err(Failure::Unopened(OpenError::Busy))
}

// Logs a name in: reads its text, verifies the password, and replaces a text that is renewed. No file is open while a password
// is hashed.
fn log_in<P: Outside, G: Rng>(
    outside: &mut P,
    access: &Access<'_>,
    name: &str,
    rng: &mut G,
    password: &[u8],
) -> Result<Accepted, Failure>
    requires shut { P.closed outside.old [] }
    requires salt { IsSalt P.gives (drawn_salt (G.stream rng.old)) }
    ensures { EndsOrFailsToOpen (λ done. IsLogin P.File.Store P.gives (policy_value access.now.policy.now)
        access.now.path.now name.now password.now done (P.closed outside.new))
        (P.closed outside.new []) result }
{
    let text = stored_text(outside, access, name)?;
    let done = access.policy.log_in(rng, text.as_deref(), password)?;
    let LoggedIn::Renewed(renewal) = done else {
        return Ok(done.accepted());
    };
    let edit = Edit::Replace(renewal.old, &renewal.fresh);
    after_renewal(edit_file(outside, access, name, &edit))
}

// The answer of a login whose text was to be replaced. The login is refused if the name was removed or locked meanwhile. If the
// fresh text can't be written for another reason, the login is accepted without it.
fn after_renewal(renewed: Result<(), Failure>) -> Result<Accepted, Failure>
    ensures { result ≡ login_by Accepted.Rehashed renewed }
{
    match renewed {
        Ok(()) => Ok(Accepted::Rehashed),
        Err(failure) if failure.is_denial() => Err(failure),
        Err(_) => Ok(Accepted::Kept),
    }
}

// Reads the text of a name, if the file has the name.
pub(super) fn stored_text<P: Outside>(
    outside: &mut P,
    access: &Access<'_>,
    name: &str,
) -> Result<Option<String>, Failure>
    requires { P.closed outside.old [] }
    ensures { MatchResult result
        (λ text. ReadsText P.File.Store access.now.path.now name.now
        (Ok (option_map string_bytes text)) (λ read. P.closed outside.new (read ∷ [])))
        (λ failure. FailsToRead P.File.Store access.now.path.now name.now
        (P.closed outside.new) failure ⊎ (P.closed outside.new [] × (status_of failure ≡ 3))) }
{
    let mut accounts = open(outside, access)?;
    let text = accounts.text_of(name);
    outside.close(accounts.into_store());
    Ok(text?)
}

// Adds the entries of all lines, or none. If a name is taken, the failure has the number of the first such line.
fn add_all<S: Store>(
    accounts: &mut AccountFile<S>,
    entries: &[(&str, StoredText<'_>)],
) -> Result<(), Failure>
    ensures { AddsLines result (map entry_of entries.now) accounts.old accounts.new }
{
    match accounts.add_all(entries) {
        Ok(()) => Ok(()),
        Err((index, error)) => match error {
            FileError::NameTaken => Err(Failure::Line(index.saturating_add(1), Flaw::Taken)),
            error => Err(error.into()),
        },
    }
}
