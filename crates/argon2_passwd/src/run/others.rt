//! `import --skip`, which passes over lines.

ghost use Rattle.std.specs.Prelude.{◌≡◌, ◌||◌, [], ℕ, List, None, Err, Ok, Option, if◌then◌else◌, IfErr, IfOk, OnOk, map};
ghost use Rattle.argon2_passwd.specs.Answers.{AddsOthers, Damaged, FailsToLook, HasNames, IsHonest, EndsAction, Looks, Serves, Texts, additions, database_of, entry_of, entry_or_flaw, has_name, has_text, is_refusal, line_has_name, new_line, new_lines, file_failure, policy_value, status_of};

use super::accounts::{Access, open};
use crate::command::{Action, Task};
use crate::entries::read_all;
use crate::failure::{Failure, Flaw};
use crate::lines::{Line, entries_and_flaws, read_lines};
use crate::outside::Outside;
use argon2_rows::StoredText;
use argon2_store::{AccountFile, FileError};
use sqlite_trees::store::Store;
use std::alloc::Global;
use std::collections::BTreeSet;
use std::io::BufRead;

/// Adds the names and texts of all lines that may be added, in one transaction, and fails with the numbers of the other lines.
pub(super) fn import_others<P: Outside, R: BufRead>(
    alloc: Global,
    outside: &mut P,
    access: &Access<'_>,
    any_text: bool,
    input: &mut R,
) -> Result<(), Failure>
    requires { P.closed outside.old [] }
    ensures { (output : Option (List ℕ)) → EndsAction P.File.Store P.gives
        (policy_value access.now.policy.now) (Action.OnFile access.now.path (Task.ImportOthers any_text))
        result (R.remaining input.old) output output (P.closed outside.new) }
{
    let bytes = read_all(alloc, input)?;
    let lines = read_lines(alloc, bytes.as_slice(), any_text)?;
    let mut accounts = open(outside, access)?;
    let added = add_others(alloc, &mut accounts, lines.as_slice());
    outside.close(accounts.into_store());
    added
}

// Adds the entries of the lines whose names neither the file nor an earlier line has.
fn add_others<S: Store>(
    alloc: Global,
    accounts: &mut AccountFile<S>,
    lines: &[Line<'_>],
) -> Result<(), Failure>
    ensures { AddsOthers result (map entry_or_flaw lines.now) accounts.old accounts.new }
{
    let new = new_lines(alloc, accounts, lines)?;
    let (entries, passed) = entries_and_flaws(alloc, new.as_slice())?;
    add_new(accounts, entries.as_slice())?;
    if passed.is_empty() {
        Ok(())
    } else {
        Err(Failure::Passed(passed))
    }
}

// Each line, or the flaw that the file or an earlier line has its name.
fn new_lines<'a, S: Store>(
    alloc: Global,
    accounts: &mut AccountFile<S>,
    lines: &[Line<'a>],
) -> Result<Vec<Line<'a>>, Failure>
    ensures looks { OnOk result (Looks None accounts.old accounts.new) }
    ensures fails { IfErr result (λ failure. (status_of failure ≡ 3)
        × FailsToLook failure accounts.old accounts.new) }
    ensures new { (known : Texts) → HasNames accounts.old known → IfOk result (λ found.
        IsHonest S.Store (database_of accounts.new) → map entry_or_flaw found.items
        ≡ new_lines (has_text known) (map entry_or_flaw lines.now)) }
{
    let mut names = BTreeSet::new(alloc);
    let mut found = Vec::new(alloc);
    for line in lines {
        found.push(unless_taken(accounts, &mut names, *line)?)?;
    }
    Ok(found)
}

// The line, or the flaw that its name is taken: `names` or the file has the name. A name of an entry joins `names`.
fn unless_taken<'a, S: Store>(
    accounts: &mut AccountFile<S>,
    names: &mut BTreeSet<&'a str>,
    line: Line<'a>,
) -> Result<Line<'a>, Failure>
    ensures looks { OnOk result (Looks None accounts.old accounts.new) }
    ensures fails { IfErr result (λ failure. (status_of failure ≡ 3)
        × FailsToLook failure accounts.old accounts.new) }
    ensures new { (known : Texts) → HasNames accounts.old known → IfOk result (λ new.
        IsHonest S.Store (database_of accounts.new) → entry_or_flaw new ≡ new_line
        (λ name. has_name names.old name || has_text known name) (entry_or_flaw line.entry)) }
    ensures names { OnOk result ((name : List ℕ) → has_name names.new name
        ≡ (line_has_name (entry_or_flaw line.entry) name || has_name names.old name)) }
{
    let Ok((name, _)) = line else {
        return Ok(line);
    };
    if !names.insert(name)? {
        return Ok(Err(Flaw::Taken));
    }
    if accounts.text_of(name)?.is_some() {
        Ok(Err(Flaw::Taken))
    } else {
        Ok(line)
    }
}

// Adds entries whose names were looked up. If a name is taken nevertheless, the disk gave a wrong answer.
fn add_new<S: Store>(
    accounts: &mut AccountFile<S>,
    entries: &[(&str, StoredText<'_>)],
) -> Result<(), Failure>
    ensures ok { OnOk result
        (Serves (additions (map entry_of entries.now)) (Ok tt) accounts.old accounts.new) }
    ensures err { IfErr result (λ failure. (status_of failure ≡ 3) × (e : FileError)
        × Serves (additions (map entry_of entries.now)) (Err e) accounts.old accounts.new
        × (failure ≡ file_failure (if is_refusal e then Damaged else e))) }
{
    match accounts.add_all(entries) {
        Ok(()) => Ok(()),
        Err((_, error)) if error.is_refusal() => Err(FileError::Damaged.into()),
        Err((_, error)) => Err(error.into()),
    }
}
