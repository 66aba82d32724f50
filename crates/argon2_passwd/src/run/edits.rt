//! The commands that change one name: `register`, `change`, `set`, `remove`, `lock` and `unlock`.

ghost use Rattle.std.specs.Prelude.{◌≡◌, ◌∷◌, ◌++◌, [], ℕ, List, Option};
ghost use Rattle.argon2_passwd.specs.Answers.{EndsOrFailsToOpen, EditsOnce, EndsAction, FileUse, edit_value, policy_value};

use super::accounts::{Access, open, stored_text};
use super::generator;
use super::texts::new_text;
use crate::command::{Action, EditTask, Task};
use crate::entries::name_flaw;
use crate::failure::Failure;
use crate::outside::Outside;
use crate::passwords::{read_new_password, read_password};
use argon2_store::Edit;
use std::alloc::Global;
use std::io::BufRead;

/// Changes the text of a name, by the passwords of the input.
pub(super) fn edit<P: Outside, R: BufRead>(
    alloc: Global,
    outside: &mut P,
    access: &Access<'_>,
    task: EditTask,
    name: &str,
    input: &mut R,
) -> Result<(), Failure>
    requires { P.closed outside.old [] }
    ensures { (output : Option (List ℕ)) → EndsAction P.File.Store P.gives
        (policy_value access.now.policy.now) (Action.OnFile access.now.path (Task.Edit task name.entry)) result
        (R.remaining input.old) output output (P.closed outside.new) }
{
    match task {
        EditTask::Register => {
            if let Some(flaw) = name_flaw(name) {
                return Err(Failure::Name(flaw));
            }
            let text = new_text(alloc, outside, access.policy, input)?;
            edit_file(outside, access, name, &Edit::Add(&text))
        }
        EditTask::Change => change(alloc, outside, access, name, input),
        EditTask::Set => {
            let text = new_text(alloc, outside, access.policy, input)?;
            edit_file(outside, access, name, &Edit::Set(&text))
        }
        EditTask::Remove => edit_file(outside, access, name, &Edit::Remove),
        EditTask::Lock => edit_file(outside, access, name, &Edit::Lock),
        EditTask::Unlock => edit_file(outside, access, name, &Edit::Unlock),
    }
}

/// Opens the file for one edit, and closes it.
pub(super) fn edit_file<P: Outside>(
    outside: &mut P,
    access: &Access<'_>,
    name: &str,
    edit: &Edit<'_>,
) -> Result<(), Failure>
    requires { (uses : List (FileUse P.File)) × P.closed outside.old uses }
    ensures { (uses : List (FileUse P.File)) → P.closed outside.old uses → EndsOrFailsToOpen
        (EditsOnce P.File.Store access.now.path.now name.now (edit_value edit.now)
        (λ more. P.closed outside.new (uses ++ more))) (P.closed outside.new uses) result }
{
    let mut accounts = open(outside, access)?;
    let done = accounts.edit(name, edit);
    outside.close(accounts.into_store());
    done.map_err(Failure::from)
}

// `change`: the first password of the input is the old one, and the second is the new one. No file is open while passwords are
// hashed.
fn change<P: Outside, R: BufRead>(
    alloc: Global,
    outside: &mut P,
    access: &Access<'_>,
    name: &str,
    input: &mut R,
) -> Result<(), Failure>
    requires { P.closed outside.old [] }
    ensures { (output : Option (List ℕ)) → EndsAction P.File.Store P.gives
        (policy_value access.now.policy.now) (Action.OnFile access.now.path (Task.Edit EditTask.Change name.entry)) result
        (R.remaining input.old) output output (P.closed outside.new) }
{
    let mut rng = generator(outside)?;
    let first = read_password(alloc, input)?;
    let second = read_new_password(alloc, input)?;
    let (first, second) = (first.as_slice(), second.as_slice());
    let text = stored_text(outside, access, name)?;
    let stored = text.as_deref();
    let renewal = access
        .policy
        .change_password(&mut rng, stored, first, second)?;
    let edit = Edit::Replace(renewal.old, &renewal.fresh);
    edit_file(outside, access, name, &edit)
}
