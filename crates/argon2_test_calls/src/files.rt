//! Calls on accounts in a file. The answer of a call on a name ends with its text then, or why it can't be read, and with
//! `closed` if the file has to be opened again.

use crate::answer::Answer;
use crate::call::Call;
use crate::own_context;
use argon2::PasswordHash;
use argon2_accounts::Accounts;
use argon2_policy::Policy;
use argon2_rows::{StoredText, View};
use argon2_store::{AccountFile, OpenError, account_file_runs};
use sqlite_std_file::{FileFrom, Wary};
use sqlite_store::FileStore;
use sqlite_trees::store::Store;

pub(crate) type OnDisk = FileStore<FileFrom<Wary>>;

// The calls that need files on a disk. All else is over any store that has them: the prover takes long for each call that
// passes `OnDisk` on.
pub(crate) trait Disks: Store + Drop {
    fn open(rt: &HostRuntime, path: &str) -> Result<AccountFile<Self>, OpenError>;

    fn checkpoint(answer: &Answer, file: &mut AccountFile<Self>);
}

impl Disks for OnDisk {
    fn open(rt: &HostRuntime, path: &str) -> Result<AccountFile<OnDisk>, OpenError> {
        AccountFile::open(rt, path, Wary)
    }

    fn checkpoint(answer: &Answer, file: &mut AccountFile<OnDisk>) {
        answer.display_done(file.checkpoint());
    }
}

pub(crate) fn make<'a, S: Disks>(
    rt: &HostRuntime,
    call: &Call<'_, 'a>,
    answer: &Answer,
    accounts: &mut Option<Accounts<'a, S>>,
) -> bool {
    match call.name {
        "account_file_runs" => {
            account_file_runs();
            answer.display("Ok");
        }
        "AccountFile::open" => open(rt, call, answer, accounts),
        "AccountFile::into_store" => {
            if let Some(Accounts { file, .. }) = accounts.take() {
                file.into_store();
                answer.display("Ok");
            }
        }
        _ => match accounts {
            Some(held) => make_on_accounts(call, answer, held),
            None => return false,
        },
    }
    true
}

// `AccountFile::open PATH CONTEXT M T P`: a file, and the policy for its accounts that the last four make.
fn open<'a, S: Disks>(
    rt: &HostRuntime,
    call: &Call<'_, 'a>,
    answer: &Answer,
    accounts: &mut Option<Accounts<'a, S>>,
) {
    let Ok(policy) = Policy::new(answer.alloc, own_context(call, 2), call.bound(3)) else {
        return answer.refuse();
    };
    if let Some(file) = answer.ok(S::open(rt, call.word(1))) {
        *accounts = Some(Accounts { policy, file });
        answer.display("Ok");
    }
}

fn make_on_accounts<S: Disks>(call: &Call<'_, '_>, answer: &Answer, held: &mut Accounts<'_, S>) {
    match call.name {
        "AccountFile::write_lines" => write_lines(answer, &mut held.file),
        "AccountFile::checkpoint" => S::checkpoint(answer, &mut held.file),
        "AccountFile::add_all" => add_all(call, answer, &mut held.file),
        name => {
            match name {
                name if name.starts_with("AccountFile::") => make_on_name(
                    call,
                    answer,
                    &mut held.file,
                ),
                _ => make_with_password(call, answer, held),
            }
            show_text(call, answer, &mut held.file);
        }
    }
    if held.file.is_closed() {
        answer.display("closed");
    }
}

// The lines, joined by spaces.
fn write_lines<S: Store>(answer: &Answer, file: &mut AccountFile<S>) {
    let mut output = Vec::new(answer.alloc);
    answer.display_done(file.write_lines(View::Export, &mut output));
    for entry in str::from_utf8(&output).unwrap_or("").lines() {
        answer.display(entry);
    }
}

// `NAME TEXT NAME TEXT`: an error comes with the place of the entry that is refused.
fn add_all<S: Store>(call: &Call<'_, '_>, answer: &Answer, file: &mut AccountFile<S>) {
    let Ok((one, _)) = StoredText::new(call.word(2)) else {
        return call.refuse();
    };
    let Ok((other, _)) = StoredText::new(call.word(4)) else {
        return call.refuse();
    };
    match file.add_all(&[(call.word(1), one), (call.word(3), other)]) {
        Ok(()) => answer.display("Ok"),
        Err((place, e)) => {
            answer.debug(e);
            answer.display("at");
            answer.display(place);
        }
    }
}

// A call on `NAME`.
fn make_on_name<S: Store>(call: &Call<'_, '_>, answer: &Answer, file: &mut AccountFile<S>) {
    let name = call.word(1);
    match call.name {
        "AccountFile::text_of" => {}
        "AccountFile::remove" => answer.display_done(file.remove(name)),
        "AccountFile::lock" => answer.display_done(file.lock(name)),
        "AccountFile::unlock" => answer.display_done(file.unlock(name)),
        // `.. TEXT`.
        "AccountFile::add" => {
            if let Some(text) = answer.ok(PasswordHash::new(call.str(2))) {
                answer.display_done(file.add(name, &text));
            }
        }
        "AccountFile::set" => {
            if let Some(text) = answer.ok(PasswordHash::new(call.str(2))) {
                answer.display_done(file.set(name, &text));
            }
        }
        // `.. OLD NEW`.
        "AccountFile::replace" => {
            if let Some(new) = answer.ok(PasswordHash::new(call.str(3))) {
                answer.display_done(file.replace(name, call.word(2), &new));
            }
        }
        _ => call.refuse(),
    }
}

// The text of `NAME`, or why it can't be read.
fn show_text<S: Store>(call: &Call<'_, '_>, answer: &Answer, file: &mut AccountFile<S>) {
    if let Some(text) = answer.ok(file.text_of(call.word(1))) {
        answer.display_or_none(text);
    }
}

// A call on `NAME GENERATOR PASSWORD`, or `NAME GENERATOR OLD NEW`.
fn make_with_password<S: Store>(call: &Call<'_, '_>, answer: &Answer, held: &mut Accounts<'_, S>) {
    let (name, mut rng, password) = (call.word(1), call.generator(2), call.bytes(3));
    match call.name {
        "Accounts::register" => answer.display_done(held.register(&mut rng, name, password)),
        "Accounts::log_in" => answer.debug_result(held.log_in(&mut rng, name, password)),
        "Accounts::set_password" => answer.display_done(held.set_password(
            &mut rng, name, password,
        )),
        "Accounts::change_password" => {
            answer.display_done(held.change_password(&mut rng, name, password, call.bytes(4)));
        }
        _ => call.refuse(),
    }
    answer.display_drawn(&rng);
}
