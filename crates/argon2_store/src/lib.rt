//! Accounts in a file: names with PHC texts, in a SQLite database that survives a crash at any moment.
//!
//! ```text
//! let mut accounts = AccountFile::open(rt, "accounts.db", Wary)?;
//! accounts.add("ann", &policy.hash_password(&mut rng, password)?)?;
//! let text = accounts.text_of("ann")?;
//! ```
//!
//! After a call has returned `Ok`, the file holds its change, whatever happens to the process or to the machine. After a
//! crash in the middle of a call the file holds the accounts from before the call, or with its change. No name is kept in
//! memory: a call looks its name up in the file. Each change is a transaction, which is synced to the disk before the call
//! returns.
//!
//! A name is any text, empty or not. Two names are the same if their bytes are.
//!
//! The file is a SQLite database with one table, and has a log, a second file with a name that ends in `-wal`. While the
//! file is open, no other process can read or write it: a second process gets [`OpenError::Busy`], and `sqlite3` says that
//! the database is locked. While the file is not open, `sqlite3` may read and change it.
//!
//! An open refuses a database as [`OpenError::NotAccounts`] unless it has pages of 4096 bytes, UTF-8, no auto_vacuum, and
//! exactly the table of the accounts, with the SQL text of database.rt: no other table, view, index or trigger. So it
//! refuses a file after `ANALYZE`, which adds a table. The `user_version` of the database is the format of the rows. It is
//! 0, and a file with another number is refused as [`OpenError::Format`].
#![tactic(auto)]

mod account_file;
mod additions;
mod database;
mod edit;
mod error;
mod format;
mod headers;
mod path;
mod runs;

pub use account_file::{AccountFile, AccountsAt};
pub use argon2_rows::{StoredText, View};
pub use edit::Edit;
pub use error::{FileError, LineError, OpenError};
pub use path::{is_made, make_file};
pub use runs::{account_file_runs, failed_open, next_run};
