//! Names with passwords in a file.

ghost use Rattle.std.specs.Prelude.{◌≡◌, ◌≤◌, ◌<◌, ◌⊎◌, Err, IsErr, IsTrue, Ok, OnErr, length};
ghost use Rattle.argon2_accounts.specs.Accounts.{ChangesName, DrawsForLogin, GivesPassword, LogsNameIn, RelatesNames, Replaces, Stores, TellsOf, TellsOfRenewal};
ghost use Rattle.argon2_accounts.specs.Errors.{NameTooLong};
ghost use Rattle.argon2_accounts.specs.Accounts.{IsClosed, IsHonest, Kept, adding, database_of, after_salt, drawn_salt, policy_value, setting};

use crate::error::AccountError;
use argon2::login::Accepted;
use argon2_policy::{LoggedIn, Policy};
use argon2_rows::table::MAX_LEN;
use argon2_store::{AccountFile, FileError};
use rand_core::Rng;
use sqlite_trees::store::Store;
use std::fmt;

/// Names with passwords in a file: a policy for the texts, and the file that keeps them, whose methods are
/// the calls that need no password.
#[derive(Drop)]
pub struct Accounts<'key, S: Store> {
    /// The policy under which passwords are hashed and verified.
    pub policy: Policy<'key>,
    /// The names with their texts.
    pub file: AccountFile<S>,
}

impl<'key, S: Store> Accounts<'key, S> {
    /// Gives a new name of at most 4096 bytes a text of a password, as [`Policy::hash_password`] makes it. The
    /// password is hashed before the name is looked up, so that the call needs as much time for a name that is taken
    /// as for a new one. 16 bytes are drawn from `rng`, except for a name that is too long.
    ///
    /// # Errors
    /// The first of these that holds:
    /// - [`AccountError::NameTooLong`]: the name has more than 4096 bytes. Nothing is hashed then.
    /// - the errors of [`Policy::hash_password`].
    /// - the errors of [`AccountFile::add`].
    pub fn register<R: Rng>(
        &mut self,
        rng: &mut R,
        name: &str,
        password: &[u8],
    ) -> Result<(), AccountError>
        ensures long { 4096 < length name.now → (result ≡ Err NameTooLong) × (self.new ≡ self.old)
            × (rng.new ≡ rng.old) }
        ensures call { length name.now ≤ 4096 → Stores name.now adding
            (policy_value self.old.policy).target password.now (drawn_salt (R.stream rng.old)) result
            self.old.file self.new.file }
        ensures names { RelatesNames (GivesPassword (policy_value self.old.policy) name.now password.now
            result) self.old.file self.new.file }
        ensures policy { self.new.policy ≡ self.old.policy }
        ensures drawn { length name.now ≤ 4096 → R.stream rng.new ≡ after_salt (R.stream rng.old) }
    {
        if name.len() > MAX_LEN {
            return Err(AccountError::NameTooLong);
        }
        let text = self.policy.hash_password(rng, password)?;
        self.file.add(name, &text).map_err(AccountError::from)
    }

    /// Verifies a password against the text of a name, and renews the text, as [`Policy::log_in`]. It
    /// returns [`Accepted::Rehashed`] once the file holds the fresh text, and [`Accepted::Kept`] if there is
    /// no memory for a fresh text or it can't be written; the file is then still open. Nothing is drawn except
    /// for a fresh text; then 16 bytes are.
    ///
    /// # Errors
    /// The first of these that holds:
    /// - the errors of [`AccountFile::text_of`]: the file has to be opened again, or can't be read.
    /// - the errors of [`Policy::log_in`]: the name is unknown, or its text does not accept the password.
    /// - the errors of writing, as [`AccountFile::replace`]: the password is right, and writing the fresh text
    ///   has closed the file.
    pub fn log_in<R: Rng>(
        &mut self,
        rng: &mut R,
        name: &str,
        password: &[u8],
    ) -> Result<Accepted, AccountError>
        ensures call { Replaces TellsOfRenewal (policy_value self.old.policy).target name.now
            password.now (drawn_salt (R.stream rng.old)) result self.old.file self.new.file }
        ensures names { RelatesNames (LogsNameIn (policy_value self.old.policy) name.now password.now
            (drawn_salt (R.stream rng.old)) result) self.old.file self.new.file }
        ensures policy { self.new.policy ≡ self.old.policy }
        ensures drawn { DrawsForLogin result (R.stream rng.old) (R.stream rng.new) }
        ensures served { IsHonest S.Store (database_of self.new.file) → OnErr result
            (IsClosed self.new.file ⊎ (R.stream rng.new ≡ R.stream rng.old)) }
        ensures kept { IsHonest S.Store (database_of self.new.file) → result ≡ Ok Kept →
            ¬ IsClosed self.new.file }
    {
        let text = self.file.text_of(name)?;
        let done = self.policy.log_in(rng, text.as_deref(), password)?;
        let LoggedIn::Renewed(renewal) = done else {
            return Ok(done.accepted());
        };
        let renewed = self.file.replace(name, renewal.old, &renewal.fresh);
        after_renewal(renewed, self.file.is_closed())
    }

    /// Gives a name a text of a new password if its text accepts the old one, as
    /// [`Policy::change_password`]. 16 bytes are drawn after the old one is accepted, and otherwise none.
    ///
    /// # Errors
    /// The first of these that holds:
    /// - the errors of [`log_in`](Accounts::log_in) with the old password, except for the errors of writing.
    /// - the errors of [`Policy::hash_password`] with the new one.
    /// - the errors of writing, as [`AccountFile::replace`].
    pub fn change_password<R: Rng>(
        &mut self,
        rng: &mut R,
        name: &str,
        old: &[u8],
        new: &[u8],
    ) -> Result<(), AccountError>
        ensures call { Replaces TellsOf (policy_value self.old.policy).target name.now new.now
            (drawn_salt (R.stream rng.old)) result self.old.file self.new.file }
        ensures names { RelatesNames (ChangesName (policy_value self.old.policy) name.now old.now new.now
            (R.stream rng.old) (R.stream rng.new) result) self.old.file self.new.file }
        ensures policy { self.new.policy ≡ self.old.policy }
        ensures drawn { (R.stream rng.new ≡ after_salt (R.stream rng.old))
            ⊎ (IsErr result × (R.stream rng.new ≡ R.stream rng.old)) }
    {
        let text = self.file.text_of(name)?;
        let stored = text.as_deref();
        let renewal = self.policy.change_password(rng, stored, old, new)?;
        let done = self.file.replace(name, renewal.old, &renewal.fresh);
        done.map_err(AccountError::from)
    }

    /// Gives a name that has a text a text of a new password, whatever text it has. A name that is locked is
    /// not locked any more. 16 bytes are drawn from `rng`, whatever the call returns.
    ///
    /// # Errors
    /// The first of these that holds:
    /// - the errors of [`Policy::hash_password`].
    /// - the errors of [`AccountFile::set`]. A name that is unknown is denied, as by [`log_in`](Accounts::log_in).
    pub fn set_password<R: Rng>(
        &mut self,
        rng: &mut R,
        name: &str,
        new: &[u8],
    ) -> Result<(), AccountError>
        ensures call { Stores name.now setting (policy_value self.old.policy).target new.now
            (drawn_salt (R.stream rng.old)) result self.old.file self.new.file }
        ensures names { RelatesNames (GivesPassword (policy_value self.old.policy) name.now new.now
            result) self.old.file self.new.file }
        ensures policy { self.new.policy ≡ self.old.policy }
        ensures drawn { R.stream rng.new ≡ after_salt (R.stream rng.old) }
    {
        let text = self.policy.hash_password(rng, new)?;
        self.file.set(name, &text).map_err(AccountError::from)
    }
}

impl<S: Store> fmt::Debug for Accounts<'_, S> {
    fn fmt<W: fmt::Write>(&self, f: &mut fmt::Formatter<W>) -> fmt::Result {
        f.debug_struct("Accounts")
            .field("policy", &self.policy)
            .field("file", &self.file)
            .finish()
    }
}

// The answer of a login whose text was to be replaced. If the fresh text can't be written, and the file is still open, the login
// is accepted without it.
fn after_renewal(renewed: Result<(), FileError>, closed: bool) -> Result<Accepted, AccountError>
    ensures tells { TellsOfRenewal result renewed }
    ensures closed { OnErr result (IsTrue closed) }
    ensures kept { result ≡ Ok Kept → ¬ IsTrue closed }
{
    match renewed {
        Ok(()) => Ok(Accepted::Rehashed),
        Err(_) if !closed => Ok(Accepted::Kept),
        Err(error) => Err(error.into()),
    }
}
