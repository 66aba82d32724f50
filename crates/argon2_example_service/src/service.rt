//! What a service does with its accounts. Each function says by its contract what it promises of the names.

ghost use Rattle.std.specs.Prelude.{◌≡◌, ◌⊎◌, false, IfErr, IfOk, IsTrue, MatchResult};
ghost use Rattle.std.specs.FinMap.{get};
ghost use Rattle.sqlite_wal.specs.Files.{image_at};
ghost use Rattle.argon2_store.specs.AccountFile.{IsFileFrom};
ghost use Rattle.argon2_accounts.specs.Accounts.{AdmitsName, Denial, Denies, HasNames, IsHonest, RelatesNames, Texts, database_of};
ghost use Rattle.argon2_accounts.specs.Accounts.{is_account_refusal, policy_value};

use argon2_accounts::{AccountError, Accounts};
use argon2_policy::Policy;
use argon2_store::{AccountFile, OpenError};
use rand_core::Rng;
use sqlite_disk::Disk;
use sqlite_std_file::{FileFrom, Start};
use sqlite_store::FileStore;
use sqlite_trees::store::Store;

/// Opens the accounts of a service, or makes their file.
pub fn open<'key, T: Start>(
    rt: &HostRuntime,
    path: &str,
    start: T,
    policy: Policy<'key>,
) -> Result<Accounts<'key, FileStore<FileFrom<T>>>, OpenError>
    ensures { IfOk result (λ accounts. IsFileFrom (image_at T.Start) accounts.file) }
{
    let file = AccountFile::open(rt, path, start)?;
    Ok(Accounts { policy, file })
}

/// Whether a name has a password. One that is unknown or locked has none.
///
/// # Errors
/// Those of [`Accounts::log_in`] that are no refusals: memory, the disk or the file fails.
pub fn has_password<R: Rng, S: Store>(
    accounts: &mut Accounts<'_, S>,
    rng: &mut R,
    name: &str,
    password: &[u8],
) -> Result<bool, AccountError>
    ensures yes { (names : Texts) → HasNames accounts.old.file names →
        IsHonest S.Store (database_of accounts.new.file) →
        IfOk result (λ yes. IsTrue yes →
        AdmitsName (policy_value accounts.old.policy) names name.now password.now) }
    ensures no { (names : Texts) → HasNames accounts.old.file names →
        IsHonest S.Store (database_of accounts.new.file) → IfOk result (λ yes. yes ≡ false →
        (why : Denial) × Denies (policy_value accounts.old.policy) password.now
        (get names name.now) why) }
    ensures failed { IfErr result (λ e. is_account_refusal e ≡ false) }
{
    match accounts.log_in(rng, name, password) {
        Ok(_) => Ok(true),
        Err(error) if error.is_refusal() => Ok(false),
        Err(error) => Err(error),
    }
}

/// Gives a new name a password, and copies the log into the file, so that the file has it without the log.
///
/// # Errors
/// - the errors of [`Accounts::register`]: the names are as before, unless the disk failed during a commit.
/// - the errors of [`AccountFile::checkpoint`]: the name is registered.
pub fn sign_up<R: Rng, D: Disk>(
    accounts: &mut Accounts<'_, FileStore<D>>,
    rng: &mut R,
    name: &str,
    password: &[u8],
) -> Result<(), AccountError>
    ensures { RelatesNames (λ before after. MatchResult result
        (λ _. AdmitsName (policy_value accounts.old.policy) after name.now password.now)
        (λ _. (after ≡ before)
        ⊎ AdmitsName (policy_value accounts.old.policy) after name.now password.now))
        accounts.old.file accounts.new.file }
{
    accounts.register(rng, name, password)?;
    Ok(accounts.file.checkpoint()?)
}
