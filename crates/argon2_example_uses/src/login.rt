//! Logging in: names with passwords, over a store that renews old texts.

ghost use Rattle.std.specs.Prelude.{◌≡◌, ◌≢◌, ◌↔◌, ◌⊎◌, Some, None, IsSome, IsSomeAnd, IfOk, IfErr, OnOk, OnErr, MatchResult};
ghost use Rattle.std.specs.FinMap.{get};
ghost use Rattle.argon2.specs.TextHashing.{drawn_salt};
ghost use Rattle.argon2.specs.Argon2.{secret_of};
ghost use Rattle.argon2.specs.Login.{HasPassword, store_of, login_target};
ghost use Rattle.argon2.specs.NamedTexts.{IsCurrent, KeepsOthers};
ghost use Rattle.argon2.specs.TextHashing.{hash_value, target_of};
ghost use Rattle.argon2.specs.base_declared.error.password_hash.Error.TheVariants.{OutOfMemory};
ghost use Rattle.argon2.specs.declared.login.answers.Accepted.TheVariants.{Kept};
ghost use Rattle.argon2.specs.declared.login.answers.LoginError.TheVariants.{Refused};
ghost use Rattle.argon2_example_uses.specs.Login.{FindsAndLeaves, HasPasswordUnder, IsMoveRefusal, IsRegisterRefusal, TakesOver};

use argon2::login::{Accepted, Login, LoginError};
use argon2::password_hash::Error;
use argon2::{Argon2, PasswordHasher};
use rand_core::Rng;
use std::alloc::Global;

/// Gives a new name a text of its password, made under `argon2` with a salt from `rng`. The secret
/// of `argon2` is to be the store's.
///
/// # Errors
/// [`LoginError::Refused`] if no text can be made, else the errors of [`Login::add`].
pub fn register<R: Rng>(
    store: &mut Login<'_>,
    argon2: &Argon2<'_>,
    alloc: Global,
    rng: &mut R,
    name: &str,
    password: &[u8],
) -> Result<(), LoginError>
    ensures new_name { OnOk result (get (store_of store.old) name.now ≡ None) }
    ensures registered { OnOk result
        (HasPasswordUnder (secret_of argon2.now) store.new name.now password.now) }
    ensures text { OnOk result (get (store_of store.new) name.now ≡ Some (hash_value
        (target_of argon2.now) password.now (drawn_salt (R.stream rng.old)))) }
    ensures others { KeepsOthers name.now (store_of store.old) (store_of store.new) }
    ensures target { login_target store.new ≡ login_target store.old }
    ensures refused { IfErr result (IsRegisterRefusal (target_of argon2.now) store.old
        name.now password.now (drawn_salt (R.stream rng.old))) }
    ensures same { OnErr result (store_of store.new ≡ store_of store.old) }
{
    let hash = match argon2.hash_password(alloc, rng, password) {
        Ok(hash) => hash,
        Err(e) => return Err(LoginError::Refused(e)),
    };
    store.add(name, hash.text().as_str())
}

/// Returns `None` if the name does not have this password, else what the login did with its text: after
/// [`Accepted::Rehashed`] the text is a new one, which [`Login::text_of`] returns.
///
/// # Errors
/// [`LoginError::Refused`] with the reason if the name's text can't be verified.
pub fn log_in<R: Rng>(
    store: &mut Login<'_>,
    rng: &mut R,
    name: &str,
    password: &[u8],
) -> Result<Option<Accepted>, LoginError>
    ensures answer { let target = login_target store.old in
        let is = HasPassword target (store_of store.old) name.now password.now in
        MatchResult result (λ accepted. IsSome accepted ↔ is)
        (λ e. (e ≡ Refused OutOfMemory) ⊎ (is → ⊥)) }
    ensures still { let target = login_target store.new in IfOk result (λ accepted.
        IsSome accepted → HasPassword target (store_of store.new) name.now password.now) }
    ensures left { FindsAndLeaves store.old name.now password.now (drawn_salt (R.stream rng.old))
        result store.new }
    ensures others { KeepsOthers name.now (store_of store.old) (store_of store.new) }
    ensures target { login_target store.new ≡ login_target store.old }
{
    match store.login(rng, name, password) {
        Ok(accepted) => Ok(Some(accepted)),
        Err(LoginError::NameUnknown | LoginError::Refused(Error::PasswordInvalid)) => Ok(None),
        Err(e) => Err(e),
    }
}

/// Takes a name over from elsewhere with its text, and logs it in. An error of [`Login::login`]
/// leaves the name with that text.
///
/// # Errors
/// The errors of [`Login::add`], and then the errors of [`Login::login`].
pub fn take_over<R: Rng>(
    store: &mut Login<'_>,
    rng: &mut R,
    name: &str,
    text: &str,
    password: &[u8],
) -> Result<Accepted, LoginError>
    ensures answer { TakesOver store.old name.now text.now password.now
        (drawn_salt (R.stream rng.old)) result store.new }
    ensures current { IfOk result (λ did. did ≢ Kept →
        IsSomeAnd (get (store_of store.new) name.now) (IsCurrent (login_target store.new))) }
    ensures others { KeepsOthers name.now (store_of store.old) (store_of store.new) }
{
    store.add(name, text)?;
    store.login(rng, name, password)
}

/// A store of the same names and texts that renews them under another target.
///
/// # Errors
/// [`LoginError::Refused`] if the target's hashes don't fit into texts, and
/// [`LoginError::OutOfMemory`].
pub fn moved<'key>(
    store: &Login<'_>,
    alloc: Global,
    target: Argon2<'key>,
) -> Result<Login<'key>, LoginError>
    ensures texts { IfOk result (λ new. store_of new ≡ store_of store.now) }
    ensures target { IfOk result (λ new. login_target new ≡ target_of target.entry) }
    ensures refused { IfErr result (IsMoveRefusal (target_of target.entry)) }
{
    let mut new = match Login::new(alloc, target) {
        Ok(new) => new,
        Err(e) => return Err(LoginError::Refused(e)),
    };
    for (name, text) in store.texts() {
        new.add(name, text.text().as_str())?;
    }
    Ok(new)
}
