//! A login store that renews old texts: names with PHC texts, and the target of new texts.

ghost use Rattle.std.specs.Prelude.{◌≡◌, ◌≢◌, ◌⊎◌, Some, IfOk, OnOk, MatchResult};
ghost use Rattle.std.specs.FinMap.{empty, entries, get, insert};
ghost use Rattle.std.specs.Option.{IsSomeAnd, option_copied, option_map};
ghost use Rattle.argon2.specs.TextHashing.{drawn_salt};
ghost use Rattle.argon2_base.specs.PhcFields.{phc_of};
ghost use Rattle.argon2_base.specs.PhcText.{Phc, IsPhcText};
ghost use Rattle.argon2_base.specs.declared.error.password_hash.Error.TheVariants.{OutOfMemory as NoMemory};
ghost use Rattle.argon2.specs.declared.login.answers.Accepted.TheVariants.{Kept};
ghost use Rattle.argon2.specs.declared.login.answers.LoginError.TheVariants.{Refused};
ghost use Rattle.argon2.specs.Login.{HasPassword, IsNew, Steps, adding, logging_in, store_of, login_target};
ghost use Rattle.argon2.specs.NamedTexts.{IsCurrent, KeepsOthers, with_texts, named_values, stream_after};
ghost use Rattle.argon2.specs.TextHashing.{target_of};

use crate::context::Argon2;
use crate::password_hash::Result;
use argon2_base::phc::PasswordHash;
use rand_core::Rng;
use std::alloc::Global;
use std::collections::BTreeMap;
use std::collections::btree_map::Iter;
use std::fmt;
use std::result::Result as Outcome;

mod answers;
mod runs;
mod target;

use answers::LoggedIn;
pub use answers::{Accepted, LoginError};
pub use runs::login_runs;
use target::Target;

/// Names with their texts, and a target: the settings and the secret that texts are verified and
/// made anew under.
#[derive(Drop)]
pub struct Login<'key> {
    alloc: Global,
    target: Target<'key>,
    texts: BTreeMap<String, PasswordHash>,
}

impl<'key> Login<'key> {
    /// A store without names. Its calls allocate from `alloc`; this one allocates nothing.
    ///
    /// # Errors
    /// [`Error::OutputSize`] if the target's output length is above 64, the most bytes that the
    /// hash of a PHC text has.
    pub fn new(alloc: Global, target: Argon2<'key>) -> Result<Login<'key>>
        ensures { IsNew (target_of target.entry) result }
    {
        Ok(Login {
            alloc,
            target: Target::new(target)?,
            texts: BTreeMap::new(alloc),
        })
    }

    /// Gives a new name its text. It allocates a copy of the name and, if the map has no room, a node.
    ///
    /// # Errors
    /// The first of these that holds; the store is then as before:
    /// - [`LoginError::Text`]: the text is outside the grammar of PHC texts.
    /// - [`LoginError::NameTaken`]: the name has a text.
    /// - [`LoginError::OutOfMemory`]: a request for memory was refused.
    pub fn add(&mut self, name: &str, text: &str) -> Outcome<(), LoginError>
        ensures step { Steps (adding name.now text.now result) self.old self.new }
        ensures text { OnOk result ((v : Phc) → IsPhcText text.now v →
            get (store_of self.new) name.now ≡ Some v) }
        ensures inserted { OnOk result ((v : Phc) → IsPhcText text.now v →
            store_of self.new ≡ insert (store_of self.old) name.now v) }
        ensures others { KeepsOthers name.now (store_of self.old) (store_of self.new) }
        ensures target { login_target self.new ≡ login_target self.old }
    {
        let Ok(parsed) = PasswordHash::new(text) else {
            return Err(LoginError::Text);
        };
        if self.texts.contains_key(name) {
            return Err(LoginError::NameTaken);
        }
        let Ok(key) = String::from_str(self.alloc, name) else {
            return Err(LoginError::OutOfMemory);
        };
        let Ok(_) = self.texts.insert(key, parsed) else {
            return Err(LoginError::OutOfMemory);
        };
        Ok(())
    }

    /// Verifies a password against the text of a name, under the target's secret. If the text
    /// accepts the password and has other settings than the target, a fresh text is made of the
    /// password under the target, with a salt of 16 bytes that are drawn from `rng`, and written
    /// over the old one, which takes no memory. [`Accepted`] says what was done.
    ///
    /// Draws 16 bytes if it makes a fresh text, even if that then runs out of memory; otherwise none.
    /// Verifying makes one request for memory and a fresh text another; both are freed before the call
    /// returns.
    ///
    /// # Errors
    /// The store is then as before:
    /// - [`LoginError::NameUnknown`]: the name has no text.
    /// - [`LoginError::Refused`]: verifying fails with the error that it holds.
    pub fn login<R: Rng>(
        &mut self,
        rng: &mut R,
        name: &str,
        password: &[u8],
    ) -> Outcome<Accepted, LoginError>
        ensures step { Steps (logging_in name.now password.now
            (drawn_salt (R.stream rng.old)) result) self.old self.new }
        ensures accepted { MatchResult result
            (λ _. HasPassword (login_target self.old) (store_of self.new) name.now password.now)
            (λ e. (e ≡ Refused NoMemory)
            ⊎ (HasPassword (login_target self.old) (store_of self.old) name.now password.now → ⊥)) }
        ensures current { IfOk result (λ accepted. accepted ≢ Kept →
            IsSomeAnd (get (store_of self.new) name.now) (IsCurrent (login_target self.new))) }
        ensures others { KeepsOthers name.now (store_of self.old) (store_of self.new) }
        ensures drawn { R.stream rng.new ≡ stream_after result (R.stream rng.old) }
        ensures target { login_target self.new ≡ login_target self.old }
    {
        let Some(text) = self.texts.get_mut(name) else {
            return Err(LoginError::NameUnknown);
        };
        self.target.log_in_text(self.alloc, rng, text, password)
    }

    /// The text of a name, if it has one.
    pub fn text_of(&self, name: &str) -> Option<&PasswordHash>
        ensures { option_map phc_of (option_copied result) ≡ get (store_of self.now) name.now }
    {
        self.texts.get(name)
    }

    /// The names and their texts, in the order of the names' bytes. A store to which
    /// [`add`](Login::add) gives all of them has the same texts.
    pub fn texts(&self) -> Iter<'_, String, PasswordHash>
        ensures texts { named_values result ≡ entries (store_of self.now) }
        ensures again { with_texts (named_values result) empty ≡ store_of self.now }
    {
        self.texts.iter()
    }
}

/// Shows neither names nor texts.
impl fmt::Debug for Login<'_> {
    fn fmt<W: fmt::Write>(&self, f: &mut fmt::Formatter<W>) -> fmt::Result {
        f.debug_struct("Login")
            .field("target", &self.target)
            .finish_non_exhaustive()
    }
}
