//! The settings and the secret of a store: they verify its texts and renew them.

ghost use Rattle.std.proofs.Props.{props};
ghost use Rattle.argon2.specs.TextHashing.{target_of, IsTarget};

use super::{Accepted, LoggedIn, LoginError};
use crate::context::Argon2;
use crate::password_hash::{Error, PasswordHasher, Result, Settings, Stored};
use argon2_base::phc::PasswordHash;
use rand_core::Rng;
use std::alloc::Global;
use std::result::Result as Outcome;

// Settings and a secret whose hashes fit into texts.
#[derive(Debug, Drop)]
pub(super) struct Target<'key> {
    argon2: Argon2<'key>,
    ghost fits: { IsTarget (target_of argon2) } by { Prim.hlevel props },
}

impl<'key> Target<'key> {
    ghost use Rattle.std.specs.Prelude.{◌≡◌, ◌≢◌, ◌↔◌, ◌⊎◌, ℕ, List, Some, Ok, Err, IsSome, IsTrue, IfOk, MatchResult};
    ghost use Rattle.std.specs.FinMap.{get, insert};
    ghost use Rattle.argon2_base.specs.PhcFields.{phc_of};
    ghost use Rattle.argon2_base.specs.PhcText.{Phc};
    ghost use Rattle.argon2_base.specs.declared.error.password_hash.Error.TheVariants.{OutOfMemory};
    ghost use Rattle.argon2.specs.StoredTexts.{AcceptsBy, IsVerifyAnswer, settings_value, stored_of, stored_value};
    ghost use Rattle.argon2.specs.Argon2.{settings_of};
    ghost use Rattle.argon2.specs.NamedTexts.{IsCurrent, Leaves, Store, accepted_by, stream_after, value_after};
    ghost use Rattle.argon2.specs.Login.{IsNewTarget, IsLoginAnswer, target_value};
    ghost use Rattle.argon2.specs.TextHashing.{IsHashingRefusal, IsFresh, after_salt, drawn_salt, with_tag_length};
    ghost use Rattle.argon2.specs.declared.login.answers.Accepted.TheVariants.{Kept, Rehashed};
    ghost use Rattle.argon2.specs.declared.login.answers.LoginError.TheVariants.{Refused};

    // The target that hashes as `argon2` does, or `OutputSize` if its hashes do not fit into texts.
    pub(super) fn new(argon2: Argon2<'key>) -> Result<Target<'key>>
        ensures { IsNewTarget (target_of argon2.entry) result }
    {
        if !argon2.params().hash_fits_text() {
            return Err(Error::OutputSize);
        }
        Ok(Target { argon2 })
    }

    // Verifies a password against a text, and writes the fresh text over it if there is one.
    pub(super) fn log_in_text<R: Rng>(
        &self,
        alloc: Global,
        rng: &mut R,
        text: &mut PasswordHash,
        password: &[u8],
    ) -> Outcome<Accepted, LoginError>
        ensures step { (store : Store) (name : List ℕ) → get store name ≡ Some (phc_of text.old) →
            IsLoginAnswer (target_value self.now) store name password.now
            (drawn_salt (R.stream rng.old)) (Some (phc_of text.old)) result
            (insert store name (phc_of text.new)) }
        ensures accepted { MatchResult result
            (λ _. AcceptsBy (target_value self.now).secret password.now (phc_of text.new))
            (λ e. (e ≡ Refused OutOfMemory)
            ⊎ (AcceptsBy (target_value self.now).secret password.now (phc_of text.old) → ⊥)) }
        ensures current { IfOk result (λ accepted. accepted ≢ Kept →
            IsCurrent (target_value self.now) (phc_of text.new)) }
        ensures drawn { R.stream rng.new ≡ stream_after result (R.stream rng.old) }
    {
        let stored = match Stored::try_from(&*text) {
            Ok(stored) => stored,
            Err(e) => return Err(LoginError::Refused(e)),
        };
        let LoggedIn { accepted, fresh } = match self.log_in(alloc, rng, password, &stored) {
            Ok(done) => done,
            Err(e) => return Err(LoginError::Refused(e)),
        };
        let Some(fresh) = fresh else {
            return Ok(accepted);
        };
        *text = fresh;
        Ok(accepted)
    }

    // Verifies a password against a text under the target's secret. `stored` is what the text shows.
    fn verify(&self, alloc: Global, password: &[u8], stored: &Stored<'_>) -> Result<()>
        ensures { (v : Phc) → stored_of v ≡ Ok (stored_value stored.now) → MatchResult result
            (λ _. AcceptsBy (target_value self.now).secret password.now v)
            (λ e. IsVerifyAnswer (target_value self.now).secret password.now v (Err e)) }
    {
        self.argon2.verify_stored(alloc, password, stored)
    }

    // Verifies a password against a text, and makes a fresh text of it if the text has another algorithm,
    // version, parameters or hash length than the target.
    fn log_in<R: Rng>(
        &self,
        alloc: Global,
        rng: &mut R,
        password: &[u8],
        stored: &Stored<'_>,
    ) -> Result<LoggedIn>
        ensures step { (v : Phc) → stored_of v ≡ Ok (stored_value stored.now) → MatchResult result
            (λ done. AcceptsBy (target_value self.now).secret password.now v
            × Leaves (target_value self.now) password.now (drawn_salt (R.stream rng.old)) v
            done.accepted (value_after v done.fresh))
            (λ e. IsVerifyAnswer (target_value self.now).secret password.now v (Err e)) }
        ensures fresh { IfOk result (λ done. IsSome done.fresh ↔ (done.accepted ≡ Rehashed)) }
        ensures drawn { R.stream rng.new ≡ stream_after (accepted_by result) (R.stream rng.old) }
    {
        self.verify(alloc, password, stored)?;
        if self.is_shown_by(&stored.settings) {
            return Ok(LoggedIn {
                accepted: Accepted::Current,
                fresh: None,
            });
        }
        let Ok(fresh) = self.hash_password(alloc, rng, password) else {
            return Ok(LoggedIn {
                accepted: Accepted::Kept,
                fresh: None,
            });
        };
        Ok(LoggedIn {
            accepted: Accepted::Rehashed,
            fresh: Some(fresh),
        })
    }

    // Makes a fresh text of a password, with a salt of 16 bytes that are drawn from `rng`.
    fn hash_password<R: Rng>(
        &self,
        alloc: Global,
        rng: &mut R,
        password: &[u8],
    ) -> Result<PasswordHash>
        ensures made { MatchResult result (λ text. IsFresh (target_value self.now) password.now
            (drawn_salt (R.stream rng.old)) (phc_of text)) (IsHashingRefusal password.now) }
        ensures drawn { R.stream rng.new ≡ after_salt (R.stream rng.old) }
    {
        self.argon2.hash_password(alloc, rng, password)
    }

    // Whether a text with these settings has the target's settings and hash length.
    fn is_shown_by(&self, shown: &Settings) -> bool
        ensures { IsTrue result ↔ (settings_value shown.now ≡ with_tag_length (settings_of self.now.argon2)) }
    {
        let target = &self.argon2;
        if shown.algorithm != target.algorithm() || shown.version != target.version() {
            return false;
        }
        let (shown, wanted) = (&shown.params, target.params());
        if shown.m_cost() != wanted.m_cost() || shown.t_cost() != wanted.t_cost() {
            return false;
        }
        if shown.p_cost() != wanted.p_cost() {
            return false;
        }
        if shown.output_len() != Some(wanted.hash_len()) {
            return false;
        }
        shown.keyid() == wanted.keyid() && shown.data() == wanted.data()
    }
}
