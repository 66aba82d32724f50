//! A policy, under which a service hashes and verifies passwords.

ghost use Rattle.std.proofs.Props.{props};
ghost use Rattle.std.specs.Prelude.{◌≡◌, ◌≤◌, length};
ghost use Rattle.std.specs.Option.{ForSome};
ghost use Rattle.argon2.specs.Argon2.{secret_of, settings_of};
ghost use Rattle.argon2.specs.Bound.{IsWithin};
ghost use Rattle.argon2.specs.Refusals.{max_len};
ghost use Rattle.argon2.specs.TextHashing.{IsTarget, target_of};

use crate::denial::Denial;
use crate::hashes::{Hashes, settings_of};
use crate::login::{LoggedIn, Renewal};
use crate::stored::read;
use argon2::bound::{Bound, BoundError};
use argon2::password_hash::{Error, Settings};
use argon2::{Argon2, MAX_SECRET_LEN, PasswordHash, PasswordHasher};
use rand_core::Rng;
use std::alloc::Global;
use std::fmt;

/// Whether a stored text that accepts a password stays.
#[derive(Clone, Copy)]
pub(crate) enum Age {
    /// The target's secret accepts, and the text is no weaker than the target.
    Recent,
    /// The text is to be made anew.
    Outdated,
}

/// What a service hashes and verifies passwords under: a target, whose hashes fit into texts; a bound on the costs
/// of a stored text, which the target is within; and an old secret, if one is given.
#[derive(Drop)]
pub struct Policy<'key> {
    alloc: Global,
    target: Argon2<'key>,
    old: Option<&'key [u8]>,
    bound: Bound,
    ghost fits: { IsTarget (target_of target) } by { Prim.hlevel props },
    ghost within: { IsWithin bound (settings_of target).parameters } by { Prim.hlevel props },
    ghost short: { ForSome old (λ secret. length secret.now ≤ max_len) },
}

impl<'key> Policy<'key> {
    ghost use Rattle.std.specs.Prelude.{◌≡◌, ◌≢◌, ◌⊎◌, ◌≤◌, ◌<◌, [], Some, None, Ok, IfSome, IfOk, IfErr, MatchOption, MatchResult, option_copied};
    ghost use Rattle.argon2_base.specs.declared.error.Error.TheVariants.{SecretTooLong};
    ghost use Rattle.argon2_policy.specs.Policy.{AdmitsStored, AsksFor, AsksWithin, HashesRefused, IsChangeRefusal, Denies, IsHashingRefusal, IsAged, IsDenial, IsFound, IsFresh, IsNewPolicy, IsNoWeaker, LogsIn, Phc};
    ghost use Rattle.argon2_policy.specs.Renewals.{accepted_by, accepted_of, fresh_of, renewal_of};
    ghost use Rattle.argon2_policy.specs.Policy.{OutOfMemory, Refused, SaysValue, after_salt, drawn_salt, hashes_of_wrong, phc_of, policy_value, settings_or_target, settings_value, shown_settings, stored_of, stream_after, text_of, value_after};

    /// A policy of a target and a bound, without an old secret. Its calls allocate from `alloc`; this one
    /// allocates nothing.
    ///
    /// # Errors
    /// The first of these that holds:
    /// - [`BoundError::Refused`] with [`Error::OutputSize`]: the target's output length is above 64, the
    ///   most bytes that the hash of a PHC text has.
    /// - [`BoundError::TooExpensive`]: a cost of the target is above the bound's.
    pub fn new(
        alloc: Global,
        target: Argon2<'key>,
        bound: Bound,
    ) -> Result<Policy<'key>, BoundError>
        ensures { IsNewPolicy (target_of target.entry) bound result }
    {
        if !target.params().hash_fits_text() {
            return Err(BoundError::Refused(Error::OutputSize));
        }
        if !bound.allows(target.params()) {
            return Err(BoundError::TooExpensive);
        }
        Ok(Policy {
            alloc,
            target,
            old: None,
            bound,
        })
    }

    /// The policy with an old secret, 0 to 4294967295 bytes: a text that the target's secret refuses is
    /// tried under it. An empty one accepts the texts that were made under none.
    ///
    /// # Errors
    /// [`Error::SecretTooLong`](argon2::Error::SecretTooLong) if the secret is longer.
    pub fn with_old_secret(self, secret: &'key [u8]) -> argon2::Result<Policy<'key>>
        ensures { MatchResult result
            (λ policy. (length secret.now ≤ max_len)
            × (policy_value policy
            ≡ record (policy_value self.entry) { old_secret = Some secret.now }))
            (λ e. (e ≡ SecretTooLong) × (max_len < length secret.now)) }
    {
        if secret.len() > MAX_SECRET_LEN {
            return Err(argon2::Error::SecretTooLong);
        }
        Ok(Policy {
            alloc: self.alloc,
            target: self.target,
            old: Some(secret),
            bound: self.bound,
        })
    }

    /// A fresh text of a password, under the target, with a salt of 16 bytes that are drawn from `rng`.
    /// They are drawn even if the call is refused. The memory of the hash is requested in one request,
    /// and freed before the call returns.
    ///
    /// # Errors
    /// The first of these that holds:
    /// - [`Error::OutOfMemory`]: the request was refused.
    /// - [`Error::PasswordInvalid`]: the password is longer than 4294967295 bytes.
    pub fn hash_password<R: Rng>(&self, rng: &mut R, password: &[u8]) -> Result<PasswordHash, Error>
        ensures made { MatchResult result
            (λ text. IsFresh (policy_value self.now).target password.now
            (drawn_salt (R.stream rng.old)) (phc_of text))
            (IsHashingRefusal password.now) }
        ensures accepted { IfOk result (λ text.
            AdmitsStored (policy_value self.now) password.now (Some (text_of text))) }
        ensures current { IfOk result (λ text.
            IsNoWeaker (policy_value self.now).target (phc_of text)) }
        ensures drawn { R.stream rng.new ≡ after_salt (R.stream rng.old) }
    {
        self.target.hash_password(self.alloc, rng, password)
    }

    /// Verifies a password by what is stored for a name: a text that asks for no more than the bound, under the
    /// target's secret, and if that refuses it, under the old one. `stored` is `None` if the name is unknown. A text
    /// stays if the target's secret accepts the password and the text is no weaker than the target: it has the target's
    /// algorithm, version, key identifier and associated data, no lower cost and no shorter hash. For any other text
    /// that is accepted a fresh one is made, as by [`hash_password`](Policy::hash_password). The caller stores the fresh
    /// text in the place of the old one, which the [`Renewal`] has too.
    ///
    /// A password that is refused is hashed once, and once more under an old secret: with the costs of the text if that can be
    /// verified, and else with the target's. So a refusal takes about as long if the name is unknown as with a text of the
    /// target's costs. No contract says so: time is not proved. A text above the bound is refused without a hash.
    ///
    /// Nothing is drawn except for a fresh text; then 16 bytes are drawn, even if there is no memory for the text.
    ///
    /// # Errors
    /// The first of these that holds:
    /// - [`Denial::NameUnknown`]: nothing is stored.
    /// - [`Denial::Locked`]: the text is locked.
    /// - [`Denial::OtherScheme`]: the text begins as one of another scheme.
    /// - [`Denial::Refused`] with [`Error::EncodingInvalid`]: the text is outside the grammar of PHC texts.
    /// - the errors of [`Bound::admit_stored`], whatever memory there is.
    /// - [`Denial::Refused`] with [`Error::OutOfMemory`] or [`Error::PasswordInvalid`]: the text does not accept the
    ///   password under the target's secret, nor under the old one.
    pub fn log_in<'text, R: Rng>(
        &self,
        rng: &mut R,
        stored: Option<&'text str>,
        password: &[u8],
    ) -> Result<LoggedIn<'text>, Denial>
        ensures step { let text = option_copied stored.entry in MatchResult result
            (λ done. (v : Phc) × SaysValue text v × LogsIn (policy_value self.now) password.now
            (drawn_salt (R.stream rng.old)) v (accepted_of done) (value_after v (fresh_of done)))
            (Denies (policy_value self.now) password.now text) }
        ensures old { IfOk result (λ done. IfSome (renewal_of done) (λ renewal.
            option_copied stored.entry ≡ Some renewal.old.now)) }
        ensures accepted { let text = option_copied stored.entry in MatchResult result
            (λ done. AdmitsStored (policy_value self.now) password.now text
            × IfSome (fresh_of done) (λ fresh.
            AdmitsStored (policy_value self.now) password.now (Some (text_of fresh))))
            (λ e. (e ≡ Refused OutOfMemory)
            ⊎ ¬ (AdmitsStored (policy_value self.now) password.now text)) }
        ensures current { IfOk result (λ done. IfSome (fresh_of done) (λ fresh.
            IsNoWeaker (policy_value self.now).target (phc_of fresh))) }
        ensures drawn { R.stream rng.new ≡ stream_after (accepted_by result) (R.stream rng.old) }
    {
        let (old, age) = self.admit(stored, password, &mut Hashes::new())?;
        if let Age::Recent = age {
            return Ok(LoggedIn::Current);
        }
        let Ok(fresh) = self.hash_password(rng, password) else {
            return Ok(LoggedIn::Kept);
        };
        Ok(LoggedIn::Renewed(Renewal { old, fresh }))
    }

    /// A fresh text of a new password, if what is stored accepts the old password as by
    /// [`log_in`](Policy::log_in). The caller stores the fresh text in the place of the old one. 16 bytes are
    /// drawn after the old password is accepted, and otherwise none. An old password that is refused is hashed
    /// as by [`log_in`](Policy::log_in).
    ///
    /// # Errors
    /// The first of these that holds:
    /// - the errors of [`log_in`](Policy::log_in) with the old password.
    /// - [`Denial::Refused`] with the errors of [`hash_password`](Policy::hash_password) with the new one.
    pub fn change_password<'text, R: Rng>(
        &self,
        rng: &mut R,
        stored: Option<&'text str>,
        old: &[u8],
        new: &[u8],
    ) -> Result<Renewal<'text>, Denial>
        ensures made { let text = option_copied stored.entry in let before = R.stream rng.old in MatchResult result
            (λ renewal. AdmitsStored (policy_value self.now) old.now text
            × IsFresh (policy_value self.now).target new.now (drawn_salt before) (phc_of renewal.fresh)
            × (R.stream rng.new ≡ after_salt before))
            (IsChangeRefusal (policy_value self.now) old.now new.now text before (R.stream rng.new)) }
        ensures old { IfOk result (λ renewal. option_copied stored.entry ≡ Some renewal.old.now) }
        ensures accepted { IfOk result (λ renewal.
            AdmitsStored (policy_value self.now) new.now (Some (text_of renewal.fresh))) }
    {
        let (text, _) = self.admit(stored, old, &mut Hashes::new())?;
        let fresh = self.hash_password(rng, new)?;
        Ok(Renewal { old: text, fresh })
    }

    // The text that is stored, if it accepts a password, and whether it stays.
    fn admit<'text>(
        &self,
        stored: Option<&'text str>,
        password: &[u8],
        hashes: &mut Hashes,
    ) -> Result<(&'text str, Age), Denial>
        requires { hashes.old ≡ [] }
        ensures text { IfOk result (λ found. option_copied stored.entry ≡ Some found.0.now) }
        ensures found { IfOk result (λ found. (v : Phc) × SaysValue (option_copied stored.entry) v
            × AsksWithin (policy_value self.now).bound v × IsFound (policy_value self.now) password.now v found.1) }
        ensures denied { IfErr result
            (Denies (policy_value self.now) password.now (option_copied stored.entry)) }
        ensures refused { IfErr result (λ why. (why ≡ Refused OutOfMemory)
            ⊎ ¬ (AdmitsStored (policy_value self.now) password.now (option_copied stored.entry))) }
        ensures hashed { IfErr result (λ why.
            HashesRefused (policy_value self.now) password.now (option_copied stored.entry) why hashes.new) }
    {
        match read(stored) {
            Ok((text, hash)) => Ok((text, self.verify(&hash, password, hashes)?)),
            Err(why) => {
                self.hash_for_nobody(password, hashes);
                Err(why)
            }
        }
    }

    // Verifies a password by what a stored text says.
    fn verify(
        &self,
        hash: &PasswordHash,
        password: &[u8],
        hashes: &mut Hashes,
    ) -> Result<Age, Denial>
        requires { hashes.old ≡ [] }
        ensures found { IfOk result (λ age. AsksWithin (policy_value self.now).bound (phc_of hash.now)
            × IsFound (policy_value self.now) password.now (phc_of hash.now) age) }
        ensures denied { IfErr result
            (IsDenial (policy_value self.now) password.now (phc_of hash.now)) }
        ensures hashed { IfErr result (λ why. AsksFor (hashes_of_wrong (policy_value self.now)
            (settings_or_target (policy_value self.now).target (stored_of (phc_of hash.now))) password.now)
            why hashes.new) }
    {
        let text = match self.bound.admit_stored(hash) {
            Ok(text) => text,
            Err(BoundError::TooExpensive) => return Err(Denial::TooExpensive),
            Err(BoundError::Refused(error)) => {
                self.hash_for_nobody(password, hashes);
                return Err(Denial::Refused(error));
            }
        };
        let Err(error) = hashes.verify(&self.target, self.alloc, password, &text) else {
            return Ok(self.age(&text.settings));
        };
        if error != Error::PasswordInvalid {
            return Err(Denial::Refused(error));
        }
        let Some(old) = self.old_target() else {
            return Err(Denial::Refused(error));
        };
        hashes.verify(&old, self.alloc, password, &text)?;
        Ok(Age::Outdated)
    }

    // Hashes a password as if it were wrong for a text of the target's settings.
    fn hash_for_nobody(&self, password: &[u8], hashes: &mut Hashes)
        requires { hashes.old ≡ [] }
        ensures { hashes.new ≡ hashes_of_wrong (policy_value self.now)
            (policy_value self.now).target.settings password.now }
    {
        hashes.make(&self.target, self.alloc, password);
        if let Some(old) = self.old_target() {
            hashes.make(&old, self.alloc, password);
        }
    }

    // The target under the old secret, if there is one.
    fn old_target(&self) -> Option<Argon2<'key>>
        ensures { MatchOption result ((policy_value self.now).old_secret ≡ None) (λ old.
            ((policy_value self.now).old_secret ≡ Some (secret_of old))
            × (settings_of old ≡ (policy_value self.now).target.settings)) }
    {
        let target = &self.target;
        let (algorithm, version) = (target.algorithm(), target.version());
        Argon2::new_with_secret(self.old?, algorithm, version, *target.params()).ok()
    }

    // Whether a text with these settings stays.
    fn age(&self, shown: &Settings) -> Age
        ensures { (v : Phc) → shown_settings v ≡ Ok (settings_value shown.now)
            → IsAged (policy_value self.now).target v result }
    {
        if shown.is_no_weaker_than(&settings_of(&self.target)) {
            Age::Recent
        } else {
            Age::Outdated
        }
    }
}

/// Shows neither the secrets nor whether there are any.
impl fmt::Debug for Policy<'_> {
    fn fmt<W: fmt::Write>(&self, f: &mut fmt::Formatter<W>) -> fmt::Result {
        f.debug_struct("Policy")
            .field("target", &self.target)
            .field("bound", &self.bound)
            .finish_non_exhaustive()
    }
}
