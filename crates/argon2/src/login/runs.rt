//! What is true of a login store after every list of calls.

ghost use Rattle.std.specs.Prelude.{◌≡◌, ◌≢◌, ℕ, List, Some, IsSomeAnd};
ghost use Rattle.std.specs.FinMap.{get};
ghost use Rattle.argon2_base.specs.PhcText.{phc_text};
ghost use Rattle.argon2.specs.declared.login.answers.Accepted.{Accepted};
ghost use Rattle.argon2.specs.declared.login.answers.Accepted.TheVariants.{Kept};
ghost use Rattle.argon2.specs.Login.{Event};
ghost use Rattle.argon2.specs.TextHashing.{TargetValue, IsTarget};
ghost use Rattle.argon2.specs.NamedTexts.{Store, IsCurrent, newest};
ghost use Rattle.argon2.specs.Runs.{IsFrom, IsRun, accepted, source};
ghost use Rattle.argon2.specs.StoredTexts.{Accepts};

/// After every list of calls on a new store: exactly the names that were added have a text, the one
/// that was added, or the text that the last renewal by a login made; if a name has an
/// accepted login, its text accepts the password of the last of them; and unless that login
/// answered [`Kept`](super::Accepted::Kept), the text has the settings of the target.
pub fn login_runs()
    ensures texts { (target : TargetValue) → IsTarget target → (events : List Event) (store : Store)
        → IsRun target events store → (name : List ℕ)
        → IsFrom target (newest (source name) events) (get store name) }
    ensures passwords { (target : TargetValue) → IsTarget target → (events : List Event) (store : Store)
        → IsRun target events store → (name given : List ℕ) (did : Accepted)
        → newest (accepted name) events ≡ Some (given, did)
        → IsSomeAnd (get store name) (λ v. Accepts target.secret given (phc_text v)) }
    ensures target { (target : TargetValue) → IsTarget target → (events : List Event) (store : Store)
        → IsRun target events store → (name given : List ℕ) (did : Accepted)
        → newest (accepted name) events ≡ Some (given, did)
        → did ≢ Kept → IsSomeAnd (get store name) (IsCurrent target) }
{}
