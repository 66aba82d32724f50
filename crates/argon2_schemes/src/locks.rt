//! Locks of stored texts.

ghost use Rattle.std.specs.Prelude.{◌≡◌};
ghost use Rattle.std.specs.Option.{option_copied};
ghost use Rattle.argon2_schemes.specs.Locks.{after_lock};

/// The text after the `!` of a locked text. A locked text accepts no password.
pub fn after_lock(text: &str) -> Option<&str>
    ensures { option_copied result ≡ after_lock text.now }
{
    text.strip_prefix('!')
}
