//! Texts as they are stored.

ghost use Rattle.std.specs.Prelude.{◌≡◌, ◌⊎◌, IfErr, IfOk, MatchOption};
ghost use Rattle.argon2_base.specs.PhcFields.{phc_of};
ghost use Rattle.argon2_base.specs.PhcText.{IsPhcText};
ghost use Rattle.argon2_base.specs.declared.error.password_hash.Error.TheVariants.{EncodingInvalid};
ghost use Rattle.argon2_schemes.specs.Locks.{without_lock};
ghost use Rattle.argon2_rows.specs.RowTexts.{IsLine, IsStored};

use argon2_base::error::password_hash::Result;
use argon2_base::phc::PasswordHash;
use argon2_schemes::after_lock;

/// A text as it is stored: a PHC text, or one line of another scheme. After `!` it is locked, and accepts no password.
#[derive(Clone, Copy, Debug, PartialEq, Eq, PartialOrd, Ord)]
pub struct StoredText<'a> {
    text: &'a str,
    ghost stored: { ∥ IsStored text.now ⊎ IsLine text.now ∥₁ } by { squash₁ },
}

impl<'a> StoredText<'a> {
    ghost use Rattle.argon2_rows.specs.Names.{text_in};

    /// A PHC text, perhaps after `!`, and what the PHC text says.
    ///
    /// # Errors
    /// `EncodingInvalid`: neither the text nor what stands after its `!` is in the grammar of PHC texts.
    pub fn new(text: &'a str) -> Result<(StoredText<'a>, PasswordHash)>
        ensures found { IfOk result (λ it. (text_in it.0 ≡ text.now)
            × IsPhcText (without_lock text.now) (phc_of it.1)) }
        ensures invalid { IfErr result (λ e. (e ≡ EncodingInvalid) × ¬ IsStored text.now) }
    {
        let hash = PasswordHash::new(after_lock(text).unwrap_or(text))?;
        Ok((StoredText { text }, hash))
    }

    /// A text of any scheme, if the text is one line.
    pub fn of_line(text: &'a str) -> Option<StoredText<'a>>
        ensures { MatchOption result (¬ IsLine text.now) (λ it. text_in it ≡ text.now) }
    {
        if text.as_bytes().contains(&b'\n') {
            return None;
        }
        Some(StoredText { text })
    }

    /// The text, with its `!` if it is locked.
    pub fn as_str(self) -> &'a str
        ensures { result.now ≡ text_in self.entry }
    {
        self.text
    }
}
