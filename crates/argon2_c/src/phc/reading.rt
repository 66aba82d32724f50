//! Reading a text of the grammar from bytes.

ghost use Rattle.std.specs.Prelude.{◌≡◌, IfSome, IsSomeAnd};
ghost use Rattle.argon2_base.specs.PhcFields.{phc_of};
ghost use Rattle.argon2_base.specs.PhcText.{Phc, IsPhcText};

use argon2::PasswordHash;

/// What a text says, if it is in the grammar.
pub fn read(text: &[u8]) -> Option<PasswordHash>
    ensures found { IfSome result (λ hash. IsPhcText text.now (phc_of hash)) }
    ensures only { (v : Phc) → IsPhcText text.now v → IsSomeAnd result (λ hash. phc_of hash ≡ v) }
{
    let Ok(text) = std::str::from_utf8(text) else {
        return None;
    };
    match PasswordHash::new(text) {
        Ok(hash) => Some(hash),
        Err(_) => None,
    }
}
