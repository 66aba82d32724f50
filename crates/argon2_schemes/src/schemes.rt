//! Schemes other than Argon2, and how their texts begin.

ghost use Rattle.std.specs.Prelude.{◌≡◌};
ghost use Rattle.argon2_schemes.specs.Schemes.{scheme_name, scheme_of};

use crate::prefixes::{begins_any, is_named};

/// A scheme other than Argon2.
#[derive(Clone, Copy, Debug, PartialEq, Eq, PartialOrd, Ord)]
pub enum Scheme {
    Bcrypt,
    Scrypt,
    Pbkdf2,
    Yescrypt,
    Sha256Crypt,
    Sha512Crypt,
    Md5Crypt,
    /// A digest with Django's prefix.
    Django,
    /// A digest with an LDAP prefix.
    Ldap,
}

impl Scheme {
    /// The scheme's name, as the programs print it.
    pub fn name(&self) -> &'static str
        ensures { result.now ≡ scheme_name self.now }
    {
        match self {
            Scheme::Bcrypt => "bcrypt",
            Scheme::Scrypt => "scrypt",
            Scheme::Pbkdf2 => "PBKDF2",
            Scheme::Yescrypt => "yescrypt",
            Scheme::Sha256Crypt => "sha256crypt",
            Scheme::Sha512Crypt => "sha512crypt",
            Scheme::Md5Crypt => "md5crypt",
            Scheme::Django => "Django digest",
            Scheme::Ldap => "LDAP digest",
        }
    }
}

/// The scheme of a text, by how it begins.
pub fn scheme_of(text: &[u8]) -> Option<Scheme>
    ensures { result ≡ scheme_of text.now }
{
    if begins_any(text, &["$2$", "$2a$", "$2b$", "$2x$", "$2y$"])
        || begins_any(text, &["bcrypt$", "bcrypt_sha256$"])
    {
        Some(Scheme::Bcrypt)
    } else if begins_any(text, &["$7$", "$scrypt$"]) || is_named(text, "scrypt", &["$", ":"]) {
        Some(Scheme::Scrypt)
    } else if begins_any(text, &["$pbkdf2$", "$pbkdf2-", "{PBKDF2}", "{PBKDF2-"])
        || is_named(text, "pbkdf2", &["$", ":", "_"])
    {
        Some(Scheme::Pbkdf2)
    } else if begins_any(text, &["$y$", "$gy$"]) {
        Some(Scheme::Yescrypt)
    } else if begins_any(text, &["$5$"]) {
        Some(Scheme::Sha256Crypt)
    } else if begins_any(text, &["$6$"]) {
        Some(Scheme::Sha512Crypt)
    } else if begins_any(text, &["$1$", "$apr1$"]) {
        Some(Scheme::Md5Crypt)
    } else if begins_any(text, &["md5$", "sha1$"]) {
        Some(Scheme::Django)
    } else if begins_any(text, &["{MD5}", "{SMD5}", "{SHA}", "{SSHA}"])
        || begins_any(text, &["{SHA1", "{SHA2", "{SHA3", "{SHA5"])
        || begins_any(text, &["{SSHA2", "{SSHA3", "{SSHA5"])
    {
        Some(Scheme::Ldap)
    } else {
        None
    }
}
