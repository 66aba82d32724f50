//! Prefixes of stored texts, and the prefixes that other programs put before a text of Argon2.

ghost use Rattle.std.specs.Prelude.{◌≡◌, map};
ghost use Rattle.argon2_schemes.specs.Prefixes.{after_any, without_prefix, begins_any, is_named};

// The word that Django puts before a text of Argon2, which begins with `$`.
const DJANGO: [&str; 1] = ["argon2"];

// The schemes in braces that Dovecot and LDAP servers put before a text of Argon2.
const SCHEMES: [&str; 10] = [
    "{argon2}",
    "{ARGON2}",
    "{ARGON2I}",
    "{ARGON2ID}",
    "{CRYPT}",
    "{crypt}",
    "{BLF-CRYPT}",
    "{MD5-CRYPT}",
    "{SHA256-CRYPT}",
    "{SHA512-CRYPT}",
];

/// The text without the prefix of another program: Django's word before a `$`, or the first scheme in braces.
pub fn without_prefix(text: &[u8]) -> &[u8]
    ensures { result.now ≡ without_prefix text.now }
{
    let rest = after_any(text, &DJANGO);
    if begins_any(rest, &["$"]) {
        rest
    } else {
        after_any(text, &SCHEMES)
    }
}

/// The same for a string.
pub fn str_without_prefix(text: &str) -> &str
    ensures { result.now ≡ without_prefix text.now }
{
    let rest = str_after_any(text, &DJANGO);
    if begins_any(rest.as_bytes(), &["$"]) {
        rest
    } else {
        str_after_any(text, &SCHEMES)
    }
}

/// Whether the text begins with one of these prefixes.
pub fn begins_any(text: &[u8], prefixes: &[&str]) -> bool
    ensures { result ≡ begins_any (map (λ prefix. prefix.now) prefixes.now) text.now }
{
    let Some((prefix, rest)) = prefixes.split_first() else {
        return false;
    };
    text.starts_with(prefix.as_bytes()) || begins_any(text, rest)
}

/// Whether the text is this name, or begins with it and then one of these separators.
pub fn is_named(text: &[u8], name: &str, separators: &[&str]) -> bool
    ensures { result ≡ is_named name.now (map (λ it. it.now) separators.now) text.now }
{
    if !begins_any(text, &[name]) {
        return false;
    }
    let rest = after_any(text, &[name]);
    rest.is_empty() || begins_any(rest, separators)
}

/// The text after the first of these prefixes that it begins with, or the whole text if it begins with none.
pub fn after_any<'a>(text: &'a [u8], prefixes: &[&str]) -> &'a [u8]
    ensures { result.now ≡ after_any (map (λ prefix. prefix.now) prefixes.now) text.now }
{
    let Some((prefix, rest)) = prefixes.split_first() else {
        return text;
    };
    if !text.starts_with(prefix.as_bytes()) {
        return after_any(text, rest);
    }
    let (_, rest) = text.split_at(prefix.len());
    rest
}

// The same for a string.
fn str_after_any<'a>(text: &'a str, prefixes: &[&str]) -> &'a str
    ensures { result.now ≡ after_any (map (λ prefix. prefix.now) prefixes.now) text.now }
{
    let Some((prefix, rest)) = prefixes.split_first() else {
        return text;
    };
    match text.strip_prefix(*prefix) {
        Some(rest) => rest,
        None => str_after_any(text, rest),
    }
}
