//! The options of the command line, and the names of files.

use argon2::phc::read_decimal;
use argon2::{Algorithm, KeyId, Version};
use argon2_audit::run::PROGRAM;
use argon2_audit::{Field, Form, Limits, Options};
use argon2_cli::{Argument, CommandLine, Matches, Refusal, argument};
use std::alloc::{AllocError, Global};
use std::fmt::InlineText;
use std::io::Write;

const COMMAND_LINE: CommandLine<'static> = CommandLine {
    program: PROGRAM,
    about: "Reports which stored password hashes are below a policy",
    long_about: ABOUT,
    notes: NOTES,
    usage: None,
    arguments: &ARGUMENTS,
};

const ARGUMENTS: [Argument<'static>; 15] = [
    argument!(--"min-m" <M> "The least memory, in blocks of 1024 bytes", default: Some("19456")),
    argument!(--"min-t" <T> "The least number of passes", default: Some("2")),
    argument!(--"min-p" <P> "The least number of lanes", default: Some("1")),
    argument!(--"min-salt" <N> "The fewest bytes of a salt", default: Some("16")),
    argument!(--"min-hash" <N> "The fewest bytes of the hash field", default: Some("32")),
    argument!(--"min-version" <V> "The least version, 16 or 19 [default: any]"),
    argument!(--"require" <ALGORITHM>
        "The one sound algorithm, argon2d, argon2i or argon2id [default: any]"),
    argument!(--"keyid" <ID>
        "The one sound key identifier, in Base64, as after `keyid=` in a hash [default: any]"),
    argument!(--"allow-other" "Other schemes, locked and blank lines and comments count as sound"),
    argument!(--"field" <N>
        "The hash is field N, and a line without it is not sound [default: the second, or the line]"),
    argument!(--"separator" <C> "The one byte between two fields", default: Some(":")),
    argument!(--"json" "Write one JSON object: findings by line, counts, schemes, table",
        excluded: Some("quiet")),
    argument!(--"summary" "Write no remarks, only counts", excluded: Some("quiet")),
    argument!(--"quiet" "Write nothing; the status says all"),
    argument!(FILE.. 0 "Files with a hash on each line, `-` for standard input"),
];

const ABOUT: &str = "\
Reports which stored password hashes are below a policy.

It reads the files one after another, or standard input if none is named or one is `-`. Each line contains one
stored hash; in a line with colons, such as a line of a password file, the hash is the second field. It writes
a remark for each thing that keeps a line from being sound, then how many lines are of each class, and how many
are of each algorithm, version and costs. It names lines by their numbers, as FILE:LINE if there are several
files, and writes nothing of their names, salts and hashes.";

const NOTES: &str = "\
Example: argon2-audit --min-m 65536 --allow-other /etc/shadow

A line is sound if its hash is a valid PHC string, names an algorithm and a version of Argon2, has valid
parameters, a salt and a hash field, and has nothing below the policy. A line may have 4096 bytes. A byte order
mark at the start of a line and a carriage return at its end are skipped, and so is what Django, Dovecot and
LDAP servers put before a hash: argon2 before a $, {argon2}, {ARGON2}, {ARGON2I}, {ARGON2ID}, {CRYPT},
{crypt}, {BLF-CRYPT}, {MD5-CRYPT}, {SHA256-CRYPT} and {SHA512-CRYPT}. Hashes of other schemes are named by how
they begin, with the separator after the name: bcrypt, scrypt, PBKDF2, yescrypt, sha256crypt, sha512crypt,
md5crypt, and digests of Django and LDAP; argon2-audit(1) has the list. A line `scrypt:N:R:P$..` or
`pbkdf2:sha256:N$..` (also sha1, sha512) is a hash of Werkzeug without a name. A field that begins with a
double quote ends after the next double quote, as in CSV; two double quotes stand for one. A hash that begins
with ! or * is locked. An empty hash is never sound, since some systems accept any password for it. All salts
are kept in memory, to find equal ones.

The status is 0 if each line is sound and no two salts are equal, 1 if that is not so, 2 if the arguments are
wrong, and 3 if a file, reading, writing or a request for memory fails, which standard error says.";

/// Reads the options, and the names of files, `-` if no file is named. If an option is given twice, the last one counts.
///
/// # Errors
/// The exit status, once a page is written or `errors` says why.
pub fn parse<'a, W: Write, E: Write>(
    alloc: Global,
    words: &'a [String],
    output: &mut W,
    errors: &mut E,
) -> Result<(Options, Vec<&'a str>), u8> {
    let matches = COMMAND_LINE.parse(alloc, words, output, errors)?;
    match options_and_names(alloc, &matches) {
        Ok(read) => Ok(read),
        Err(refusal) => Err(COMMAND_LINE.refuse(alloc, &refusal, errors)),
    }
}

// What the words ask for, and the names of files.
fn options_and_names<'a>(
    alloc: Global,
    matches: &Matches<'a>,
) -> Result<(Options, Vec<&'a str>), Refusal> {
    let [separator] = matches.get("separator").unwrap_or("").as_bytes() else {
        return Err(matches.invalid(alloc, "separator", "it is not one byte"));
    };
    let options = Options {
        limits: limits(alloc, matches)?,
        field: Field {
            before: before(alloc, matches)?,
            separator: *separator,
        },
        form: form(matches),
        has_remarks: !matches.has("summary"),
    };
    let mut names = matches.get_all(alloc, "FILE")?;
    if names.is_empty() && names.push("-").is_err() {
        return Err(Refusal::Memory(AllocError));
    }
    Ok((options, names))
}

// The limits that options ask for.
fn limits(alloc: Global, matches: &Matches<'_>) -> Result<Limits, Refusal> {
    Ok(Limits {
        m_cost: number(alloc, matches, "min-m")?,
        t_cost: number(alloc, matches, "min-t")?,
        p_cost: number(alloc, matches, "min-p")?,
        salt_len: number(alloc, matches, "min-salt")?,
        hash_len: number(alloc, matches, "min-hash")?,
        version: version(alloc, matches)?,
        algorithm: algorithm(alloc, matches)?,
        keyid: keyid(alloc, matches)?,
        allows_other: matches.has("allow-other"),
    })
}

// The number of an option, 0 if it is not given. It is read here, and not by clap, which would refuse a wrong value also
// if the option is given again.
fn number(alloc: Global, matches: &Matches<'_>, name: &str) -> Result<u32, Refusal> {
    match matches.get(name).unwrap_or("0").parse::<u32>() {
        Ok(number) => Ok(number),
        Err(why) => {
            let why = InlineText::<64>::of(why);
            Err(matches.invalid(alloc, name, why.as_str()))
        }
    }
}

// The number of the least version, 0 if none is asked for.
fn version(alloc: Global, matches: &Matches<'_>) -> Result<u32, Refusal> {
    let Some(text) = matches.get("min-version") else {
        return Ok(0);
    };
    match Version::try_from(read_decimal(text).unwrap_or(0)) {
        Ok(version) => Ok(u32::from(version)),
        Err(_) => Err(matches.invalid(alloc, "min-version", "it is not 16 or 19")),
    }
}

// The required algorithm, if one is required.
fn algorithm(alloc: Global, matches: &Matches<'_>) -> Result<Option<Algorithm>, Refusal> {
    let Some(name) = matches.get("require") else {
        return Ok(None);
    };
    match Algorithm::new(name) {
        Ok(algorithm) => Ok(Some(algorithm)),
        Err(_) => {
            let why = "it is not argon2d, argon2i or argon2id";
            Err(matches.invalid(alloc, "require", why))
        }
    }
}

// The required key identifier, if one is required.
fn keyid(alloc: Global, matches: &Matches<'_>) -> Result<Option<KeyId>, Refusal> {
    let Some(text) = matches.get("keyid") else {
        return Ok(None);
    };
    match KeyId::from_b64(text) {
        Ok(keyid) => Ok(Some(keyid)),
        Err(_) => Err(matches.invalid(alloc, "keyid", "it is not Base64 of at most 8 bytes")),
    }
}

// How many fields are before the field of `--field`, if that is given.
fn before(alloc: Global, matches: &Matches<'_>) -> Result<Option<u32>, Refusal> {
    if matches.get("field").is_none() {
        return Ok(None);
    }
    match number(alloc, matches, "field")?.checked_sub(1) {
        Some(before) => Ok(Some(before)),
        None => Err(matches.invalid(alloc, "field", "0 is not in 1..=4294967295")),
    }
}

// What is to be written.
fn form(matches: &Matches<'_>) -> Form {
    match (matches.has("json"), matches.has("quiet")) {
        (true, _) => Form::Json,
        (_, true) => Form::Quiet,
        _ => Form::Lines,
    }
}
