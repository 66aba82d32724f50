//! The options of the command line, and the command.

use argon2::bound::Bound;
use argon2::phc::read_decimal;
use argon2::{KeyId, Params, ParamsBuilder};
use argon2_cli::{Argument, CommandLine, Matches, Refusal, argument};
use argon2_passwd::run::PROGRAM;
use argon2_passwd::{Action, Command, EditTask, Options, Task};
use argon2_store::View;
use std::alloc::{AllocError, Global};
use std::io::Write;
use strsim::osa_distance;

const COMMAND_LINE: CommandLine<'static> = CommandLine {
    program: PROGRAM,
    about: "Hashes passwords, checks them against stored hashes, and keeps accounts in a file",
    long_about: ABOUT,
    notes: NOTES,
    usage: Some(USAGE),
    arguments: &ARGUMENTS,
};

const ARGUMENTS: [Argument<'static>; 9] = [
    argument!(--"params" <COSTS> "The parameters of new hashes [default: m=19456,t=2,p=1]"),
    argument!(--"bound" <COSTS>
        "The highest costs that a stored hash may ask for [default: m=2097152,t=64,p=64, or the parameters]"),
    argument!(--"secret-file" <PATH>
        "The file's bytes, 1 to 4096 of them, are the secret key (\"pepper\") of all hashes"),
    argument!(--"old-secret-file" <PATH>
        "A hash that the secret refuses is tried under these bytes, 0 to 4096, and renewed under the secret"),
    argument!(--"keyid" <ID>
        "New hashes contain `keyid=ID`, which names the secret: Base64 of at most 8 bytes"),
    argument!(--"any-hash"
        "`import` accepts hashes of bcrypt, scrypt, PBKDF2, yescrypt, SHA-crypt, MD5-crypt, LDAP and Django too"),
    argument!(--"skip"
        "`import` passes over lines that may not be added, and says which and why"),
    argument!(--"explain"
        "`verify` and `change` say whether the name or the password is wrong"),
    argument!(COMMAND.. 1 "A command with its hash, or with its file and name"),
];

const USAGE: &str = "\
argon2-passwd [OPTIONS] hash
       argon2-passwd [OPTIONS] check HASH
       argon2-passwd [OPTIONS] register|verify|change|set|remove|lock|unlock FILE NAME
       argon2-passwd [OPTIONS] list|export|import|check-file FILE";

// The words of the usage.
const COMMANDS: [&str; 13] = [
    "hash",
    "check",
    "register",
    "verify",
    "change",
    "set",
    "remove",
    "lock",
    "unlock",
    "list",
    "export",
    "import",
    "check-file",
];

const ABOUT: &str = "\
Hashes passwords with Argon2id, checks passwords against stored hashes, and keeps names with their hashes in
a file. A hash is a PHC string, such as $argon2id$v=19$m=19456,t=2,p=1$SALT$HASH.

The password is the first line of standard input, without the line's end, LF or CR LF. It has at most 4096
bytes, and a new password has at least one.

  hash                write a hash of the password, with a salt of 16 random bytes from the system
  check HASH          accept or refuse the password; if it is accepted, write \"hash is current\", or, if HASH has
                      weaker settings than new hashes, \"hash is renewed\" and a new hash; if HASH is -, read
                      it from the line before the password, so that other users can't see it
  register FILE NAME  add a new name with a hash of the password; the name has 1 to 4096 bytes, no colon, no
                      control character and no byte order mark at its start
  verify FILE NAME    accept or refuse the password; if it is accepted, write \"hash is current\", or
                      \"hash is renewed\" once FILE has a new hash in place of one with weaker settings
  change FILE NAME    give the name a hash of the second line if the password on the first line is accepted
  set FILE NAME       give a name that exists a hash of the password
  remove FILE NAME    remove the name with its hash
  lock FILE NAME      put a ! before the hash of the name, so that it accepts no password
  unlock FILE NAME    remove the ! again, so that the hash accepts its password
  list FILE           write the names, one a line, in the order of their bytes
  export FILE         write the same lines, with a colon and the hash after each name
  import FILE         add all names and hashes of standard input, in the form that export writes, or none;
                      the hashes are Argon2's unless --any-hash is given, and may be locked; with --skip, pass
                      over the lines that may not be added
  check-file FILE     read all of FILE, and fail if it is damaged or a row is not a name with a hash

FILE is a SQLite database that survives a crash at any moment. register and import make it if it does not
exist. It may also come before the command's word. Write ./ before a path that is such a word.";

const NOTES: &str = "\
Example: argon2-passwd register accounts.db ann

The status is 0 if a hash is written, the password is accepted or the command on FILE is done. It is 1 if the
password is wrong, too long or missing, a new one is empty, the name is taken, unknown or not allowed, or a
line is refused; 2 if the arguments are wrong or the parameters are above the bound; 3 if a file, a stream,
random bytes or a request for memory fails; and 4 if no password opens a hash, since it is outside the grammar,
of another scheme or above the bound, or if --skip passed over a line. If it is not 0, standard error says why.";

/// Reads the command with its options. If an option is given twice, the last one counts.
///
/// # Errors
/// The exit status, once a page is written or `errors` says why.
pub fn parse<'a, W: Write, E: Write>(
    alloc: Global,
    words: &'a [String],
    output: &mut W,
    errors: &mut E,
) -> Result<Command<'a>, u8> {
    let matches = COMMAND_LINE.parse(alloc, words, output, errors)?;
    match command(alloc, &matches) {
        Ok(command) => Ok(command),
        Err(refusal) => Err(COMMAND_LINE.refuse(alloc, &refusal, errors)),
    }
}

// What the words ask for.
fn command<'a>(alloc: Global, matches: &Matches<'a>) -> Result<Command<'a>, Refusal> {
    let options = Options {
        secret_file: matches.get("secret-file"),
        old_secret_file: matches.get("old-secret-file"),
        explain: matches.has("explain"),
        params: params_asked(alloc, matches)?,
        bound: bound_asked(alloc, matches)?,
    };
    let words = matches.get_all(alloc, "COMMAND")?;
    let any_text = matches.has("any-hash");
    let import = if matches.has("skip") {
        Task::ImportOthers { any_text }
    } else {
        Task::Import { any_text }
    };
    match action(import, words.as_slice()) {
        Some(action) => Ok(Command { options, action }),
        None => Err(Refusal::Words(no_command_text(alloc, words.as_slice())?)),
    }
}

// The parameters of new hashes.
fn params_asked(alloc: Global, matches: &Matches<'_>) -> Result<Params, Refusal> {
    let params = match matches.get("params") {
        None => Params::DEFAULT,
        Some(value) => match params(value) {
            Some(params) => params,
            None => {
                let why = "it is not m=M,t=T,p=P with valid parameters";
                return Err(matches.invalid(alloc, "params", why));
            }
        },
    };
    let Some(text) = matches.get("keyid") else {
        return Ok(params);
    };
    match with_key_id(&params, text) {
        Some(params) => Ok(params),
        None => Err(matches.invalid(alloc, "keyid", "it is not Base64 of at most 8 bytes")),
    }
}

// The highest costs that a stored hash may ask for, if they are given.
fn bound_asked(alloc: Global, matches: &Matches<'_>) -> Result<Option<Bound>, Refusal> {
    let Some(value) = matches.get("bound") else {
        return Ok(None);
    };
    match costs(value) {
        Some(bound) => Ok(Some(bound)),
        None => {
            let why = "it is not m=M,t=T,p=P with numbers up to 4294967295";
            Err(matches.invalid(alloc, "bound", why))
        }
    }
}

// What is wrong with words that are no command.
fn no_command_text(alloc: Global, words: &[&str]) -> Result<String, AllocError> {
    let mut message = String::from_str(alloc, "no command has this form:")?;
    for word in words {
        message.push(' ')?;
        message.push_str(word)?;
    }
    if let Some(similar) = similar_command(alloc, words)? {
        message.push_str("\n\n  tip: a similar command exists: '")?;
        message.push_str(similar)?;
        message.push('\'')?;
    }
    Ok(message)
}

// A command that one of the first two words may stand for, by at most one edit for three bytes, unless one is a command.
fn similar_command(alloc: Global, words: &[&str]) -> Result<Option<&'static str>, AllocError> {
    let mut found = None;
    for word in words.iter().take(2) {
        for name in COMMANDS {
            if *word == name {
                return Ok(None);
            }
            if found.is_none()
                && word.len() < 16
                && osa_distance(alloc, word, name)? <= name.len() / 3
            {
                found = Some(name);
            }
        }
    }
    Ok(found)
}

// What words ask for. The file may come before the command's word.
fn action<'a>(import: Task<'a>, words: &[&'a str]) -> Option<Action<'a>> {
    match *words {
        [word] if word == "hash" => Some(Action::Hash),
        [word, text] if word == "check" => Some(Action::Check(text)),
        [first, second] => match on_file(import, first) {
            Some(task) => Some(Action::OnFile(second, task)),
            None => Some(Action::OnFile(first, on_file(import, second)?)),
        },
        [first, second, name] => match on_name(first, name) {
            Some(task) => Some(Action::OnFile(second, task)),
            None => Some(Action::OnFile(first, on_name(second, name)?)),
        },
        _ => None,
    }
}

// What a word asks for of a file.
fn on_file<'a>(import: Task<'a>, word: &str) -> Option<Task<'a>> {
    match word {
        "list" => Some(Task::Show(View::Names)),
        "export" => Some(Task::Show(View::Export)),
        "import" => Some(import),
        "check-file" => Some(Task::CheckFile),
        _ => None,
    }
}

// What a word asks for of a name in a file.
fn on_name<'a>(word: &str, name: &'a str) -> Option<Task<'a>> {
    match word {
        "verify" => Some(Task::Verify(name)),
        "register" => Some(Task::Edit(EditTask::Register, name)),
        "change" => Some(Task::Edit(EditTask::Change, name)),
        "set" => Some(Task::Edit(EditTask::Set, name)),
        "remove" => Some(Task::Edit(EditTask::Remove, name)),
        "lock" => Some(Task::Edit(EditTask::Lock, name)),
        "unlock" => Some(Task::Edit(EditTask::Unlock, name)),
        _ => None,
    }
}

// The parameters that costs are, if they are valid.
fn params(text: &str) -> Option<Params> {
    let costs = costs(text)?;
    Params::new(costs.m_cost, costs.t_cost, costs.p_cost, None).ok()
}

// The parameters with the key identifier that a text is.
fn with_key_id(params: &Params, text: &str) -> Option<Params> {
    let key_id = KeyId::from_b64(text).ok()?;
    let mut builder = ParamsBuilder::new();
    builder.m_cost(params.m_cost());
    builder.t_cost(params.t_cost());
    builder.p_cost(params.p_cost());
    builder.keyid(key_id);
    builder.build().ok()
}

// The costs that `m=..,t=..,p=..` says.
fn costs(text: &str) -> Option<Bound> {
    let (m, rest) = text.split_once(',')?;
    let (t, p) = rest.split_once(',')?;
    Some(Bound {
        m_cost: read_decimal(m.strip_prefix("m=")?)?,
        t_cost: read_decimal(t.strip_prefix("t=")?)?,
        p_cost: read_decimal(p.strip_prefix("p=")?)?,
    })
}
