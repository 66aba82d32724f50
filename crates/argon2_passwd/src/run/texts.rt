//! `hash` and `check`, which open no file: a text is made of a password, or verified against one.

ghost use Rattle.std.specs.Prelude.{◌≡◌, IfErr, IfOk, string_bytes};
ghost use Rattle.argon2_passwd.specs.declared.command.Action.{Action};
ghost use Rattle.argon2_passwd.specs.Answers.{IsFresh, IsNewText, IsNotNew, Phc, UsesNoFile, accepted_of, drawn_salt, fresh_of, login_text, phc_of, policy_value, status_of, value_after};

use super::{generator, say};
use crate::failure::Failure;
use crate::outside::Outside;
use crate::passwords::{read_new_password, read_password};
use argon2::PasswordHash;
use argon2_policy::{LoggedIn, Policy};
use rand_core::Rng;
use std::alloc::{AllocError, Global};
use std::io::{BufRead, Write};

/// `hash`: writes a text of the next password.
pub(super) fn hash<P: Outside, R: BufRead, W: Write>(
    alloc: Global,
    outside: &P,
    policy: &Policy<'_>,
    input: &mut R,
    output: &mut W,
) -> Result<(), Failure>
    ensures { UsesNoFile P.gives (policy_value policy.now) Action.Hash result
        (R.remaining input.old) (W.contents output.old) (W.contents output.new) }
{
    let hash = new_text(alloc, outside, policy, input)?;
    say(output, hash.text().as_str())
}

/// Makes a text of the next password.
pub(super) fn new_text<P: Outside, R: BufRead>(
    alloc: Global,
    outside: &P,
    policy: &Policy<'_>,
    input: &mut R,
) -> Result<PasswordHash, Failure>
    ensures ok { IfOk result (λ text.
        IsNewText P.gives (policy_value policy.now) (R.remaining input.old) (phc_of text)) }
    ensures err { IfErr result (IsNotNew (R.remaining input.old)) }
{
    let mut rng = generator(outside)?;
    let password = read_new_password(alloc, input)?;
    fresh_text(policy, &mut rng, password.as_slice())
}

/// `check`: verifies the next password by a text, and writes what a login would do with the text.
pub(super) fn check<P: Outside, R: BufRead, W: Write>(
    alloc: Global,
    outside: &P,
    policy: &Policy<'_>,
    text: &str,
    input: &mut R,
    output: &mut W,
) -> Result<(), Failure>
    ensures { UsesNoFile P.gives (policy_value policy.now) (Action.Check text.entry) result
        (R.remaining input.old) (W.contents output.old) (W.contents output.new) }
{
    let mut rng = generator(outside)?;
    let password = read_password(alloc, input)?;
    let done = policy.log_in(&mut rng, Some(text), password.as_slice())?;
    let reply = reply(alloc, &done)?;
    say(output, reply.as_str())
}

// Makes a text of a password.
fn fresh_text<G: Rng>(
    policy: &Policy<'_>,
    rng: &mut G,
    password: &[u8],
) -> Result<PasswordHash, Failure>
    ensures ok { IfOk result (λ text. IsFresh (policy_value policy.now).target password.now
        (drawn_salt (G.stream rng.old)) (phc_of text)) }
    ensures err { IfErr result (λ failure. status_of failure ≡ 3) }
{
    // A password that was read is short enough, so that only memory is refused.
    policy.hash_password(rng, password).or(Err(Failure::Memory))
}

// What `check` writes of an accepted login: its answer, and a line with the fresh text if the text is renewed.
fn reply(alloc: Global, done: &LoggedIn<'_>) -> Result<String, AllocError>
    ensures { (v : Phc) → IfOk result (λ text.
        string_bytes text ≡ login_text (accepted_of done.now) (value_after v (fresh_of done.now))) }
{
    let accepted = done.accepted();
    match done {
        LoggedIn::Renewed(renewal) => format!(in alloc; "{accepted}\n{}", renewal.fresh),
        _ => format!(in alloc; "{accepted}"),
    }
}
