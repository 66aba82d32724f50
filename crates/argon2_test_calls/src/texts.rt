//! Calls on parameters, texts and passwords. A value is answered by its text, a list by its text in quotes, and what a text
//! lacks by `none`.

use crate::answer::Answer;
use crate::call::Call;
use crate::drawn::Drawn;
use crate::{context, inputs, own_context};
use argon2::error::{kdf, password_hash};
use argon2::password_hash::{Result, Settings, Stored};
use argon2::phc::{Ident, Output, ParamsString, Salt};
use argon2::{
    Algorithm, AssociatedData, B64Error, CustomizedPasswordHasher, Error, KeyId, Params,
    ParamsBuilder, PasswordHash, PasswordHasher, PasswordVerifier, Version,
};
use argon2_policy::{Denial, LoggedIn, Policy};
use std::fmt::Debug;
use std::result::Result as Outcome;

pub(crate) fn make(call: &Call<'_, '_>, answer: &Answer) -> bool {
    make_of_params(call, answer)
        || make_of_texts(call, answer)
        || make_of_passwords(call, answer)
        || make_of_bounds(call, answer)
}

// ---- parameters, and what they are made of

static ERRORS: [Error; 18] = [
    Error::AdTooLong,
    Error::AlgorithmInvalid,
    Error::B64Encoding(B64Error::InvalidEncoding),
    Error::B64Encoding(B64Error::InvalidLength),
    Error::KeyIdTooLong,
    Error::MemoryTooLittle,
    Error::MemoryTooMuch,
    Error::OutputTooShort,
    Error::OutputTooLong,
    Error::PwdTooLong,
    Error::SaltTooShort,
    Error::SaltTooLong,
    Error::SecretTooLong,
    Error::ThreadsTooFew,
    Error::ThreadsTooMany,
    Error::TimeTooSmall,
    Error::VersionInvalid,
    Error::OutOfMemory,
];

fn make_of_params(call: &Call<'_, '_>, answer: &Answer) -> bool {
    match call.name {
        "context" => context::define(call, answer),
        "Argon2::algorithm" => {
            answer.debug(call.context(1).algorithm());
            answer.debug(call.context(1).version());
        }
        "Argon2::fmt" => answer.debug(call.context(1)),
        // `M T P LENGTH`.
        "Params::new" => {
            let (m, t, p) = (call.count(1), call.count(2), call.count(3));
            show_params(answer, Params::new(m, t, p, call.number(4)));
        }
        // `M T P LENGTH`: the length of the hash in a text, and whether a text has room for that hash.
        "Params::hash_len" => {
            let (m, t, p) = (call.count(1), call.count(2), call.count(3));
            if let Some(params) = answer.ok(Params::new(m, t, p, call.number(4))) {
                answer.display(params.hash_len());
                answer.display(params.hash_fits_text());
            }
        }
        // What they say, and their text.
        "Params::default" => {
            show_params(answer, Ok(Params::default()));
            answer.display(Params::default());
        }
        "ParamsBuilder::new" => show_params(answer, ParamsBuilder::new().build()),
        "ParamsBuilder::build" => {
            if let Some((params, _)) = answer.ok(context::settings(call, 1)) {
                show_params(answer, Ok(params));
            }
        }
        "ParamsBuilder::fmt" => answer.debug_result(context::builder(call, 1)),
        // An algorithm, and its name in three forms.
        "Algorithm::new" => {
            if let Some(it) = answer.ok(Algorithm::new(call.word(1))) {
                answer.debug(it);
                answer.display(it);
                answer.display(it.as_str());
                answer.display(it.ident());
            }
        }
        "Algorithm::try_from" => answer.debug_result(Algorithm::try_from(call.word(1))),
        // `NUMBER`: a version and its number.
        "Version::try_from" => {
            if let Some(it) = answer.ok(Version::try_from(call.count(1))) {
                answer.debug(it);
                answer.display(u32::from(it));
            }
        }
        "KeyId::new" => answer.debug_result(KeyId::new(call.bytes(1))),
        "KeyId::from_b64" => answer.debug_result(KeyId::from_b64(call.word(1))),
        // `BYTES BYTES`.
        "KeyId::cmp" => match (KeyId::new(call.bytes(1)), KeyId::new(call.bytes(2))) {
            (Ok(one), Ok(other)) => answer.debug(one.cmp(&other)),
            _ => call.refuse(),
        },
        "AssociatedData::new" => answer.debug_result(AssociatedData::new(call.bytes(1))),
        "AssociatedData::from_b64" => answer.debug_result(AssociatedData::from_b64(call.word(1))),
        // `PLACE`: the error, its text, and those that it gives, with their texts.
        "Error::from" => {
            if let Some(error) = ERRORS.get(call.count(1) as usize) {
                answer.debug(error);
                answer.display(error);
                answer.debug(password_hash::Error::from(*error));
                answer.display(password_hash::Error::from(*error));
                answer.display(kdf::Error::from(*error));
            }
        }
        _ => return false,
    }
    true
}

// All that parameters say: costs, key identifier, data, output length, and how many blocks all lanes and one have.
fn show_params(answer: &Answer, made: Outcome<Params, Error>) {
    if let Some(it) = answer.ok(made) {
        answer.display(it.m_cost());
        answer.display(it.t_cost());
        answer.display(it.p_cost());
        answer.debug(it.keyid());
        answer.debug(it.data());
        answer.display_or_none(it.output_len());
        answer.display(it.block_count());
        answer.display(it.lane_length());
    }
}

// ---- texts

fn make_of_texts(call: &Call<'_, '_>, answer: &Answer) -> bool {
    match call.name {
        "Salt::new" => answer.display_result(Salt::new(call.bytes(1))),
        "Output::new" => answer.display_result(Output::new(call.bytes(1))),
        "Ident::new" => answer.display_result(Ident::new(call.str(1))),
        "Params::from_str" => answer.display_result(call.str(1).parse::<Params>()),
        "ParamsString::try_from" => answer.debug_result(list_of(call.str(1))),
        "ParamsString::new" => answer.debug(ParamsString::new()),
        // `TEXT VERSION SALT HASH`: the text with these for what it has; no bytes if it has no salt or no hash.
        "PasswordHash::text" => {
            if let Some(value) = answer.ok(with_fields(call)) {
                answer.display(value.text().as_str());
            }
        }
        "PasswordHash::new" => answer.display_result(PasswordHash::new(call.str(1))),
        "PasswordHash::fmt" => answer.debug_result(PasswordHash::new(call.str(1))),
        "PasswordHash.fields" | "Params::try_from" | "Settings::try_from" | "Stored::try_from" => {
            if let Some(value) = answer.ok(PasswordHash::new(call.str(1))) {
                make_on_value(call, answer, &value);
            }
        }
        name if name.starts_with("ParamsString::") || name == "Value::decimal" => {
            if let Some(mut list) = answer.ok(call.str(1).parse::<ParamsString>()) {
                make_on_list(call, answer, &mut list);
            }
        }
        _ => return false,
    }
    true
}

// The list of the parameters that a text is read as, by both conversions, which are read as them again.
fn list_of(text: &str) -> Result<Option<ParamsString>> {
    let params = text.parse::<Params>()?;
    let list = ParamsString::try_from(&params)?;
    let is_same = ParamsString::try_from(params)? == list && Params::try_from(&list)? == params;
    Ok(if is_same { Some(list) } else { None })
}

// A call on the value of a text.
fn make_on_value(call: &Call<'_, '_>, answer: &Answer, value: &PasswordHash) {
    match call.name {
        // The identifier, the version, the list, the salt and the hash.
        "PasswordHash.fields" => {
            answer.display(value.algorithm.as_str());
            answer.display_or_none(value.version);
            answer.debug(&value.params);
            answer.display_or_none(value.salt.as_ref());
            answer.display_or_none(value.hash.as_ref());
        }
        // The parameters, and the output length.
        "Params::try_from" => {
            if let Some(params) = answer.ok(Params::try_from(value)) {
                show_list(answer, &params);
            }
        }
        // The same after the algorithm and the version.
        "Settings::try_from" => {
            if let Some(it) = answer.ok(Settings::try_from(value)) {
                show_settings(answer, &it);
            }
        }
        // The same, the salt and the hash.
        _ => {
            if let Some(it) = answer.ok(Stored::try_from(value)) {
                show_settings(answer, &it.settings);
                answer.display(it.salt.text().as_str());
                answer.display(it.hash.text().as_str());
            }
        }
    }
}

// The value of a text with another version, salt and hash. There is no hash without a salt.
fn with_fields(call: &Call<'_, '_>) -> Result<PasswordHash> {
    let (version, salt, hash) = (version(call, 2), call.bytes(3), call.bytes(4));
    let mut value = PasswordHash::new(call.str(1))?;
    (value.version, value.salt, value.hash) = (version, None, None);
    if !salt.is_empty() {
        value.salt = Some(Salt::new(salt)?);
        if !hash.is_empty() {
            value.hash = Some(Output::new(hash)?);
        }
    }
    Ok(value)
}

// A version, or `none`.
fn version(call: &Call<'_, '_>, place: usize) -> Option<u32> {
    u32::try_from(call.number(place)?).ok()
}

fn show_settings(answer: &Answer, it: &Settings) {
    answer.display(it.algorithm.as_str());
    answer.display(u32::from(it.version));
    show_list(answer, &it.params);
}

fn show_list(answer: &Answer, params: &Params) {
    answer.display(params);
    answer.display_or_none(params.output_len());
}

// A call on a parameter list.
fn make_on_list(call: &Call<'_, '_>, answer: &Answer, list: &mut ParamsString) {
    match call.name {
        "ParamsString::from_str" => answer.debug(list),
        // The names and values, in order.
        "ParamsString::iter" => {
            for (name, value) in list.iter() {
                answer.display(name.as_str());
                answer.display(value.as_str());
            }
        }
        // `LIST NAME`: the value, or its number.
        "ParamsString::get" | "Value::decimal" => match list.get(call.word(2)) {
            Some(value) if call.name == "Value::decimal" => answer.display_result(value.decimal()),
            Some(value) => answer.display(value.as_str()),
            None => answer.display("none"),
        },
        // `LIST NAME NUMBER`: `Ok` or the error, and the list then.
        "ParamsString::add_decimal" => {
            answer.display_done(list.add_decimal(call.str(2), call.count(3)));
            answer.debug(list);
        }
        // `LIST NAME BYTES`: the same.
        "ParamsString::add_b64_bytes" => {
            answer.display_done(list.add_b64_bytes(call.str(2), call.bytes(3)));
            answer.debug(list);
        }
        _ => call.refuse(),
    }
}

// ---- passwords

fn make_of_passwords(call: &Call<'_, '_>, answer: &Answer) -> bool {
    let alloc = answer.alloc;
    match call.name {
        // `CONTEXT GENERATOR PASSWORD`: the text.
        "hash_password" => {
            let (argon2, mut rng) = (call.context(1), call.generator(2));
            answer.display_result(argon2.hash_password(alloc, &mut rng, call.bytes(3)));
            answer.display_drawn(&rng);
        }
        // `CONTEXT PASSWORD SALT`: the text.
        "hash_password_with_salt" => {
            let (argon2, password, salt) = inputs(call);
            answer.display_result(argon2.hash_password_with_salt(alloc, password, salt));
        }
        // `CONTEXT PASSWORD SALT ALGORITHM VERSION CONTEXT`: the text under the second context's parameters, and an algorithm
        // and a version or `none`.
        "hash_password_customized" => {
            let (argon2, password, salt) = inputs(call);
            let name = match call.word(4) {
                "none" => None,
                name => Some(name),
            };
            let (version, params) = (version(call, 5), *call.context(6).params());
            answer.display_result(argon2.hash_password_customized(
                alloc, password, salt, name, version, params,
            ));
        }
        // `CONTEXT PASSWORD TEXT`.
        "verify_password" => {
            let (argon2, password) = (call.context(1), call.bytes(2));
            answer.display_done(argon2.verify_password(alloc, password, call.str(3)));
        }
        // The same of the text's value.
        "verify_password::<PasswordHash>" => {
            let (argon2, password) = (call.context(1), call.bytes(2));
            if let Some(value) = answer.ok(PasswordHash::new(call.str(3))) {
                answer.display_done(argon2.verify_password(alloc, password, &value));
            }
        }
        _ => return false,
    }
    true
}

// A call on a bound, `M T P`, or on a policy, which `CONTEXT M T P` make; and then the call's values.
fn make_of_bounds(call: &Call<'_, '_>, answer: &Answer) -> bool {
    match call.name {
        // `.. TEXT`: the blocks.
        "Bound::admit" => {
            if let Some(admitted) = answer.ok(call.bound(1).admit(call.word(4))) {
                answer.display(admitted.blocks);
            }
        }
        // The same of the text's value.
        "Bound::admit_hash" => {
            if let Some(value) = answer.ok(PasswordHash::new(call.str(4))) {
                answer.display_result(call.bound(1).admit_hash(&value));
            }
        }
        // `.. CONTEXT PASSWORD TEXT`, by what the text's value shows.
        "Bound::admit_stored" => {
            let (argon2, password) = (call.context(4), call.bytes(5));
            if let Some(value) = answer.ok(PasswordHash::new(call.str(6)))
                && let Some(stored) = answer.ok(call.bound(1).admit_stored(&value))
            {
                answer.display_done(argon2.verify_stored(answer.alloc, password, &stored));
            }
        }
        // `.. CONTEXT`: whether it allows the context's parameters.
        "Bound::allows" => answer.display(call.bound(1).allows(call.context(4).params())),
        // `.. CONTEXT PASSWORD TEXT`.
        "Bound::verify" => {
            let (argon2, password, text) = (call.context(4), call.bytes(5), call.word(6));
            answer.display_done(call.bound(1).verify(answer.alloc, argon2, password, text));
        }
        name if name.starts_with("Policy::") => make_of_policy(call, answer),
        _ => return false,
    }
    true
}

fn make_of_policy(call: &Call<'_, '_>, answer: &Answer) {
    let made = Policy::new(answer.alloc, own_context(call, 1), call.bound(2));
    if let Some(policy) = answer.ok(made) {
        match call.name {
            "Policy::new" => answer.display("Ok"),
            // `.. SECRET GENERATOR PASSWORD STORED`: a login, for which a text may also be one under the old secret.
            "Policy::with_old_secret" => {
                if let Some(policy) = answer.ok(policy.with_old_secret(call.bytes(5))) {
                    make_on_policy(call, 6, answer, &policy);
                }
            }
            _ => make_on_policy(call, 5, answer, &policy),
        }
    }
}

// `.. GENERATOR PASSWORD`, then the new password if it is changed, and what is stored, or `none`, unless a text is made.
fn make_on_policy(call: &Call<'_, '_>, place: usize, answer: &Answer, policy: &Policy<'_>) {
    let (mut rng, password) = (call.generator(place), call.bytes(place.saturating_add(1)));
    match call.name {
        "Policy::hash_password" => {
            answer.display_result(policy.hash_password(&mut rng, password));
            answer.display_drawn(&rng);
        }
        "Policy::change_password" => {
            let stored = stored_or_none(call, 8);
            let done = policy.change_password(&mut rng, stored, password, call.bytes(7));
            answer.display_result(match done {
                Ok(renewal) => Ok(renewal.fresh),
                Err(denial) => Err(denial),
            });
            answer.display_drawn(&rng);
        }
        _ => {
            let stored = stored_or_none(call, place.saturating_add(2));
            show_login(answer, policy.log_in(&mut rng, stored, password), &rng);
        }
    }
}

// What is stored for a name.
fn stored_or_none<'a>(call: &Call<'_, 'a>, place: usize) -> Option<&'a str> {
    Some(call.word(place)).filter(|word| *word != "none")
}

// What a login did, how many bytes it drew, and the fresh text.
fn show_login(answer: &Answer, done: Outcome<LoggedIn<'_>, Denial>, rng: &Drawn) {
    match done {
        Ok(done) => {
            answer.debug(done.accepted());
            answer.display_drawn(rng);
            match done {
                LoggedIn::Renewed(renewal) => answer.display(renewal.fresh),
                _ => answer.display("none"),
            }
        }
        Err(e) => {
            answer.debug(e);
            answer.display_drawn(rng);
        }
    }
}
