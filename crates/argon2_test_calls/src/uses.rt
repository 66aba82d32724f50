//! Calls on a login store, the last that a line has made, and on the examples of `argon2_example_uses`, by their modules.
//! An answer says what the call returns and how many bytes it drew, if it may draw. Those of a login store end with the text of
//! the name then, or `none`.

use crate::answer::Answer;
use crate::call::Call;
use crate::{inputs, own_context};
use argon2::login::{Login, login_runs};
use argon2::phc::{Output, Salt};
use argon2::{Argon2, Block};
use argon2_example_uses::arena::{Input, hash_all};
use argon2_example_uses::vault::Header;
use argon2_example_uses::{digest, login, passwords, scheduler, vault};

pub(crate) fn make<'a>(
    call: &Call<'_, 'a>,
    answer: &Answer,
    store: &mut Option<Login<'a>>,
) -> bool {
    make_of_example(call, answer) || make_of_store(call, answer, store)
}

// ---- a login store

fn make_of_store<'a>(call: &Call<'_, 'a>, answer: &Answer, store: &mut Option<Login<'a>>) -> bool {
    match call.name {
        "login_runs" => {
            login_runs();
            answer.display("Ok");
        }
        "Login::new" => {
            if let Some(new) = answer.ok(Login::new(answer.alloc, own_context(call, 1))) {
                *store = Some(new);
                answer.display("Ok");
            }
        }
        _ => {
            return match store {
                Some(store) => make_on_store(call, answer, store),
                None => false,
            };
        }
    }
    true
}

// A call on a store, or one of the example on a store.
fn make_on_store<'a>(call: &Call<'_, 'a>, answer: &Answer, store: &mut Login<'a>) -> bool {
    match call.name {
        // `NAME TEXT`.
        "Login::add" => {
            let name = call.word(1);
            answer.display_done(store.add(name, call.word(2)));
            answer.display_or_none(store.text_of(name));
        }
        // `GENERATOR NAME PASSWORD`.
        "Login::login" => {
            let (mut rng, name) = (call.generator(1), call.word(2));
            answer.debug_result(store.login(&mut rng, name, call.bytes(3)));
            answer.display_drawn(&rng);
            answer.display_or_none(store.text_of(name));
        }
        "Login::text_of" => answer.display_or_none(store.text_of(call.word(1))),
        // Each name and its text.
        "Login::texts" => {
            for (name, text) in store.texts() {
                answer.display(name.as_str());
                answer.display(text);
            }
        }
        // `CONTEXT GENERATOR NAME PASSWORD`.
        "login::register" => {
            let (argon2, mut rng, alloc) = (call.context(1), call.generator(2), answer.alloc);
            let (name, password) = (call.word(3), call.bytes(4));
            answer.display_done(login::register(store, argon2, alloc, &mut rng, name, password));
        }
        // `GENERATOR NAME PASSWORD`.
        "login::log_in" => {
            let (mut rng, name, password) = (call.generator(1), call.word(2), call.bytes(3));
            answer.debug_result(login::log_in(store, &mut rng, name, password));
        }
        // `GENERATOR NAME TEXT PASSWORD`.
        "login::take_over" => {
            let (mut rng, name, text) = (call.generator(1), call.word(2), call.word(3));
            answer.debug_result(login::take_over(store, &mut rng, name, text, call.bytes(4)));
        }
        // `CONTEXT`.
        "login::moved" => {
            let moved = login::moved(store, answer.alloc, own_context(call, 1));
            if let Some(new) = answer.ok(moved) {
                *store = new;
                answer.display("Ok");
            }
        }
        _ => return false,
    }
    true
}

// ---- the other examples

fn make_of_example(call: &Call<'_, '_>, answer: &Answer) -> bool {
    match call.name {
        "digest::digest" => answer.display_hex(&digest::digest(call.bytes(1), call.bytes(2))),
        // `GENERATOR PASSWORD`.
        "passwords::stored" => {
            let mut rng = call.generator(1);
            answer.display_result(passwords::stored(answer.alloc, &mut rng, call.bytes(2)));
            answer.display_drawn(&rng);
        }
        // `PASSWORD TEXT`.
        "passwords::is_accepted" => {
            answer.display_result(passwords::is_accepted(
                answer.alloc,
                call.bytes(1),
                call.word(2),
            ));
        }
        // `SECRET`: the parameters.
        "vault::lock" => {
            if let Some(argon2) = answer.ok(vault::lock(call.bytes(1))) {
                answer.display(argon2.params());
            }
        }
        "vault::seal" => seal(call, answer),
        "vault::open" => open(call, answer),
        "scheduler::hash_in_rounds" => hash_in_rounds(call, answer),
        "arena::hash_all" => hash_both(call, answer),
        _ => return false,
    }
    true
}

// `CONTEXT PASSPHRASE SALT`: the key and the header's tag.
fn seal(call: &Call<'_, '_>, answer: &Answer) {
    let (argon2, passphrase) = (call.context(1), call.bytes(2));
    let Ok(salt) = Salt::new(call.bytes(3)) else {
        return call.refuse();
    };
    let (header, key) = match vault::seal(argon2, answer.alloc, passphrase, salt) {
        Ok(both) => both,
        Err(e) => return answer.debug(e),
    };
    answer.display_hex(&key);
    answer.display_hex(header.tag.as_bytes());
}

// `CONTEXT PASSPHRASE SALT TAG`: the key, or `none`.
fn open(call: &Call<'_, '_>, answer: &Answer) {
    let (argon2, passphrase) = (call.context(1), call.bytes(2));
    let (Ok(salt), Ok(tag)) = (Salt::new(call.bytes(3)), Output::new(call.bytes(4))) else {
        return call.refuse();
    };
    match vault::open(argon2, answer.alloc, passphrase, &Header { salt, tag }) {
        Ok(Some(key)) => answer.display_hex(&key),
        Ok(None) => answer.display("none"),
        Err(e) => answer.debug(e),
    }
}

// As many blocks as a context fills.
fn blocks(answer: &Answer, argon2: &Argon2<'_>) -> Vec<Block> {
    let count = argon2.params().block_count();
    answer.list_or_empty(Vec::from_elem(answer.alloc, Block::new(), count))
}

// `CONTEXT PASSWORD SALT LENGTH`: the tag.
fn hash_in_rounds(call: &Call<'_, '_>, answer: &Answer) {
    let (argon2, password, salt) = inputs(call);
    let (mut memory, mut out) = (blocks(answer, argon2), answer.ones(call.count(4)));
    let (tag, memory) = (out.as_mut_slice(), memory.as_mut_slice());
    let done = scheduler::hash_in_rounds(argon2, password, salt, tag, memory);
    answer.display_output(done, &out);
}

// `CONTEXT PASSWORD SALT PASSWORD SALT`: the two tags.
fn hash_both(call: &Call<'_, '_>, answer: &Answer) {
    let input = |password, salt| Input { password, salt };
    let inputs = [
        input(call.bytes(2), call.bytes(3)),
        input(call.bytes(4), call.bytes(5)),
    ];
    let argon2 = call.context(1);
    let (mut memory, mut tags) = (blocks(answer, argon2), [[0xff; 32]; 2]);
    let done = hash_all(argon2, memory.as_mut_slice(), &inputs, &mut tags);
    if answer.ok(done).is_some() {
        answer.display_hex(&tags[0]);
        answer.display_hex(&tags[1]);
    }
}
