//! What is hashed under: a line `context NAME ALGORITHM VERSION M T P LENGTH`, and then any of `secret=BYTES`, `data=BYTES`
//! and `keyid=BYTES`, names it for the lines of the whole input. The length is the output's length, or `none`. The answer is
//! `Ok`, or the error of the call that makes it. `default` is `Argon2::default()`.

use crate::answer::Answer;
use crate::call::Call;
use crate::line::Line;
use argon2::{Algorithm, Argon2, AssociatedData, KeyId, Params, ParamsBuilder, Result, Version};
use std::alloc::{AllocError, Global};
use std::result::Result as Outcome;

/// All contexts, each with its name.
#[derive(Drop)]
pub struct Contexts<'a> {
    pub(crate) default: Argon2<'a>,
    all: Vec<(&'a str, Argon2<'a>)>,
}

impl<'a> Contexts<'a> {
    /// No context but `default`.
    pub fn new(alloc: Global) -> Contexts<'a> {
        Contexts {
            default: Argon2::default(),
            all: Vec::new(alloc),
        }
    }

    /// Adds the contexts that lines define.
    ///
    /// # Errors
    /// `AllocError`, if memory is refused.
    pub fn add(&mut self, lines: &'a [Line<'a>]) -> Outcome<(), AllocError> {
        for line in lines {
            if let Some(context) = self.definition(line) {
                self.all.push(context)?;
            }
        }
        Ok(())
    }

    // The name and the context that a line defines, if it does.
    fn definition(&self, line: &'a Line<'a>) -> Option<(&'a str, Argon2<'a>)> {
        let call = Call::new(line, self);
        match call.name {
            "context" => Some((call.word(1), read_context(&call).ok()?)),
            _ => None,
        }
    }

    /// The context of this name.
    pub(crate) fn get(&self, name: &str) -> Option<&Argon2<'a>> {
        for (other, context) in &self.all {
            if *other == name {
                return Some(context);
            }
        }
        match name {
            "default" => Some(&self.default),
            _ => None,
        }
    }
}

/// Answers a line `context ..`.
pub fn define(call: &Call<'_, '_>, answer: &Answer) {
    answer.display_done(read_context(call).and(Ok(())));
}

// The context that the values say, or the error of the algorithm, the version or the parameters.
fn read_context<'a>(call: &Call<'_, 'a>) -> Result<Argon2<'a>> {
    let (algorithm, version) = (
        Algorithm::new(call.word(2)),
        Version::try_from(call.count(3)),
    );
    let settings = settings(call, 4);
    let (algorithm, version) = (algorithm?, version?);
    let (params, secret) = settings?;
    match secret {
        Some(secret) => Argon2::new_with_secret(secret, algorithm, version, params),
        None => Ok(Argon2::new(algorithm, version, params)),
    }
}

/// The parameters that the values from a place on say, and the secret.
pub fn settings<'a>(call: &Call<'_, 'a>, place: usize) -> Result<(Params, Option<&'a [u8]>)> {
    let params = builder(call, place)?.build()?;
    Ok((params, option(call, "secret", place)))
}

/// A builder of the parameters that the values from a place on say.
pub fn builder(call: &Call<'_, '_>, place: usize) -> Result<ParamsBuilder> {
    let (bound, mut builder) = (call.bound(place), ParamsBuilder::new());
    builder.m_cost(bound.m_cost);
    builder.t_cost(bound.t_cost);
    builder.p_cost(bound.p_cost);
    if let Some(len) = call.number(place.saturating_add(3)) {
        builder.output_len(len);
    }
    if let Some(bytes) = option(call, "keyid", place) {
        builder.keyid(KeyId::new(bytes)?);
    }
    if let Some(bytes) = option(call, "data", place) {
        builder.data(AssociatedData::new(bytes)?);
    }
    Ok(builder)
}

// The bytes of the option of this name, after four values from a place on.
fn option<'a>(call: &Call<'_, 'a>, name: &str, place: usize) -> Option<&'a [u8]> {
    for place in place.saturating_add(4)..call.len() {
        let (other, bytes) = call.option(place);
        if other == name {
            return Some(bytes);
        }
    }
    None
}
