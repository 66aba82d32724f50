//! A call: a machine, options, and when the streams fail.

use crate::found::Found;
use crate::machine::Machine;
use crate::stream::Stream;
use crate::words::Words;
use argon2_calibrate::Options;
use argon2_calibrate::run::run;
use std::alloc::{AllocError, Global};

/// A call.
#[derive(Drop)]
pub struct Call {
    machine: Machine,
    options: Options,
    // After how many calls the streams fail.
    output_calls: u32,
    errors_calls: u32,
}

impl Call {
    /// Reads a call, if the text is one.
    pub fn read(text: &str) -> Option<Call> {
        let mut words = Words::new(text);
        let machine = Machine::read(&mut words)?;
        let options = read_options(&mut words)?;
        let output_calls = words.number("output_calls").unwrap_or(u32::MAX);
        let errors_calls = words.number("errors_calls").unwrap_or(u32::MAX);
        if !words.are_read() {
            return None;
        }
        Some(Call {
            machine,
            options,
            output_calls,
            errors_calls,
        })
    }

    /// What a run has done, or none if its options are not possible.
    ///
    /// # Errors
    /// `AllocError`, if memory is refused.
    pub fn run(self, alloc: Global) -> Result<Option<Found>, AllocError> {
        let mut call = self;
        if !call.options.are_possible() {
            return Ok(None);
        }
        let mut output = Stream::new(alloc, call.output_calls);
        let mut errors = Stream::new(alloc, call.errors_calls);
        let status = run(
            alloc,
            call.options,
            &mut call.machine,
            &mut output,
            &mut errors,
        );
        Ok(Some(Found {
            status,
            output: output.text()?,
            errors: errors.text()?,
        }))
    }
}

// The options, if the next words have them.
fn read_options(words: &mut Words<'_>) -> Option<Options> {
    let target = u64::from(words.number("target")?);
    let most = words.number("most")?;
    let lanes = words.number("lanes")?;
    let min_t = words.number("min_t");
    let json = words.has("json");
    Some(Options {
        target,
        most,
        lanes,
        min_t,
        json,
    })
}
