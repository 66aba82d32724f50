//! What the words of a command line give its arguments.

use crate::command_line::{Argument, Form};
use std::alloc::{AllocError, Global};

/// What the words of a command line give its arguments.
#[derive(Drop)]
pub struct Matches<'a> {
    arguments: &'a [Argument<'a>],
    // The values, each after the name of its argument.
    values: Vec<(&'a str, &'a str)>,
}

/// Why a program does not take words that are in the form of its arguments.
#[derive(Drop)]
pub enum Refusal {
    /// What is wrong with them.
    Words(String),
    /// A request for memory was refused.
    Memory(AllocError),
}

impl From<AllocError> for Refusal {
    ghost use Rattle.std.specs.Prelude.{◌≡◌};
    ghost use Rattle.argon2_cli.specs.declared.matches.Refusal.TheVariants.{Memory};

    ghost from_gives = { λ refused refusal. refusal ≡ Memory refused };

    fn from(refused: AllocError) -> Refusal {
        Refusal::Memory(refused)
    }
}

impl<'a> Matches<'a> {
    // No values.
    pub(crate) fn new(alloc: Global, arguments: &'a [Argument<'a>]) -> Matches<'a> {
        Matches {
            arguments,
            values: Vec::new(alloc),
        }
    }

    // Adds a value of an argument.
    pub(crate) fn push(&mut self, name: &'a str, value: &'a str) -> Result<(), AllocError> {
        self.values.push((name, value))?;
        Ok(())
    }

    /// The first value of an argument, or its default.
    pub fn get(&self, name: &str) -> Option<&'a str> {
        for (of, value) in self.values.as_slice() {
            if *of == name {
                return Some(*value);
            }
        }
        None
    }

    /// All values of an argument.
    ///
    /// # Errors
    /// Out of memory.
    pub fn get_all(&self, alloc: Global, name: &str) -> Result<Vec<&'a str>, AllocError> {
        let mut values = Vec::new(alloc);
        for (of, value) in self.values.as_slice() {
            if *of == name {
                values.push(*value)?;
            }
        }
        Ok(values)
    }

    /// Whether an option without a value is given.
    pub fn has(&self, name: &str) -> bool {
        self.get(name) == Some("true")
    }

    /// Why a program does not take the value that an argument has.
    pub fn invalid(&self, alloc: Global, name: &str, why: &str) -> Refusal {
        let value = self.get(name).unwrap_or("");
        let message = match self.value_name(name) {
            Some(of) => format!(in alloc; "invalid value '{value}' for '--{name} <{of}>': {why}"),
            None => format!(in alloc; "invalid value '{value}' for '<{name}>': {why}"),
        };
        match message {
            Ok(message) => Refusal::Words(message),
            Err(refused) => Refusal::Memory(refused),
        }
    }

    // How help names the value of an option.
    fn value_name(&self, name: &str) -> Option<&'a str> {
        for argument in self.arguments {
            if let Form::Value(of) = argument.form {
                if argument.name == name {
                    return Some(of);
                }
            }
        }
        None
    }
}
