//! What a program takes, and how its words are read.

ghost use Rattle.std.specs.Prelude.{◌≡◌, ◌⊎◌, IfErr};
ghost use Rattle.std.specs.Io.KnownBytes.{Keeps};
ghost use Rattle.clap.specs.Words.{kind_of};
ghost use Rattle.clap.specs.declared.error.kind.ErrorKind.TheVariants.{OutOfMemory};
ghost use Rattle.argon2_cli.specs.Pages.{IsPageKind};
ghost use Rattle.argon2_cli.specs.declared.matches.Refusal.TheVariants.{Memory};

use crate::VERSION;
use crate::matches::{Matches, Refusal};
use argon2_io::Failure;
use clap::builder::ValueParser;
use clap::error::ErrorKind;
use clap::{Arg, ArgAction, Command, Error};
use std::alloc::{AllocError, Global};
use std::io;
use std::io::Write;

/// What a program takes, and what its pages say.
#[derive(Clone, Copy)]
pub struct CommandLine<'a> {
    /// The name of the program.
    pub program: &'a str,
    /// What it does, in a line.
    pub about: &'a str,
    /// What it does, for the long help.
    pub long_about: &'a str,
    /// The end of its help.
    pub notes: &'a str,
    /// Its usage, if that is not one line that the arguments give.
    pub usage: Option<&'a str>,
    /// The options and the words, in the order of the help.
    pub arguments: &'a [Argument<'a>],
}

/// An option, or words without one.
#[derive(Clone, Copy)]
pub struct Argument<'a> {
    /// The name.
    pub name: &'a str,
    /// How it is written.
    pub form: Form<'a>,
    /// What help says of it.
    pub help: &'a str,
    /// Its value if it is not given.
    pub default: Option<&'a str>,
    /// What its value is.
    pub kind: Kind,
    /// The option that excludes it.
    pub excluded: Option<&'a str>,
}

/// How an argument is written.
#[derive(Clone, Copy)]
pub enum Form<'a> {
    /// `--name`
    Flag,
    /// `--name <VALUE>`
    Value(&'a str),
    /// `<NAME>`, or `[NAME]` if it has a default.
    Word,
    /// `<NAME>...` or, with no least number of words, `[NAME]...`
    Words(usize),
}

/// What a value is.
#[derive(Clone, Copy)]
pub enum Kind {
    /// Any text.
    Text,
    /// A decimal number from the first to the second.
    Number(u64, u64),
    /// A number with a fraction.
    Float,
}

impl<'a> CommandLine<'a> {
    /// Reads the words. If an option is given twice, the last one counts.
    ///
    /// # Errors
    /// The exit status of the program, which has then written the page that the words ask for to `output`, or what is wrong
    /// to `errors`: 0 for a page, 2 for wrong words, and 3 if memory is refused or the page can't be written. If `errors`
    /// can't be written, the status stays.
    pub fn parse<W: Write, E: Write>(
        &self,
        alloc: Global,
        words: &'a [String],
        output: &mut W,
        errors: &mut E,
    ) -> Result<Matches<'a>, u8>
        ensures status { IfErr result (λ status. (status ≡ 0) ⊎ (status ≡ 2) ⊎ (status ≡ 3)) }
        ensures unwritten { IfErr result (λ status. status ≡ 2 →
            Keeps (W.contents output.old) (W.contents output.new)) }
    {
        match self.matches(alloc, words) {
            Ok(matches) => Ok(matches),
            Err(error) => Err(answer(self.program, &error, output, errors)),
        }
    }

    /// Writes why the program does not take the words to `errors`.
    ///
    /// The status is 2, or 3 if memory is refused. If `errors` can't be written, the status stays.
    pub fn refuse<E: Write>(&self, alloc: Global, refusal: &Refusal, errors: &mut E) -> u8
        ensures status { (result ≡ 2) ⊎ (result ≡ 3) }
        ensures memory { (refused : _) → refusal.now ≡ Memory refused → result ≡ 3 }
    {
        let error = match refusal {
            Refusal::Words(why) => self.error(alloc, why.as_str()),
            Refusal::Memory(_) => Err(AllocError),
        };
        match error {
            Ok(error) => complain(&error, errors),
            Err(refused) => Failure::Memory(refused).report(self.program, "", errors),
        }
    }

    // Reads the words, and collects the value of each argument.
    fn matches(&self, alloc: Global, words: &'a [String]) -> Result<Matches<'a>, Error> {
        let mut command = self.command(alloc)?;
        let found = command.try_get_matches_from_mut(words)?;
        let mut matches = Matches::new(alloc, self.arguments);
        for argument in self.arguments {
            for value in found.get_strs(argument.name).unwrap_or(&[]) {
                matches.push(argument.name, *value)?;
            }
        }
        Ok(matches)
    }

    // What is wrong with words, in the form of clap's errors.
    fn error(&self, alloc: Global, why: &str) -> Result<Error, AllocError> {
        let mut command = self.command(alloc)?;
        command.error(ErrorKind::ValueValidation, why)
    }

    // The command line for clap.
    fn command(&self, alloc: Global) -> Result<Command<'a>, AllocError> {
        let mut command = self.with_pages(Command::new(alloc, self.program));
        if let Some(usage) = self.usage {
            command = command.override_usage(usage);
        }
        for argument in self.arguments {
            command = command.arg(argument.arg(alloc)?)?;
        }
        Ok(command)
    }

    // A command with the texts of its pages.
    fn with_pages(&self, command: Command<'a>) -> Command<'a> {
        command
            .version(VERSION)
            .about(self.about)
            .long_about(self.long_about)
            .after_help(self.notes)
            .no_binary_name(true)
            .args_override_self(true)
    }
}

impl<'a> Argument<'a> {
    /// A flag of any text, which `argument!` begins with.
    pub const PLAIN: Argument<'static> = Argument {
        name: "",
        form: Form::Flag,
        help: "",
        default: None,
        kind: Kind::Text,
        excluded: None,
    };

    // The argument for clap.
    fn arg(&self, alloc: Global) -> Result<Arg<'a>, AllocError> {
        let mut arg = self.in_form(Arg::new(alloc, self.name).help(self.help));
        if let Some(value) = self.default {
            arg = arg.default_value(value);
        }
        match self.excluded {
            Some(name) => arg.conflicts_with(name),
            None => Ok(arg),
        }
    }

    // An argument that is written in this form.
    fn in_form(&self, arg: Arg<'a>) -> Arg<'a> {
        match self.form {
            Form::Flag => arg.long(self.name).action(ArgAction::SetTrue),
            Form::Value(value) => arg
                .long(self.name)
                .value_name(value)
                .value_parser(self.kind.parser())
                .action(ArgAction::Set),
            Form::Word => arg
                .required(self.default.is_none())
                .value_parser(self.kind.parser())
                .action(ArgAction::Set),
            Form::Words(least) => arg
                .required(least > 0)
                .num_args(least..)
                .action(ArgAction::Append),
        }
    }
}

impl Kind {
    // What checks a value.
    fn parser(self) -> ValueParser<'static> {
        match self {
            Kind::Text => ValueParser::String,
            Kind::Number(least, most) => ValueParser::Unsigned(least, most),
            Kind::Float => ValueParser::Float,
        }
    }
}

// Writes a page that the words ask for to `output`, or what is wrong with the words to `errors`, and returns the status.
fn answer<W: Write, E: Write>(program: &str, error: &Error, output: &mut W, errors: &mut E) -> u8
    ensures page { IsPageKind (kind_of error.now) → (result ≡ 0) ⊎ (result ≡ 3) }
    ensures memory { kind_of error.now ≡ OutOfMemory → result ≡ 3 }
    ensures wrong { ¬ IsPageKind (kind_of error.now) → ¬ (kind_of error.now ≡ OutOfMemory) →
        result ≡ 2 }
    ensures status { (result ≡ 0) ⊎ (result ≡ 2) ⊎ (result ≡ 3) }
    ensures unwritten { result ≡ 2 → Keeps (W.contents output.old) (W.contents output.new) }
{
    match error.kind() {
        ErrorKind::DisplayHelp | ErrorKind::DisplayVersion => match page(error, output) {
            Ok(()) => 0,
            Err(failed) => Failure::Output(failed).report(program, "", errors),
        },
        ErrorKind::OutOfMemory => Failure::Memory(AllocError).report(program, "", errors),
        _ => complain(error, errors),
    }
}

// Writes the text of an error as a page.
fn page<W: Write>(error: &Error, output: &mut W) -> io::Result<()> {
    write!(output, "{error}")?;
    output.flush()
}

// Writes what is wrong with words, and returns the status.
fn complain<E: Write>(error: &Error, errors: &mut E) -> u8
    ensures { result ≡ 2 }
{
    let _ = write!(errors, "{error}");
    2
}
