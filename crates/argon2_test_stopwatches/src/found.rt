//! What a run has done, and whether an answer says so.

use std::fmt;

// The line that says that a measurement is made again.
const AGAIN: &str = "argon2-calibrate: the machine is busy, measuring again";

/// What a run has done. Each line feed of the texts is written `\n`.
#[derive(Drop)]
pub struct Found {
    /// The exit status.
    pub status: u8,
    /// What was written to the output.
    pub output: String,
    /// What was written to the errors.
    pub errors: String,
}

impl Found {
    /// Whether all parts of an answer say so.
    pub fn is(&self, answer: &str) -> bool {
        answer.split("; ").all(|part| self.has(part))
    }

    // Whether a part of an answer says so.
    fn has(&self, part: &str) -> bool {
        match part.split_once(' ') {
            Some(("status", number)) => number.parse::<u8>() == Ok(self.status),
            Some(("output", text)) => is_like(self.output.as_str(), text),
            Some(("errors", text)) => is_like(self.errors.as_str(), text),
            Some(("again", number)) => number.parse::<usize>() == Ok(self.again()),
            _ => false,
        }
    }

    // How many lines of the errors say that a measurement is made again.
    fn again(&self) -> usize {
        let lines = self.errors.as_str().split("\\n");
        lines.filter(|line| *line == AGAIN).count()
    }
}

impl fmt::Display for Found {
    fn fmt<W: fmt::Write>(&self, f: &mut fmt::Formatter<W>) -> fmt::Result {
        let (status, output, errors) = (self.status, self.output.as_str(), self.errors.as_str());
        write!(f, "status {status}; output {output}; errors {errors}")
    }
}

// Whether a text is as another one says, in which `..`, at most twice, stands for any text.
fn is_like(text: &str, wanted: &str) -> bool {
    let Some((begin, rest)) = wanted.split_once("..") else {
        return text == wanted;
    };
    let (middle, end) = rest.split_once("..").unwrap_or(("", rest));
    text.strip_prefix(begin)
        .and_then(|text| text.strip_suffix(end))
        .is_some_and(|between| between.contains(middle))
}
