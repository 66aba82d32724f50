//! Views of names, and how far the lines of a view are written.

ghost use Rattle.std.specs.Prelude.{◌≡◌};
ghost use Rattle.argon2_rows.specs.Lines.{breaks_line};

use std::io;

/// What the line of each name shows.
#[derive(Clone, Copy, Debug)]
pub enum View {
    /// The name, without a character that a terminal acts on: a control character is shown as `\x` and the two digits of
    /// its code, such as `\x1b`, and `\` is shown twice.
    Names,
    /// The name, a colon and the text.
    Export,
}

/// How far lines were written.
#[derive(Clone, Copy, Debug)]
pub enum Written {
    /// All lines.
    All,
    /// The lines before the first name that [breaks its line](View::breaks_line).
    Breaks,
    /// A prefix of these lines, which may end within a line: then writing failed.
    Failed(io::Error),
}

impl View {
    /// Whether the line of a name would read as the line of another name: in an export, if the name has a line break or a
    /// colon.
    pub fn breaks_line(self, name: &[u8]) -> bool
        ensures { result ≡ breaks_line self name.now }
    {
        match self {
            View::Names => false,
            View::Export => name.contains(&b'\n') || name.contains(&b':'),
        }
    }
}
