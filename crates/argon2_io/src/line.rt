//! Lines that programs write.

ghost use Rattle.std.specs.Prelude.{◌≡◌, ◌++◌, ◌∷◌, [], OnOk};
ghost use Rattle.std.specs.Io.KnownBytes.{Appends};
ghost use Rattle.argon2_io.specs.Lines.{AppendsPrefix, joined};

use std::io;
use std::io::{ErrorKind, Write};

/// Writes the parts of a line and a line feed, and flushes. If a write fails, a prefix of the line is written.
pub fn write_line<W: Write>(writer: &mut W, parts: &[&[u8]]) -> io::Result<()>
    ensures written { OnOk result (Appends (W.contents writer.old) (W.contents writer.new)
        (joined parts.now ++ 10 ∷ [])) }
    ensures cut { AppendsPrefix (W.contents writer.old) (W.contents writer.new)
        (joined parts.now ++ 10 ∷ []) }
{
    write_parts(writer, parts)?;
    write_bytes(writer, b"\n")?;
    writer.flush()
}

/// Writes the parts of a text. If a write fails, a prefix of the text is written.
pub fn write_parts<W: Write>(writer: &mut W, parts: &[&[u8]]) -> io::Result<()>
    ensures written { OnOk result (Appends (W.contents writer.old) (W.contents writer.new)
        (joined parts.now)) }
    ensures cut { AppendsPrefix (W.contents writer.old) (W.contents writer.new) (joined parts.now) }
{
    'parts: for part in parts {
        write_bytes(writer, part)?;
    }
    Ok(())
}

/// Writes all bytes. If a write fails, a prefix of them is written. (`write_all` does not say so.)
pub fn write_bytes<W: Write>(writer: &mut W, bytes: &[u8]) -> io::Result<()>
    ensures written { OnOk result (Appends (W.contents writer.old) (W.contents writer.new) bytes.now) }
    ensures cut { AppendsPrefix (W.contents writer.old) (W.contents writer.new) bytes.now }
{
    let mut written = 0;
    'pieces: for _turn in 0..u64::MAX {
        if written == bytes.len() {
            return Ok(());
        }
        match writer.write(&bytes[written..]) {
            Ok(0) => break,
            Ok(count) => written += count,
            Err(e) if e.kind() == ErrorKind::Interrupted => {}
            Err(e) => return Err(e),
        }
    }
    Err(ErrorKind::WriteZero.into())
}
