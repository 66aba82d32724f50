//! The headers of a database and of its log, and how a damaged log is told.

ghost use Rattle.std.specs.Prelude.{◌↔◌, IsTrue, IfOk};
ghost use Rattle.sqlite_disk.specs.Disk.{CountsFault};
ghost use Rattle.argon2_store.specs.Opening.{IsDamaged, IsSigned, OnlyReads};

use sqlite_disk::Disk;
use sqlite_wal::checksum_of;
use std::io;

// The first bytes of each SQLite database.
pub(crate) const NAME: [u8; 16] = *b"SQLite format 3\0";

// The bytes of a log's header, and of the header of its first frame.
pub(crate) const HEADERS: usize = 56;

// The first byte of a log's magic number.
const MAGIC: u8 = 0x37;

// Whether a log's header passes SQLite's test: it begins with the magic number and ends with its checksum.
fn is_signed(head: &[u8; 32]) -> bool
    ensures { IsTrue result ↔ IsSigned head.now }
{
    if head[..3] != [MAGIC, 0x7f, 0x06] || !matches!(head[3], 0x82 | 0x83) {
        return false;
    }
    let sum = checksum_of(head[3] == 0x83, (0, 0), &head[..24]);
    let first = u32::from_be_bytes([head[24], head[25], head[26], head[27]]);
    let second = u32::from_be_bytes([head[28], head[29], head[30], head[31]]);
    sum == (first, second)
}

// Whether a log with room for a frame has a damaged header.
pub(crate) fn is_damaged<D: Disk>(log: &mut D) -> io::Result<bool>
    requires { IsTrue (D.Disk.is_usable log.old) }
    ensures found { IfOk result (λ is. IsTrue (D.Disk.is_clean log.new) →
        IsTrue is ↔ IsDamaged (D.Disk.seen log.old)) }
    ensures faults { CountsFault result (D.Disk.faults log.old) (D.Disk.faults log.new) }
    ensures same { OnlyReads D.Disk log.old log.new }
{
    if log.len()? < HEADERS {
        return Ok(false);
    }
    let mut head = [0; 32];
    log.read_at(0, &mut head)?;
    Ok(head[0] == MAGIC && !is_signed(&head))
}
