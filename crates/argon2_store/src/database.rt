//! The SQLite database of the accounts: its table, its first page, and how the kit opens it.

ghost use Rattle.std.specs.Prelude.{◌≡◌, ◌↔◌, IsTrue, IfErr, IfOk};
ghost use Rattle.sqlite_store.specs.FileStore.{IsReady, schema_of, state, view};
ghost use Rattle.sqlite_store.specs.Unopened.{AreUsable, HasFile, Opens, image, state_of, wanted_by};
ghost use Rattle.argon2_store.specs.Errors.{IsOfDatabase};
ghost use Rattle.argon2_store.specs.Making.{IsUnmade, first_page};
ghost use Rattle.argon2_store.specs.Opening.{AreClean, AreSound, AreUnharmed, IsFoundIn, IsTableRow, MayHoldAccounts, Recovers, seen_image};
ghost use Rattle.argon2_store.specs.declared.database.Soundness.TheVariants.{Supposed};
ghost use Rattle.argon2_rows.specs.Table.{IsClean, IsUnwritten};
ghost use Rattle.sqlite_value.specs.Value.{owned};
ghost use Rattle.sqlite_value.specs.declared.value.Value.TheVariants.{Text};

use crate::error::OpenError;
use sqlite_disk::{Disk, Files};
use sqlite_pager::{Options, PageSize, Pager};
use sqlite_pool::probe_blank;
use sqlite_store::{FileStore, OpenError as UnopenedError, Unopened};
use sqlite_trees::schema::Object;
use sqlite_trees::store::Shape;
use sqlite_value::keys::Order;
use sqlite_value::order::is_same;
use sqlite_value::row::Row;
use sqlite_value::value::ValueRef;
use std::alloc::{AllocFailed, Global};

const SQL: &str =
    "CREATE TABLE account (name TEXT NOT NULL PRIMARY KEY, phc TEXT NOT NULL) WITHOUT ROWID";

// The table as `sqlite_schema` lists it.
const ACCOUNT: Object<'static> = Object {
    shape: Shape::Index(Order::PLAIN),
    kind: "table",
    name: "account",
    table: "account",
    reals: 0,
    sql: Some(SQL),
};

// How many things a database of accounts lists in `sqlite_schema`: only its table.
const LISTED: usize = 1;

// The bytes of a page of the database.
pub(crate) const PAGE: usize = 4096;

// The pages that are kept in memory, as many as SQLite keeps. Each open asks for all of them.
const CACHED: usize = 500;

// The only page of a database with a log and without a table, up to the last byte that is not zero: the header, and a leaf
// without cells.
const FIRST: [u8; 106] = [
    83, 81, 76, 105, 116, 101, 32, 102, 111, 114, 109, 97, 116, 32, 51, 0, 16, 0, 2, 2, 0, 64, 32,
    32, 0, 0, 0, 0, 0, 0, 0, 1, 0, 0, 0, 0, 0, 0, 0, 0, 0, 0, 0, 1, 0, 0, 0, 4, 0, 0, 0, 0, 0, 0,
    0, 0, 0, 0, 0, 1, 0, 0, 0, 0, 0, 0, 0, 0, 0, 0, 0, 0, 0, 0, 0, 0, 0, 0, 0, 0, 0, 0, 0, 0, 0, 0,
    0, 0, 0, 0, 0, 0, 0, 0, 0, 0, 0, 46, 118, 136, 13, 0, 0, 0, 0, 16,
];

// The first page of a database with a log and without a table.
pub(crate) fn first_page() -> [u8; PAGE]
    ensures { result ≡ first_page }
{
    let mut page = [0; PAGE];
    page[..FIRST.len()].copy_from_slice(&FIRST);
    page
}

// Whether a database is still to be made in a file with these bytes: at most a page of zeros, or a proper prefix of the first
// page. The making of a database leaves such bytes if a kill or the loss of power cuts it off.
pub(crate) fn is_unmade(held: &[u8]) -> bool
    ensures { IsTrue result ↔ IsUnmade held.now }
{
    let is_blank = held.len() <= PAGE && held.iter().all(|&byte| byte == 0);
    is_blank || held.len() < PAGE && first_page().starts_with(held)
}

// Whether a value is this text.
fn is_text(value: ValueRef<'_>, text: &str) -> bool
    ensures { IsTrue result ↔ (owned value.entry ≡ Text text.now) }
{
    is_same(value, ValueRef::Text(text.as_bytes()))
}

// Whether a row of `sqlite_schema` describes the table of accounts. Its columns after the rowid are the type, the name, the
// table, the first page, which may be any, and the SQL text.
fn is_table_row(row: &Row) -> bool
    ensures { IsTrue result ↔ IsTableRow row.now }
{
    is_text(row.get(1), ACCOUNT.kind)
        && is_text(row.get(2), ACCOUNT.name)
        && is_text(row.get(3), ACCOUNT.table)
        && is_text(row.get(5), SQL)
}

// Whether a database with these rows in `sqlite_schema` may hold accounts: it lists only their table, or nothing yet.
fn may_hold_accounts(rows: &[Row]) -> bool
    ensures { IsTrue result ↔ MayHoldAccounts rows.now }
{
    rows.len() <= LISTED && rows.iter().all(is_table_row)
}

// Whether an open checks that a database is sound.
#[derive(Clone, Copy)]
pub(crate) enum Soundness {
    // Each page is checked.
    Checked,
    // No page is checked, because the caller knows that the database is sound.
    Supposed,
}

// Opens a database that has the table.
fn open_existing<D: Disk>(
    unopened: Unopened<D>,
    soundness: Soundness,
) -> Result<FileStore<D>, (UnopenedError, Unopened<D>)>
    requires usable { AreUsable unopened }
    requires sound { soundness ≡ Supposed → IsTrue (state_of unopened).is_clean → HasFile unopened }
    ensures ready { IfOk result IsReady }
    ensures schema { IfOk result (λ it. schema_of it ≡ wanted_by unopened) }
    ensures honest { IfOk result (λ it. IsTrue (state it).is_clean → IsTrue (state_of unopened).is_clean) }
    ensures found { IfOk result (λ it. IsTrue (state it).is_clean →
        Recovers (state_of unopened).page_size (image unopened) (state it).committed) }
    ensures kept { IfOk result (λ it. IsTrue (state it).is_clean → Opens unopened (state it)) }
    ensures unharmed { IfErr result (λ e. IsTrue (state_of e.1).is_clean → Opens unopened (state_of e.1)) }
    ensures back { IfErr result (λ e. wanted_by e.1 ≡ wanted_by unopened) }
    ensures falls { IfErr result (λ e. IsTrue (state_of e.1).is_clean → IsTrue (state_of unopened).is_clean) }
{
    match soundness {
        Soundness::Checked => unopened.open(),
        Soundness::Supposed => unopened.open_trusted(),
    }
}

// Opens the database in two files. If it has no table yet, as after a first open that was cut off, the table is made. A database
// that lists anything else is refused before more of it is read. An error comes with the files.
pub(crate) fn open_files<D: Disk + Drop>(
    alloc: Global,
    mut files: Files<D>,
    seed: u64,
    soundness: Soundness,
) -> Result<FileStore<D>, (OpenError, Files<D>)>
    requires usable { IsTrue (D.Disk.is_usable files.log) × IsTrue (D.Disk.is_usable files.db) }
    requires sound { soundness ≡ Supposed → AreClean D.Disk files.log files.db →
        AreSound (seen_image D.Disk files.log files.db) }
    ensures opened { IfOk result (λ it. IsClean (view it) →
        IsUnwritten (view it) × AreClean D.Disk files.log files.db
        × IsFoundIn 4096 (seen_image D.Disk files.log files.db) ((view it).committed 0)) }
    ensures error { IfErr result (λ e. IsOfDatabase e.0) }
    ensures left { IfErr result (λ e.
        (AreClean D.Disk e.1.log e.1.db → AreClean D.Disk files.log files.db)
        × AreUnharmed D.Disk (files.log, files.db) (e.1.log, e.1.db)) }
{
    let Some(size) = PageSize::new(PAGE) else {
        return Err((OpenError::NotAccounts, files));
    };
    let is_new = match probe_blank(alloc, &mut files, size, false) {
        Ok(is_new) => is_new,
        Err(error) => return Err((error.into(), files)),
    };
    let options = Options {
        cache_pages: CACHED,
        ..Options::new(seed)
    };
    let pager = match Pager::new(alloc, files, size, options) {
        Ok(pager) => pager,
        Err(AllocFailed { value }) => return Err((OpenError::OutOfMemory, value)),
    };
    let mut unopened = match Unopened::new(alloc, pager, &[ACCOUNT]) {
        Ok(unopened) => unopened,
        Err(AllocFailed { value }) => return Err((OpenError::OutOfMemory, value.close())),
    };
    if !is_new {
        let rows = match unopened.read_catalog() {
            Ok(rows) => rows,
            Err(error) => return Err((error.into(), unopened.close())),
        };
        if !may_hold_accounts(rows.as_slice()) {
            return Err((OpenError::NotAccounts, unopened.close()));
        }
        if rows.len() == LISTED {
            match open_existing(unopened, soundness) {
                Ok(store) => return Ok(store),
                Err((error, left)) => return Err((error.into(), left.close())),
            }
        }
    }
    match unopened.create() {
        Ok(store) => Ok(store),
        Err((error, left)) => Err((error.into(), left.close())),
    }
}
