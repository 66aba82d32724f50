//! The machine that the program runs on.

use argon2_passwd::{Failure, IfAbsent, News, Outside, RowCheck, SecretKind};
use argon2_store::{AccountFile, AccountsAt, OpenError, is_made, make_file};
use sqlite_std_file::{FileFrom, Wary};
use sqlite_store::FileStore;
use sqlite_trees::error::StoreError;
use sqlite_trees::store::Store;
use std::alloc::AllocError;
use std::io::{ErrorKind, Read};
use std::os::unix::fs::MetadataExt;
use std::random::RandomSource;
use std::time::{Duration, Instant};
use std::{fs, thread};

// The most bytes that a secret may have.
const MAX_SECRET_LEN: usize = 4096;

// How many seconds a command waits in all for other processes that have the file open.
const MAX_WAIT_SECS: u64 = 5;

// After how many its pauses become short, so that it comes before a process that has just begun.
const LONG_PAUSES: u64 = 2;

/// The machine that the program runs on.
#[derive(Drop)]
pub struct Machine<'a> {
    rt: &'a HostRuntime,
    news: News,
    waited: Duration,
    // When the last pause began, if the file is still in use.
    paused: Option<Instant>,
}

impl<'a> Machine<'a> {
    ghost use Rattle.std.specs.Prelude.{◌≡◌, IfErr, IfOk};
    ghost use Rattle.argon2_rows.specs.Names.{Texts};
    ghost use Rattle.argon2_store.specs.AccountFile.{IsReady};
    ghost use Rattle.argon2_passwd.specs.Failures.{status_of};

    /// The machine of this runtime, which has opened no file.
    pub fn new(rt: &'a HostRuntime) -> Machine<'a> {
        Machine {
            rt,
            news: News {
                is_made: false,
                is_behind: false,
            },
            waited: Duration::ZERO,
            paused: None,
        }
    }

    // The accounts in the file at a path. The rows that are not checked first are supposed to be sound.
    #[tactic(auto, using(argon2_store::proofs::NextOpenLemmas::empty_held))]
    fn open_accounts(&self, path: &str, rows: RowCheck) -> Result<AccountsAt<Wary>, Failure>
        ensures ready { IfOk result (λ file. (names : Texts) × IsReady names file) }
        ensures failed { IfErr result (λ failure. status_of failure ≡ 3) }
    {
        match rows {
            RowCheck::All => Ok(AccountFile::open(self.rt, path, Wary)?),
            RowCheck::LookedUp => Ok(AccountFile::open_sound(self.rt, path, Wary)?),
        }
    }

    // Checks that a file at this path can have a log beside it, whose name is longer.
    fn check_log_path(&self, path: &str) -> Result<(), Failure>
        ensures { IfErr result (λ failure. status_of failure ≡ 3) }
    {
        let log = format!(in self.rt.alloc(); "{path}-wal")?;
        match fs::symlink_metadata(self.rt, log.as_str()) {
            Err(error) if error.kind() != ErrorKind::NotFound => {
                Err(Failure::from(OpenError::Path(error)))
            }
            _ => Ok(()),
        }
    }
}

// Whether a path names a symbolic link.
fn is_link(rt: &HostRuntime, path: &str) -> bool {
    fs::symlink_metadata(rt, path).is_ok_and(|found| found.is_symlink())
}

impl Outside for Machine<'_> {
    ghost use Rattle.std.specs.Prelude.{◌≡◌, ◌≤◌, length};

    type File = FileStore<FileFrom<Wary>>;

    // Of a secret only the length is known.
    ghost holds = { λ path secret. length secret ≤ 4096 };

    // Of random bytes only the number is known.
    ghost gives = { λ seed. length seed ≡ 32 };

    ghost news = { λ machine. machine.news };

    fn secret(&self, path: &str, kind: SecretKind) -> Result<Vec<u8>, Failure> {
        let mut secret = Vec::new(self.rt.alloc());
        let file = fs::open(self.rt, path).or(Err(Failure::Secret(kind)))?;
        match file
            .take(MAX_SECRET_LEN as u64 + 1)
            .read_to_end(&mut secret)
        {
            Ok(_) => {}
            Err(e) if e.kind() == ErrorKind::OutOfMemory => return Err(Failure::from(AllocError)),
            Err(_) => return Err(Failure::Secret(kind)),
        }
        let is_missing = secret.is_empty() && matches!(kind, SecretKind::Current);
        if is_missing || secret.len() > MAX_SECRET_LEN {
            return Err(Failure::SecretLength(kind));
        }
        Ok(secret)
    }

    fn seed(&self) -> Result<[u8; 32], Failure> {
        let mut seed = [0; 32];
        match self.rt.fill_bytes(&mut seed) {
            Ok(()) => Ok(seed),
            Err(_) => Err(Failure::Random),
        }
    }

    fn check_path(&self, path: &str, if_absent: IfAbsent) -> Result<(), Failure> {
        let makes = matches!(if_absent, IfAbsent::Make);
        let why = match fs::metadata(self.rt, path) {
            Ok(found) if found.is_dir() => "is a directory",
            Ok(found) if !found.is_file() => "is no regular file",
            Ok(found) if found.nlink() > 1 => "has a second name (a hard link)",
            Ok(_) => {
                if makes || is_made(self.rt, path)? {
                    return Ok(());
                }
                "has no accounts yet"
            }
            Err(error) if error.kind() == ErrorKind::NotFound && makes => {
                // Another process may make the file meanwhile.
                if !is_link(self.rt, path) {
                    return self.check_log_path(path);
                }
                "is a link to a file that is not there"
            }
            Err(error) if error.kind() == ErrorKind::OutOfMemory => return Err(Failure::from(
                AllocError,
            )),
            Err(error) => return Err(Failure::from(OpenError::Path(error))),
        };
        Err(Failure::Unfit(why))
    }

    // Others may change what is at the path while a password is hashed, so each open looks again.
    fn open(
        &mut self,
        path: &str,
        if_absent: IfAbsent,
        rows: RowCheck,
    ) -> Result<AccountsAt<Wary>, Failure> {
        self.check_path(path, if_absent)?;
        let has_made = match if_absent {
            IfAbsent::Make => make_file(self.rt, path)?,
            IfAbsent::Fail => false,
        };
        self.news.is_made |= has_made;
        let accounts = self.open_accounts(path, rows)?;
        self.paused = None;
        Ok(accounts)
    }

    fn close(&mut self, mut store: FileStore<FileFrom<Wary>>) {
        match store.checkpoint() {
            Ok(()) => self.news.is_behind = false,
            // Of a store that has failed, no change was acknowledged.
            Err(StoreError::Broken) => {}
            Err(_) => self.news.is_behind = true,
        }
    }

    fn pause(&mut self) -> bool {
        let Ok(now) = Instant::now(self.rt) else {
            return false;
        };
        if let Some(paused) = self.paused {
            self.waited = self.waited.saturating_add(now.duration_since(paused));
        }
        if self.waited.as_secs() >= MAX_WAIT_SECS {
            return false;
        }
        self.paused = Some(now);
        let pause = if self.waited.as_secs() < LONG_PAUSES {
            10
        } else {
            1
        };
        thread::sleep(self.rt, Duration::from_millis(pause));
        true
    }

    fn news(&self) -> News {
        self.news
    }
}
