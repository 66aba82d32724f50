//! Where the program finds the secret, random bytes and accounts.

use crate::failure::{Failure, SecretKind};
use argon2_store::AccountFile;
use sqlite_trees::store::Store;

/// News of a file, which the program prints although nothing fails.
#[derive(Clone, Copy)]
pub struct News {
    /// The command made the file.
    pub is_made: bool,
    /// The log of the file has changes that could not be copied into it.
    pub is_behind: bool,
}

/// What a command does if there is no file.
#[derive(Clone, Copy)]
pub enum IfAbsent {
    /// It makes one.
    Make,
    /// It fails.
    Fail,
}

/// Which rows of a file are checked.
#[derive(Clone, Copy)]
pub enum RowCheck {
    /// All, when the file is opened.
    All,
    /// Those that are looked up.
    LookedUp,
}

/// Where the program finds the secret, random bytes and accounts. One file is open at a time.
pub trait Outside {
    ghost use Rattle.std.specs.Prelude.{◌≡◌, ◌++◌, ◌∷◌, [], ℕ, List, IfErr, IfOk, OnErr, ⊤};
    ghost use Rattle.argon2_passwd.specs.Answers.{FileUse, IsOpened, database_of, status_of};
    ghost use Rattle.argon2_passwd.specs.declared.outside.News.{News};

    /// The store of a file with accounts.
    type File: Store + Drop;

    // The file at a path has these bytes.
    ghost holds: { List ℕ → List ℕ → Type 0 };

    // The system gives these random bytes.
    ghost gives: { List ℕ → Type 0 };

    // The files that were opened and closed, in order, while none is open. A type that keeps no list says nothing of it.
    ghost closed: { Self → List (FileUse Self.File) → Type 0 } = { λ _ _. ⊤ };

    // The same while a file is open, which was opened at this path with this store.
    ghost opened: { Self → List (FileUse Self.File) → List ℕ → Self.File → Type 0 } = { λ _ _ _ _. ⊤ };

    // The news of the file that was opened.
    ghost news: { Self → News };

    /// The secret in the file at a path.
    ///
    /// # Errors
    /// The file can't be read, or has not 1 to 4096 bytes; an old one may be empty.
    fn secret(&self, path: &str, kind: SecretKind) -> Result<Vec<u8>, Failure>
        ensures held { IfOk result (λ secret. holds path.now secret.items) }
        ensures failed { IfErr result (λ failure. status_of failure ≡ 3) };

    /// Random bytes to start a generator with.
    ///
    /// # Errors
    /// The system gives none.
    fn seed(&self) -> Result<[u8; 32], Failure>
        ensures given { IfOk result gives }
        ensures failed { IfErr result (λ failure. status_of failure ≡ 3) };

    /// Checks that accounts can be in the file at a path: there is a file, or none if the command makes it.
    ///
    /// # Errors
    /// There is something else, or nothing.
    fn check_path(&self, path: &str, if_absent: IfAbsent) -> Result<(), Failure>
        ensures { IfErr result (λ failure. status_of failure ≡ 3) };

    /// The accounts in the file at a path, which is made if there is none and the command makes it. No clause says which
    /// rows are checked.
    ///
    /// # Errors
    /// The file can't be opened.
    fn open(
        &mut self,
        path: &str,
        if_absent: IfAbsent,
        rows: RowCheck,
    ) -> Result<AccountFile<Self::File>, Failure>
        requires { (uses : List (FileUse Self.File)) × closed self.old uses }
        ensures ready { IfOk result IsOpened }
        ensures failed { IfErr result (λ failure. status_of failure ≡ 3) }
        ensures opened { IfOk result (λ file. (uses : List (FileUse Self.File)) →
            closed self.old uses → opened self.new uses path.now (database_of file)) }
        ensures untouched { OnErr result ((uses : List (FileUse Self.File)) →
            closed self.old uses → closed self.new uses) };

    /// Closes the file, and copies its log into it.
    fn close(&mut self, store: Self::File)
        requires { (uses : List (FileUse Self.File)) × (path : List ℕ) × (first : Self.File)
            × opened self.old uses path first }
        ensures { (uses : List (FileUse Self.File)) (path : List ℕ) (first : Self.File) →
            opened self.old uses path first →
            closed self.new (uses ++ record { path = path; first = first; last = store } ∷ []) };

    /// Waits a moment for another process that has the file open, unless the command has waited for 5 seconds.
    fn pause(&mut self) -> bool
        ensures { (uses : List (FileUse Self.File)) → closed self.old uses → closed self.new uses };

    /// The news of the file that was opened.
    fn news(&self) -> News
        ensures { result ≡ news self.now };
}
