//! Adding several names in one transaction.
#![tactic(auto, using(argon2_rows::proofs::TableLemmas::kept))]

ghost use Rattle.std.specs.Prelude.{map};
ghost use Rattle.argon2_rows.specs.Names.{Texts, entry_of};
ghost use Rattle.argon2_rows.specs.Table.{HasRows, IsHonest, IsOpen, WritesAll};

use crate::account_file::AccountFile;
use argon2_rows::StoredText;
use argon2_rows::table::{AddError, add_each, undo};
use sqlite_trees::error::StoreError;
use sqlite_trees::store::Store;

impl<S: Store> AccountFile<S> {
    ghost use Rattle.argon2_store.specs.AccountFile.{database_of};

    // Gives new names their texts, and commits. If a name is taken, nothing is written.
    fn add_listed(&mut self, new: &[(&str, StoredText<'_>)]) -> Result<(), AddError>
        requires { IsHonest S.Store (database_of self.old) → IsOpen S.Store (database_of self.old) }
        ensures { (before : Texts) → HasRows S.Store (database_of self.old) before →
            WritesAll S.Store (database_of self.old) (database_of self.new) before (map entry_of new.now) result }
    {
        match add_each(&mut self.store, &mut self.row, &mut self.key, new) {
            Ok(()) => Ok(self.store.commit()?),
            Err(error) => {
                undo(&mut self.store);
                Err(error)
            }
        }
    }

    // The same, written in the order of the names, so that each page is written once. The names are written as they are listed
    // if they are in order, if there is no memory for a sorted list, or to find the first name that is taken.
    pub(crate) fn add_in_order(&mut self, new: &[(&str, StoredText<'_>)]) -> Result<(), AddError>
        requires { IsHonest S.Store (database_of self.old) → IsOpen S.Store (database_of self.old) }
        ensures { (before : Texts) → HasRows S.Store (database_of self.old) before →
            WritesAll S.Store (database_of self.old) (database_of self.new) before (map entry_of new.now) result }
    {
        if new.is_sorted() {
            return self.add_listed(new);
        }
        let Ok(mut sorted) = Vec::from_slice(self.alloc, new) else {
            return self.add_listed(new);
        };
        sorted.sort_unstable();
        match self.add_listed(sorted.as_slice()) {
            Ok(()) => return Ok(()),
            Err(AddError::Store(error)) => return Err(AddError::Store(error)),
            Err(AddError::Taken(_)) => {}
        }
        // Only a failure of the disk closes the file as the rows are removed.
        if self.is_closed() {
            return Err(AddError::Store(StoreError::Io));
        }
        self.add_listed(new)
    }
}
