// Find.
ghost use Rattle.rules.specs.Calls.{Finds};
ghost use Rattle.rules.specs.Tables.{Sound};
ghost use Rattle.table.specs.States.{state_of};

use crate::seeks::seek;
use crate::table::Table;
use addresses::families::Family;
use records::kinds::Record;
use stores::store::Store;

impl<'f, F: Family, S> Table<'f, F, S> {
    // The record with the key, or nothing.
    pub fn find<R: Record>(&self, key: R::Key) -> Option<R>
    where
        S: Store<R>,
        ensures { Sound R.Record.key_of R.Record.words_of (F.Family.hash_of self.now.family.now) (state_of S.Store.cells self.now) → Finds R.Record.key_of (state_of S.Store.cells self.now) key result }
    {
        let hit = seek::<R, F, S>(self.size, self.family, &self.store, key)?;
        Some(hit.held)
    }
}
