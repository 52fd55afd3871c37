// Erase.
ghost use Rattle.std.specs.Prelude.{◌≡◌};
ghost use Rattle.rules.specs.Calls.{Erases};
ghost use Rattle.rules.specs.Tables.{Sound, used_in};
ghost use Rattle.rules.specs.Written.{Kept, Wrote};
ghost use Rattle.table.specs.States.{Lasting, state_of};

use crate::cells::put;
use crate::seeks::seek;
use crate::table::Table;
use addresses::families::Family;
use records::declines::Decline;
use records::kinds::Record;
use stores::cells::Cell;
use stores::store::Store;

impl<'f, F: Family, S> Table<'f, F, S> {
    // Takes the record with the key out of the table, or declines with 7.
    pub fn erase<R: Record>(&mut self, key: R::Key) -> Result<R, Decline>
    where
        S: Store<R>,
        ensures erased { Sound R.Record.key_of R.Record.words_of (F.Family.hash_of self.old.family.now) (state_of S.Store.cells self.old) → Erases R.Record.key_of (state_of S.Store.cells self.old) key (state_of S.Store.cells self.new) (Wrote (S.Store.code self.old.store) (S.Store.raw self.old.store) (S.Store.raw self.new.store) (S.Store.cells self.new.store)) result }
        ensures sound { Sound R.Record.key_of R.Record.words_of (F.Family.hash_of self.old.family.now) (state_of S.Store.cells self.old) → Sound R.Record.key_of R.Record.words_of (F.Family.hash_of self.new.family.now) (state_of S.Store.cells self.new) }
        ensures kept { Kept (used_in self.old.size) (S.Store.cells self.old.store) (S.Store.cells self.new.store) (S.Store.raw self.old.store) (S.Store.raw self.new.store) }
        ensures size { self.new.size ≡ self.old.size }
        ensures family { self.new.family ≡ self.old.family }
        ensures lasting { Lasting S.Store.place S.Store.code self.old.store self.new.store }
    {
        let hit = seek::<R, F, S>(self.size, self.family, &self.store, key).ok_or(
            Decline::KeyAbsent,
        )?;
        put::<R, S>(&mut self.store, hit.cell, None);
        self.count = self.count.saturating_sub(1);
        Ok(hit.held)
    }
}
