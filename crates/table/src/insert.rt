// Insert.
ghost use Rattle.std.specs.Prelude.{◌≡◌, ◌≤◌, length};
ghost use Rattle.addresses.specs.Sized.{buckets_in};
ghost use Rattle.rules.specs.Calls.{Inserts, Space};
ghost use Rattle.rules.specs.Placements.{placement_of};
ghost use Rattle.rules.specs.Tables.{Sound, used_in};
ghost use Rattle.rules.specs.Written.{Kept, Wrote};
ghost use Rattle.search.specs.Spaces.{AllZero, Lent, Long};
ghost use Rattle.settle.specs.Settled.{Settled};
ghost use Rattle.table.specs.States.{Lasting, state_of};

use crate::cells::put;
use crate::laid::Laid;
use crate::table::Table;
use addresses::families::Family;
use addresses::sizes::Size;
use placing::placing::Placing;
use records::declines::Decline;
use records::kinds::Record;
use records::numbers::Words;
use search::spaces::Spaces;
use settle::settles::settle;
use settle::spot::Spot;
use stores::cells::Cell;
use stores::store::Store;

// A cell of the store for a key that is not there yet, once other records have made way.
fn settle_in<R: Record, F: Family, S: Store<R>>(
    size: Size,
    family: &F,
    store: &mut S,
    words: &Words,
    spaces: &mut Spaces<'_>,
) -> Result<Spot, Decline>
    requires reach { used_in size ≤ length (S.Store.cells store.old) }
    requires long { Long spaces.old (buckets_in size) }
    ensures settled { Settled (placement_of (λ x. R.Record.words_of (R.Record.key_of x)) (F.Family.hash_of family.now) size (S.Store.cells store.old)) words.now (S.Store.cells store.new) (Wrote (S.Store.code store.old) (S.Store.raw store.old) (S.Store.raw store.new) (S.Store.cells store.new)) result }
    ensures lasting { Lasting S.Store.place S.Store.code store.old store.new }
    ensures lent { Lent spaces.old spaces.new }
    ensures zero { AllZero spaces.new }
{
    let mut laid = Laid {
        size,
        family,
        store,
    };
    settle::<R, _>(&mut laid, words, spaces)
}

impl<'f, F: Family, S> Table<'f, F, S> {
    // Adds a record whose key is not stored: how many others were displaced for it. It declines with 5 where a working space is
    // too short, with 6 where the key is stored, and with 8 where no assignment holds it and all stored keys. The spaces stay two
    // slices here, as whoever calls has them.
    pub fn insert<R: Record>(
        &mut self,
        added: R,
        queue: &mut [u32],
        came: &mut [u32],
    ) -> Result<u32, Decline>
    where
        S: Store<R>,
        ensures inserted { Sound R.Record.key_of R.Record.words_of (F.Family.hash_of self.old.family.now) (state_of S.Store.cells self.old) → Inserts R.Record.key_of R.Record.words_of (F.Family.hash_of self.old.family.now) (state_of S.Store.cells self.old) added (length queue.old) (length came.old) (state_of S.Store.cells self.new) (Wrote (S.Store.code self.old.store) (S.Store.raw self.old.store) (S.Store.raw self.new.store) (S.Store.cells self.new.store)) result }
        ensures sound { Sound R.Record.key_of R.Record.words_of (F.Family.hash_of self.old.family.now) (state_of S.Store.cells self.old) → Sound R.Record.key_of R.Record.words_of (F.Family.hash_of self.new.family.now) (state_of S.Store.cells self.new) }
        ensures queue { Space result queue.old queue.new }
        ensures came { Space result came.old came.new }
        ensures kept { Kept (used_in self.old.size) (S.Store.cells self.old.store) (S.Store.cells self.new.store) (S.Store.raw self.old.store) (S.Store.raw self.new.store) }
        ensures size { self.new.size ≡ self.old.size }
        ensures family { self.new.family ≡ self.old.family }
        ensures lasting { Lasting S.Store.place S.Store.code self.old.store self.new.store }
    {
        let buckets = self.size.buckets();
        if queue.len().min(came.len()) < buckets as usize {
            return Err(Decline::ShortSpace);
        }
        let mut spaces = Spaces { queue, came };
        if self.store.length() < u64::from(self.size.used()) {
            spaces.clear();
            return Err(Decline::Full);
        }
        let words = R::words(added.key());
        let spot = settle_in::<R, F, S>(
            self.size,
            self.family,
            &mut self.store,
            &words,
            &mut spaces,
        )?;
        put::<R, S>(&mut self.store, spot.cell, Some(added));
        self.count = self.count.saturating_add(1);
        Ok(spot.moves)
    }
}
