// The cells of a store as they lie in the buckets of a size, under a family.
ghost use Rattle.rules.specs.Placements.{placement_of};

use crate::cells::put;
use addresses::families::Family;
use addresses::positions::choice;
use addresses::sizes::Size;
use placing::placing::Placing;
use records::kinds::Record;
use records::numbers::Words;
use stores::cells::Cell;
use stores::row::Row;
use stores::store::Store;

#[derive(Drop)]
pub struct Laid<'f, F, S> {
    pub size: Size,
    pub family: &'f F,
    pub store: S,
}

impl<'f, R: Record, F: Family, S: Store<R>> Placing<R> for Laid<'f, F, S> {
    ghost placement = { λ s. placement_of (λ r. R.Record.words_of (R.Record.key_of r)) (F.Family.hash_of s.family.now) s.size (S.Store.cells s.store) };

    ghost place = { λ s. S.Store.place s.store };

    ghost raw = { λ s. S.Store.raw s.store };

    ghost code = { λ s. S.Store.code s.store };

    fn buckets(&self) -> u32 {
        self.size.buckets()
    }

    fn slots(&self) -> u32 {
        self.size.settings.cells
    }

    fn choices(&self) -> u32 {
        self.size.settings.choices
    }

    fn words_at(&self, cell: u32) -> Option<Words> {
        let record: R = (&self.store).cell(cell)?;
        Some(R::words(record.key()))
    }

    fn hash(&self, words: Words) -> u64 {
        self.family.hash(words)
    }

    fn bucket(&self, word: u64, i: u32) -> u32 {
        self.size.position(choice(word, i))
    }

    fn copy(&mut self, from: u32, to: u32) {
        let held: Cell<R> = (&self.store).cell(from);
        put(&mut self.store, to, held);
    }
}
