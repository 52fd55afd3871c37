// Checking the used cells of a module.
ghost use Rattle.std.specs.Prelude.{◌≡◌, ℕ, ◌<◌, take, MatchBool};
ghost use Rattle.assignment.specs.Assign.{In, count};
ghost use Rattle.octets.specs.Codec.{byte_row, lawful_at};
ghost use Rattle.rules.specs.Tables.{holding, own_buckets, used_in};
ghost use Rattle.modules.specs.Checks.{Checks, Fine, Judged, table_over};

use crate::faults::Fault;
use crate::module::Module;
use addresses::families::Family;
use addresses::positions::choice;
use addresses::sizes::Size;
use lookup::finds::find_below;
use octets::kinds::Coded;
use octets::store::{cell_or_empty, is_lawful};
use records::declines::Decline;
use records::kinds::Record;
use records::numbers::Words;

// Whether a bucket is one of a key's own.
pub fn is_own<F: Family>(size: Size, family: &F, words: Words, p: u32) -> bool
    ensures { MatchBool result (In p (own_buckets (F.Family.hash_of family.now) size words)) (In p (own_buckets (F.Family.hash_of family.now) size words) → ⊥) }
{
    let word = family.hash(words);
    // as `(0..choices).any(..)` it did not prove
    for i in 0..size.settings.choices {
        if size.position(choice(word, i)) == p {
            return true;
        }
    }
    false
}

impl Module<'_> {
    // Whether a used cell is right, where those before it are: a second record of its key can then only lie in the key's own buckets.
    fn check_cell<R: Coded, F: Family>(&self, family: &F, k: u32) -> Result<(), Decline>
        requires used { k < used_in self.now.layout.size }
        requires before { (j : ℕ) → j < k → Fine (lawful_at R.Coded.record_in self.now.cells.bytes.now) R.Record.key_of R.Record.words_of (F.Family.hash_of family.now) (table_over R.Coded.record_in self.now.layout self.now.cells.bytes.now) j }
        ensures { Judged (lawful_at R.Coded.record_in self.now.cells.bytes.now) R.Record.key_of R.Record.words_of (F.Family.hash_of family.now) (table_over R.Coded.record_in self.now.layout self.now.cells.bytes.now) k result }
    {
        let size = self.layout.size;
        let bytes = self.cells.bytes;
        if !is_lawful::<R>(bytes, k as usize) {
            return Err(Decline::BadCell);
        }
        let Some(held) = cell_or_empty::<R>(bytes, u64::from(k)) else {
            return Ok(());
        };
        let words = R::words(held.key());
        if !is_own(size, family, words, k / size.settings.cells) {
            return Err(Decline::Misplaced);
        }
        match find_below::<R, F, _>(&self.cells, size, family, words, k) {
            Some(_) => Err(Decline::Repeated),
            None => Ok(()),
        }
    }

    // How many of the first n cells hold a record.
    fn count_held<R: Coded>(&self, n: u32) -> u32
        ensures { result ≡ count holding (take n (byte_row R.Coded.record_in self.now.cells.bytes.now)) }
    {
        let mut held = 0;
        // as `(0..n).filter(..).count()` it did not prove
        for k in 0..n {
            if cell_or_empty::<R>(self.cells.bytes, u64::from(k)).is_some() {
                held += 1;
            }
        }
        held
    }

    // The used cells of a module: the lowest that is faulty, or a count that is wrong.
    pub fn check<R: Coded, F: Family>(&self, family: &F) -> Result<(), Fault>
        ensures { Checks (lawful_at R.Coded.record_in self.now.cells.bytes.now) R.Record.key_of R.Record.words_of (F.Family.hash_of family.now) (table_over R.Coded.record_in self.now.layout self.now.cells.bytes.now) result }
    {
        let used = self.layout.used();
        for k in 0..used {
            // with `map_err(..)?` and a closure that takes k it did not prove
            if let Err(decline) = self.check_cell::<R, F>(family, k) {
                return Err(Fault {
                    decline,
                    cell: Some(k),
                });
            }
        }
        if self.count_held::<R>(used) != self.layout.count {
            return Err(Decline::WrongCount.into());
        }
        Ok(())
    }
}
