// What every store shows: a list of cells of fixed length for one record kind.
ghost use Rattle.std.specs.Prelude.{◌≡◌, ℕ, ◌^◌, ◌≤◌, false, List, length, is_ok, Ok, slice_index_or, None, Option};
ghost use Rattle.stores.specs.Cells.{after, asked, numbered, read_of, write_of};
ghost use Rattle.stores.specs.Makings.{Place, Raw};

use crate::cells::Cell;
use records::declines::Decline;
use records::kinds::Record;

pub trait Store<R: Record> {
    // the cells, each empty or holding a record
    ghost cells: { Self → List (Option R) };

    // what no call changes: the memory that the store was lent, and its shape
    ghost place: { Self → Place R };

    // what cell k is made of: plain numbers or bytes
    ghost raw: { Self → ℕ → Raw R.Numbers };

    // what a write makes cell k of
    ghost code: { Self → ℕ → Option R → Raw R.Numbers };

    // How many cells there are.
    fn length(&self) -> u64
        ensures value { result ≡ length (cells self.now) }
        ensures bound { result ≤ 2 ^ 40 };

    // The named cell, or decline 13 at or past the length.
    fn read(&self, at: u64) -> Result<Cell<R>, Decline>
        ensures { numbered result ≡ read_of (cells self.now) at };

    // Replaces the named cell only. Numbers that make no record are declined with 3 or 4, then a cell at or past the length with 13.
    fn write(&mut self, at: u64, cell: &Cell<R::Numbers>) -> Result<(), Decline>
        ensures answer { numbered result ≡ write_of (asked R.Record.made cell.now) (cells self.old) at }
        ensures cells { cells self.new ≡ after (asked R.Record.made cell.now) (cells self.old) at }
        ensures place { place self.new ≡ place self.old }
        ensures others { (k : ℕ) → (k ≡ at → is_ok result ≡ false) → raw self.new k ≡ raw self.old k }
        ensures made { result ≡ Ok tt → raw self.new at ≡ code self.old at (slice_index_or (cells self.new) at None) }
        ensures codes { (k : ℕ) (v : Option R) → code self.new k v ≡ code self.old k v };
}

// The cell that a write of plain numbers asks for, or why they make no record.
pub fn asked_cell<R: Record>(cell: &Cell<R::Numbers>) -> Result<Cell<R>, Decline>
    ensures { result ≡ asked R.Record.made cell.now }
{
    // no `map` and `transpose`: the borrow checker does not cover `map` with `R::from_numbers`
    match *cell {
        Some(numbers) => Ok(Some(R::from_numbers(numbers)?)),
        None => Ok(None),
    }
}
