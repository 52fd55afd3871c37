// The plain store: a lent slice of cells with plain numbers in them, for any record kind.
ghost use Rattle.std.specs.Prelude.{◌≡◌, ◌^◌, min, length, slice_index_or, None};
ghost use Rattle.stores.specs.Cells.{after, asked, meaning, numbered, plain, read_of, row, slice_after, write_of};
ghost use Rattle.stores.specs.Makings.{at_name, of_cell};

use crate::cells::Cell;
use crate::store::{Store, asked_cell};
use records::declines::Decline;
use records::kinds::Record;

// The most cells that a store has.
pub const MOST: u64 = 1_099_511_627_776;

// The cells of a slice, up to the most.
pub fn slice_length<N>(cells: &[Cell<N>]) -> u64
    ensures { result ≡ min (2 ^ 40) (length cells.now) }
{
    (cells.len() as u64).min(MOST)
}

// What a cell's plain numbers count as: empty, where they make no record.
pub fn meant_cell<R: Record>(cell: &Cell<R::Numbers>) -> Cell<R>
    ensures { result ≡ meaning R.Record.made cell.now }
{
    asked_cell::<R>(cell).unwrap_or(None)
}

// The cell at a place: numbers that make no record count as empty.
pub fn slice_read<R: Record>(cells: &[Cell<R::Numbers>], at: u64) -> Result<Cell<R>, Decline>
    ensures { numbered result ≡ read_of (row R.Record.made cells.now) at }
{
    if at >= slice_length(cells) {
        return Err(Decline::NoSuchCell);
    }
    Ok(meant_cell::<R>(&cells[at as usize]))
}

// Puts a cell's plain numbers at a place, and changes no other.
pub fn slice_write<R: Record>(
    cells: &mut [Cell<R::Numbers>],
    at: u64,
    cell: &Cell<R::Numbers>,
) -> Result<(), Decline>
    ensures answer { numbered result ≡ write_of (asked R.Record.made cell.now) (row R.Record.made cells.old) at }
    ensures cells { row R.Record.made cells.new ≡ after (asked R.Record.made cell.now) (row R.Record.made cells.old) at }
    ensures raw { cells.new ≡ slice_after result cells.old at cell.now }
{
    let _ = asked_cell::<R>(cell)?;
    if at >= slice_length(cells) {
        return Err(Decline::NoSuchCell);
    }
    cells[at as usize] = *cell;
    Ok(())
}

// The cells of a slice that is lent.
#[derive(Drop)]
pub struct Plain<'a, N> {
    pub cells: &'a mut [Cell<N>],
}

impl<R: Record> Store<R> for Plain<'_, R::Numbers> {
    ghost cells = { λ s. row R.Record.made s.cells.now };

    ghost place = { λ s. at_name s.cells.ghost_name };

    ghost raw = { λ s k. of_cell (slice_index_or s.cells.now k None) };

    ghost code = { λ s k v. of_cell (plain R.Record.numbers_of v) };

    fn length(&self) -> u64 {
        slice_length(self.cells)
    }

    fn read(&self, at: u64) -> Result<Cell<R>, Decline> {
        slice_read::<R>(self.cells, at)
    }

    fn write(&mut self, at: u64, cell: &Cell<R::Numbers>) -> Result<(), Decline> {
        slice_write::<R>(self.cells, at, cell)
    }
}
