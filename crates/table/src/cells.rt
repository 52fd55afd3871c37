// Putting something into one cell of a store. It serves the calls on a table.
ghost use Rattle.std.specs.Prelude.{◌≡◌, ℕ, ◌<◌, length, ◌≢◌, slice_set};
ghost use Rattle.table.specs.States.{Lasting};

use records::kinds::Record;
use stores::cells::Cell;
use stores::store::Store;

// Puts something into a cell, and changes no other; nothing past the end.
pub fn put<R: Record, S: Store<R>>(store: &mut S, cell: u32, held: Cell<R>)
    ensures cells { S.Store.cells store.new ≡ slice_set (S.Store.cells store.old) cell held }
    ensures others { (k : ℕ) → (k ≢ cell) → S.Store.raw store.new k ≡ S.Store.raw store.old k }
    ensures made { cell < length (S.Store.cells store.old) → S.Store.raw store.new cell ≡ S.Store.code store.old cell held }
    ensures lasting { Lasting S.Store.place S.Store.code store.old store.new }
{
    let numbers = held.map(|record| record.to_numbers());
    let _ = store.write(cell as u64, &numbers);
}
