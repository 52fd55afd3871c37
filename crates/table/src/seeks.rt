// Looking for a key in its own buckets. It serves the calls on a table.
ghost use Rattle.table.specs.Seeks.{Sought};

use addresses::families::Family;
use addresses::sizes::Size;
use lookup::finds::find_below;
use lookup::hit::Hit;
use records::kinds::Record;
use stores::store::Store;

// The record with this key in an own bucket. At most the cells of the own buckets are read.
pub fn seek<R: Record, F: Family, S: Store<R>>(
    size: Size,
    family: &F,
    store: &S,
    key: R::Key,
) -> Option<Hit<R>>
    ensures { Sought R.Record.key_of R.Record.words_of (F.Family.hash_of family.now) (record { size = size; count = 0; cells = S.Store.cells store.now }) key result }
{
    find_below::<R, F, _>(&store, size, family, R::words(key), size.used())
}
