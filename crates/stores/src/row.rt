// A row of cells that is only read: what a lent store shows, and the bytes of a module.
ghost use Rattle.std.specs.Prelude.{◌≡◌, List, None, Option, slice_index_or};

use crate::cells::Cell;
use crate::store::Store;
use records::kinds::Record;

pub trait Row<R: Record> {
    // the cells, each empty or holding a record
    ghost cells: { Self → List (Option R) };

    // What a cell holds; nothing past the end.
    fn cell(&self, at: u32) -> Cell<R>
        ensures { result ≡ slice_index_or (cells self.now) at None };
}

impl<R: Record, S: Store<R>> Row<R> for &S {
    ghost cells = { λ s. S.Store.cells s.now };

    fn cell(&self, at: u32) -> Cell<R> {
        (**self).read(u64::from(at)).unwrap_or(None)
    }
}
