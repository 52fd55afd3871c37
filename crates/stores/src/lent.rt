// A store that is lent is a store.
ghost use Rattle.stores.specs.Makings.{at_name, both};

use crate::cells::Cell;
use crate::store::Store;
use records::declines::Decline;
use records::kinds::Record;

impl<R: Record, S: Store<R>> Store<R> for &mut S {
    ghost cells = { λ s. S.Store.cells s.now };

    ghost place = { λ s. both (at_name s.ghost_name) (S.Store.place s.now) };

    ghost raw = { λ s. S.Store.raw s.now };

    ghost code = { λ s. S.Store.code s.now };

    fn length(&self) -> u64 {
        (**self).length()
    }

    fn read(&self, at: u64) -> Result<Cell<R>, Decline> {
        (**self).read(at)
    }

    fn write(&mut self, at: u64, cell: &Cell<R::Numbers>) -> Result<(), Decline> {
        (**self).write(at, cell)
    }
}
