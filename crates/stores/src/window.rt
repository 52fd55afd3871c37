// A window on another store: so many of its cells from a given one on, cut off at its end.
ghost use Rattle.std.specs.Prelude.{◌+◌, take, drop};
ghost use Rattle.stores.specs.Makings.{part};

use crate::cells::Cell;
use crate::store::{Store, asked_cell};
use records::declines::Decline;
use records::kinds::Record;

#[derive(Drop)]
pub struct Window<S> {
    pub inner: S,
    pub start: u64,
    pub len: u64,
}

impl<R: Record, S: Store<R>> Store<R> for Window<S> {
    ghost cells = { λ s. take s.len (drop s.start (S.Store.cells s.inner)) };

    ghost place = { λ s. part s.start s.len (take s.start (S.Store.cells s.inner)) (drop (s.start + s.len) (S.Store.cells s.inner)) (S.Store.place s.inner) };

    ghost raw = { λ s k. S.Store.raw s.inner (s.start + k) };

    ghost code = { λ s k. S.Store.code s.inner (s.start + k) };

    fn length(&self) -> u64 {
        let rest = self.inner.length().saturating_sub(self.start);
        rest.min(self.len)
    }

    fn read(&self, at: u64) -> Result<Cell<R>, Decline> {
        let whole = Store::<R>::length(self);
        if at >= whole {
            return Err(Decline::NoSuchCell);
        }
        // its clause bounds the sum
        let _ = self.inner.length();
        self.inner.read(self.start + at)
    }

    fn write(&mut self, at: u64, cell: &Cell<R::Numbers>) -> Result<(), Decline> {
        let whole = Store::<R>::length(self);
        if at >= whole {
            let _ = asked_cell::<R>(cell)?;
            return Err(Decline::NoSuchCell);
        }
        // its clause bounds the sum
        let _ = self.inner.length();
        self.inner.write(self.start + at, cell)
    }
}
