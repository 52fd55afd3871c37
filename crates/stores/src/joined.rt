// Two stores end to end: the first one's cells before the second's, cut off at the most.
ghost use Rattle.std.specs.Prelude.{◌^◌, ◌++◌, length, take};
ghost use Rattle.stores.specs.Makings.{both, either};

use crate::cells::Cell;
use crate::plain::MOST;
use crate::store::{Store, asked_cell};
use records::declines::Decline;
use records::kinds::Record;

#[derive(Drop)]
pub struct Joined<A, B> {
    pub first: A,
    pub second: B,
}

impl<R: Record, A: Store<R>, B: Store<R>> Store<R> for Joined<A, B> {
    ghost cells = { λ s. take (2 ^ 40) (A.Store.cells s.first ++ B.Store.cells s.second) };

    ghost place = { λ s. both (A.Store.place s.first) (B.Store.place s.second) };

    ghost raw = { λ s. either (length (A.Store.cells s.first)) (A.Store.raw s.first) (B.Store.raw s.second) };

    ghost code = { λ s. either (length (A.Store.cells s.first)) (A.Store.code s.first) (B.Store.code s.second) };

    fn length(&self) -> u64 {
        (self.first.length() + self.second.length()).min(MOST)
    }

    fn read(&self, at: u64) -> Result<Cell<R>, Decline> {
        let whole = Store::<R>::length(self);
        let a = self.first.length();
        if at >= whole {
            return Err(Decline::NoSuchCell);
        }
        if at < a {
            self.first.read(at)
        } else {
            self.second.read(at - a)
        }
    }

    fn write(&mut self, at: u64, cell: &Cell<R::Numbers>) -> Result<(), Decline> {
        let whole = Store::<R>::length(self);
        let a = self.first.length();
        if at >= whole {
            let _ = asked_cell::<R>(cell)?;
            return Err(Decline::NoSuchCell);
        }
        if at < a {
            self.first.write(at, cell)
        } else {
            self.second.write(at - a, cell)
        }
    }
}
