// A new store for every table, and the table over it.
use crate::answers::{Desk, decline_lines};
use crate::lines::{Line, Making, StoreKind};
use crate::spaces::Spaces;
use octets::store::ByteStore;
use records::numbers::TagNumbers;
use records::records::TagRecord;
use std::alloc::Global;
use std::io;
use std::io::Write;
use stores::joined::Joined;
use stores::plain::Plain;
use stores::store::Store;
use stores::window::Window;
use table::make::make;
use table::table::Table;

// The tag in cell 0 of a new store; each cell's tag is one more than the one before.
const FIRST_TAG: u64 = 0xf000_0000_0000_0000;

// Cells of the store behind a window, before the window's first.
const BEFORE: u64 = 3;

// What a make asks for, the lines up to the next make, and where the answers go.
#[derive(Drop)]
pub struct Run<'a, W> {
    pub heap: Global,
    pub out: &'a mut W,
    pub asked: Making,
    pub lines: &'a [Line],
}

impl<W: Write> Run<'_, W> {
    // Makes a table, and answers the make and the lines after it.
    pub fn answer(&mut self) -> io::Result<()> {
        match self.asked.store {
            StoreKind::Plain => self.over_plain(),
            StoreKind::Bytes => self.over_bytes(),
            StoreKind::Joined => self.over_joined(),
            StoreKind::Window => self.over_window(),
        }
    }

    fn over_plain(&mut self) -> io::Result<()> {
        let mut cells = vec![in self.heap; None::<TagNumbers>; self.asked.cells as usize]?;
        self.over(&mut Plain { cells: &mut cells })
    }

    fn over_bytes(&mut self) -> io::Result<()> {
        let mut bytes = vec![in self.heap; 0u8; 32 * self.asked.cells as usize]?;
        self.over(&mut ByteStore { bytes: &mut bytes })
    }

    // Half of the cells are plain, the rest bytes.
    fn over_joined(&mut self) -> io::Result<()> {
        let half = self.asked.cells / 2;
        let mut cells = vec![in self.heap; None::<TagNumbers>; half as usize]?;
        let mut bytes = vec![in self.heap; 0u8; 32 * (self.asked.cells - half) as usize]?;
        self.over(&mut Joined {
            first: Plain { cells: &mut cells },
            second: ByteStore { bytes: &mut bytes },
        })
    }

    // The window lies within a plain store that has five cells more.
    fn over_window(&mut self) -> io::Result<()> {
        let len = u64::from(self.asked.cells);
        let mut cells = vec![in self.heap; None::<TagNumbers>; self.asked.cells as usize + 5]?;
        self.over(&mut Window {
            inner: Plain { cells: &mut cells },
            start: BEFORE,
            len,
        })
    }

    fn over<S: Store<TagRecord>>(&mut self, store: &mut S) -> io::Result<()> {
        fill(store, self.asked.cells);
        match make(self.asked.settings, store) {
            Ok(size) => {
                let buckets = size.buckets();
                writeln!(self.out, "m 0 {buckets}")?;
                let mut desk = Desk {
                    heap: self.heap,
                    out: &mut *self.out,
                    table: Table {
                        size,
                        count: 0,
                        family: &self.asked.family,
                        store,
                    },
                    spaces: Spaces::new(self.heap, buckets, buckets)?,
                };
                for line in self.lines {
                    desk.answer(*line)?;
                }
                Ok(())
            }
            Err(decline) => {
                writeln!(self.out, "m {decline}")?;
                decline_lines(self.out, self.lines)
            }
        }
    }
}

// Puts a record into each of so many cells that tells which cell it is.
fn fill<S: Store<TagRecord>>(store: &mut S, cells: u32) {
    for cell in 0..cells {
        let numbers = TagNumbers {
            tag: FIRST_TAG + u64::from(cell),
            grower: cell,
            grain: 1,
        };
        let _ = store.write(u64::from(cell), &Some(numbers));
    }
}
