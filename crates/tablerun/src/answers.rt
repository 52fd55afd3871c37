// The answers to the lines of one table.
use crate::lines::{Line, Tagged};
use crate::spaces::Spaces;
use addresses::families::FamilyKind;
use records::declines::Decline;
use records::records::TagRecord;
use std::alloc::Global;
use std::io;
use std::io::Write;
use stores::store::Store;
use table::table::Table;

// Answers lines that cannot be read, or that ask for a table where there is none.
pub fn decline_lines<W: Write>(out: &mut W, lines: &[Line]) -> io::Result<()> {
    for _ in lines {
        decline_line(out)?;
    }
    Ok(())
}

fn decline_line<W: Write>(out: &mut W) -> io::Result<()> {
    writeln!(out, "? {}", Decline::UnreadableLine)
}

// A table, its working spaces, and where the answers go.
#[derive(Drop)]
pub struct Desk<'a, W, S> {
    pub heap: Global,
    pub out: &'a mut W,
    pub table: Table<'a, FamilyKind, S>,
    pub spaces: Spaces,
}

impl<W: Write, S: Store<TagRecord>> Desk<'_, W, S> {
    pub fn answer(&mut self, line: Line) -> io::Result<()> {
        match line {
            Line::Spaces(queue, came) => {
                self.spaces = Spaces::new(self.heap, queue, came)?;
                writeln!(self.out, "u 0")
            }
            Line::Insert(numbers) => self.insert(numbers),
            Line::Find(tag) => match self.table.find::<TagRecord>(tag) {
                Some(found) => writeln!(self.out, "f 0 {} {}", found.grower, found.grain),
                None => writeln!(self.out, "f -"),
            },
            Line::Erase(tag) => match self.table.erase::<TagRecord>(tag) {
                Ok(erased) => writeln!(self.out, "e 0 {} {}", erased.grower, erased.grain),
                Err(decline) => writeln!(self.out, "e {decline}"),
            },
            Line::Count => writeln!(self.out, "n {}", self.table.count),
            Line::Cells => self.cells(),
            Line::Make(_) | Line::Unreadable => decline_line(self.out),
        }
    }

    // Says so, too, where the working spaces are not left as they must be.
    fn insert(&mut self, numbers: Tagged) -> io::Result<()> {
        // a grain code that fits no byte is outside its range, as 0 is
        let grain = u8::try_from(numbers.grain).unwrap_or(0);
        let added = match TagRecord::new(numbers.tag, numbers.grower, grain) {
            Ok(record) => record,
            Err(decline) => return writeln!(self.out, "i {decline}"),
        };
        self.spaces.fill();
        let inserted = self
            .table
            .insert(added, &mut self.spaces.queue, &mut self.spaces.came);
        let lawful = match inserted {
            Err(Decline::ShortSpace) => self.spaces.are_filled(),
            _ => self.spaces.are_zero(),
        };
        if !lawful {
            return writeln!(self.out, "i ! spaces");
        }
        match inserted {
            Ok(moves) => writeln!(self.out, "i 0 {moves}"),
            Err(decline) => writeln!(self.out, "i {decline}"),
        }
    }

    // Every cell of the store, used or not.
    fn cells(&mut self) -> io::Result<()> {
        write!(self.out, "c")?;
        for cell in 0..self.table.store.length() {
            match self.table.store.read(cell) {
                Ok(Some(held)) => {
                    write!(self.out, " {:x}:{}:{}", held.tag, held.grower, held.grain)?
                }
                // no cell below the length is declined
                Ok(None) | Err(_) => write!(self.out, " -")?,
            }
        }
        writeln!(self.out, "")
    }
}
