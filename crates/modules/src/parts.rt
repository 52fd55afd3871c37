// Parts of a module: which of its bytes are its cells, and a write to one of them.
ghost use Rattle.std.specs.Prelude.{◌≡◌, ◌-◌, ◌≤◌, ◌++◌, length, take, drop};
ghost use Rattle.stores.specs.Cells.{asked, numbered, write_of};
ghost use Rattle.octets.specs.Codec.{byte_row, bytes_after};
ghost use Rattle.modules.specs.Parts.{NewPart, part_of};

use octets::kinds::Coded;
use octets::store::bytes_write;
use records::declines::Decline;
use records::kinds::Record;
use stores::cells::Cell;
use stores::store::asked_cell;

// The bytes from `start` up to `end`. It is no `Range`, which is not `Copy`.
#[derive(Clone, Copy)]
pub struct Part {
    pub start: usize,
    pub end: usize,
}

// The cells of a new module of this length: all the whole 32s directly before its trailer, none in a module that is too short or too
// long.
pub fn new_part(length: usize) -> Part
    ensures { NewPart «length» result }
{
    if !(32..=2_147_483_648).contains(&length) {
        return Part { start: 0, end: 0 };
    }
    let end = length - 32;
    Part {
        start: end % 32,
        end,
    }
}

// Writes a cell of a module through the byte store over a part of it: no byte outside the part changes. A part that does not lie in
// the module has no cells.
pub fn write_cell<R: Coded>(
    bytes: &mut [u8],
    part: Part,
    at: u64,
    cell: &Cell<R::Numbers>,
) -> Result<(), Decline>
    ensures answer { numbered result ≡ write_of (asked R.Record.made cell.now) (byte_row R.Coded.record_in (part_of bytes.old part)) at }
    ensures inside { part.start ≤ part.end → part.end ≤ length bytes.old → bytes.new ≡ take part.start bytes.old ++ (bytes_after R.Coded.bytes_of (asked R.Record.made cell.now) (part_of bytes.old part) at ++ drop part.end bytes.old) }
    ensures outside { ((part.start ≤ part.end) × (part.end ≤ length bytes.old) → ⊥) → bytes.new ≡ bytes.old }
{
    let Part { start, end } = part;
    if start > end || end > bytes.len() {
        let _ = asked_cell::<R>(cell)?;
        return Err(Decline::NoSuchCell);
    }
    bytes_write::<R>(&mut bytes[start..end], at, cell)
}
