// Close: the numbers of a table are written into the trailer of its module.
ghost use Rattle.std.specs.Prelude.{◌≡◌, ◌-◌, ◌≤◌, ◌++◌, length, take};
ghost use Rattle.records.specs.Declines.{TakenIf};
ghost use Rattle.trailers.specs.Closing.{Closed, closing, trailer_of};
ghost use Rattle.trailers.specs.Layouts.{numbers_of};
ghost use Rattle.trailers.specs.Trailers.{Lawful};

use crate::layouts::Layout;
use addresses::sizes::Size;
use records::declines::Decline;

// The numbers of a table: its record kind and hash family, its size, its count of records, and the length of its store.
// Kind and family are numbers, and no enums, since `close` is to decline those that there are none of.
#[derive(Clone, Copy)]
pub struct TableNumbers {
    pub kind: u8,
    pub family: u8,
    pub size: Size,
    pub count: u32,
    pub cells: u64,
}

// The 32 bytes of a trailer.
fn trailer_bytes(layout: Layout) -> [u8; 32]
    ensures { result ≡ trailer_of (numbers_of layout) }
{
    let size = layout.size;
    let settings = size.settings;
    let mut bytes = [0; 32];
    bytes[0..4].copy_from_slice(&layout.distance.to_be_bytes());
    bytes[4] = layout.kind;
    bytes[5] = layout.family;
    bytes[6] = settings.t as u8;
    bytes[7] = settings.cells as u8;
    bytes[8] = settings.choices as u8;
    bytes[9] = settings.start as u8;
    bytes[10] = size.x as u8;
    bytes[11] = settings.load as u8;
    bytes[12..14].copy_from_slice(&(size.j as u16).to_be_bytes());
    bytes[14..18].copy_from_slice(&layout.count.to_be_bytes());
    bytes
}

// Writes the last 32 bytes of a module and no others.
fn write_trailer(bytes: &mut [u8], layout: Layout)
    requires { 32 ≤ length bytes.old }
    ensures { bytes.new ≡ take (length bytes.old - 32) bytes.old ++ trailer_of (numbers_of layout) }
{
    let code = trailer_bytes(layout);
    let base = bytes.len() - 32;
    bytes[base..base + 32].copy_from_slice(&code);
}

// Writes the trailer of a table over so many cells, unless it would break a rule.
pub fn close(bytes: &mut [u8], table: TableNumbers) -> Result<(), Decline>
    ensures answer { TakenIf (Lawful (length bytes.old) (closing table)) 14 (λ _. Unit {0}) result }
    ensures bytes { Closed bytes.old table result bytes.new }
{
    let Ok(distance) = u32::try_from(table.cells.saturating_mul(32)) else {
        return Err(Decline::BadTrailer);
    };
    let layout = Layout {
        kind: table.kind,
        family: table.family,
        size: table.size,
        distance,
        count: table.count,
    };
    if !layout.fits(bytes.len()) {
        return Err(Decline::BadTrailer);
    }
    write_trailer(bytes, layout);
    Ok(())
}
