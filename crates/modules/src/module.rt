// A module whose trailer is lawful: what it names, and its cells. Nothing is copied.
ghost use Rattle.std.specs.Prelude.{◌≡◌};
ghost use Rattle.records.specs.Declines.{TakenIf};
ghost use Rattle.trailers.specs.Trailers.{LawfulTrailer};
ghost use Rattle.modules.specs.Modules.{IsModule, cells_part_lem};

use addresses::families::FamilyKind;
use octets::store::ByteRow;
use records::declines::Decline;
use records::kind::RecordKind;
use trailers::layouts::Layout;
use trailers::windows::Trailer;

#[derive(Clone, Copy)]
pub struct Module<'a> {
    pub kind: RecordKind,
    pub family: FamilyKind,
    pub layout: Layout,
    pub cells: ByteRow<'a>,
}

impl<'a> Module<'a> {
    // The module that these bytes are, or 14 where a rule of the trailer fails.
    pub fn read(bytes: &'a [u8]) -> Result<Module<'a>, Decline>
        ensures { TakenIf (LawfulTrailer bytes.now) 14 (λ m. IsModule bytes.now m.kind m.family m.layout m.cells.bytes.now) result }
    {
        let layout = Trailer { bytes }.read()?;
        Ok(Module {
            kind: RecordKind::try_from(layout.kind)?,
            family: FamilyKind::try_from(layout.family)?,
            layout,
            cells: ByteRow {
                bytes: cells_part(bytes),
            },
        })
    }
}

// The bytes of a module's cells: so many as the distance says, directly before the trailer.
pub fn cells_part(bytes: &[u8]) -> &[u8]
    ensures { result.now ≡ cells_part_lem bytes.now }
{
    let length = bytes.len();
    let distance = Trailer { bytes }.distance() as usize;
    let start = length.saturating_sub(32).saturating_sub(distance);
    &bytes[start..start.saturating_add(distance).min(length)]
}
