// What the trailer of a module says, with a size that is lawful by what it is.
ghost use Rattle.std.specs.Prelude.{◌≡◌, ◌*◌, ◌/◌, MatchBool};
ghost use Rattle.addresses.specs.Sized.{buckets_in};
ghost use Rattle.trailers.specs.Layouts.{numbers_of};
ghost use Rattle.trailers.specs.Trailers.{Placed};

use addresses::families::FamilyKind;
use addresses::sizes::Size;
use records::kind::RecordKind;

// The numbers of the record kind and of the hash family, the table's size, the bytes from the first cell to the trailer, and the
// count of records.
// Kind and family are numbers, and no enums, since `fits` is to answer of any.
#[derive(Clone, Copy)]
pub struct Layout {
    pub kind: u8,
    pub family: u8,
    pub size: Size,
    pub distance: u32,
    pub count: u32,
}

impl Layout {
    // The cells that a table of this size uses.
    pub fn used(self) -> u32
        ensures { result ≡ buckets_in self.size * self.size.settings.cells }
    {
        self.size.used()
    }

    // The cells that the module has.
    pub fn cells(self) -> u32
        ensures { result ≡ self.distance / 32 }
    {
        self.distance / 32
    }

    // Whether a module of this length may have a trailer that says so.
    pub fn fits(self, length: usize) -> bool
        ensures { MatchBool result (Placed «length» (numbers_of self)) (Placed «length» (numbers_of self) → ⊥) }
    {
        (32..=2_147_483_648).contains(&length)
            && RecordKind::try_from(self.kind).is_ok()
            && FamilyKind::try_from(self.family).is_ok()
            && self.distance % 32 == 0
            && u64::from(self.distance) >= 32 * u64::from(self.used())
            && self.distance as usize <= length - 32
    }
}
