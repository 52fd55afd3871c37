// The kind of a record by its number, as cells and modules name it.
ghost use Rattle.std.specs.Prelude.{◌≡◌};
ghost use Rattle.records.specs.Kinds.{Named, kind_number};

use crate::declines::Decline;

#[derive(Clone, Copy, Debug, PartialEq, Eq)]
pub enum RecordKind {
    // a truck's tare, by its plate
    Tare = 1,
    // a grower, by the tag
    Tag = 2,
}

impl RecordKind {
    // The number by which a module names the kind.
    pub fn number(self) -> u8
        ensures { result ≡ kind_number self }
    {
        self as u8
    }
}

impl TryFrom<u8> for RecordKind {
    type Error = Decline;

    ghost try_from_gives = { Named };

    fn try_from(number: u8) -> Result<Self, Decline> {
        match number {
            1 => Ok(RecordKind::Tare),
            2 => Ok(RecordKind::Tag),
            _ => Err(Decline::BadTrailer),
        }
    }
}
