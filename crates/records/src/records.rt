// Records, lawful by what they are.
ghost use Rattle.std.specs.Prelude.{◌≡◌, ◌≤◌};
ghost use Rattle.records.specs.Declines.{TakenIf};

use crate::declines::Decline;
use crate::plates::Plate;

// A tag with its grower's number and the code of a grain, 1 to 9.
#[derive(Clone, Copy, Debug, PartialEq, Eq)]
pub struct TagRecord {
    pub tag: u64,
    pub grower: u32,
    pub grain: u8,
    ghost low: { 1 ≤ grain },
    ghost high: { grain ≤ 9 },
}

impl TagRecord {
    pub fn new(tag: u64, grower: u32, grain: u8) -> Result<TagRecord, Decline>
        ensures { TakenIf ((1 ≤ grain) × (grain ≤ 9)) 4 (λ x. (x.tag ≡ tag) × (x.grower ≡ grower) × (x.grain ≡ grain)) result }
    {
        if (1..=9).contains(&grain) {
            Ok(TagRecord { tag, grower, grain })
        } else {
            Err(Decline::OutOfRange)
        }
    }
}

// A plate with the truck's tare, 1 to 100,000 kg, and the day of its weighing, counted from 1 January 2000.
#[derive(Clone, Copy, Debug, PartialEq, Eq)]
pub struct TareRecord {
    pub plate: Plate,
    pub tare: u32,
    pub day: u16,
    ghost low: { 1 ≤ tare },
    ghost high: { tare ≤ 100000 },
}

impl TareRecord {
    pub fn new(plate: Plate, tare: u32, day: u16) -> Result<TareRecord, Decline>
        ensures { TakenIf ((1 ≤ tare) × (tare ≤ 100000)) 4 (λ x. (x.plate ≡ plate) × (x.tare ≡ tare) × (x.day ≡ day)) result }
    {
        if (1..=100_000).contains(&tare) {
            Ok(TareRecord { plate, tare, day })
        } else {
            Err(Decline::OutOfRange)
        }
    }
}
