// Plain numbers: the two words of a key, and what may or may not make a record.

// A key as two words.
#[derive(Clone, Copy, Debug, PartialEq, Eq, Hash)]
pub struct Words {
    pub first: u64,
    pub second: u64,
}

// What may make a tag record.
#[derive(Clone, Copy, Debug, PartialEq, Eq)]
pub struct TagNumbers {
    pub tag: u64,
    pub grower: u32,
    pub grain: u8,
}

// What may make a tare record: the first eight bytes of a padded plate and its last four, big-endian, the tare in kg and the day.
#[derive(Clone, Copy, Debug, PartialEq, Eq)]
pub struct TareNumbers {
    pub first: u64,
    pub second: u32,
    pub tare: u32,
    pub day: u16,
}
