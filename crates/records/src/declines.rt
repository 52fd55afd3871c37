// Why a call declines. Each case has its number, from 1 to 19.
ghost use Rattle.std.specs.Prelude.{◌≡◌, Some};
ghost use Rattle.std.specs.Fmt.{decimal};
ghost use Rattle.records.specs.Declines.{number};

use std::error::Error;
use std::fmt;

#[derive(Clone, Copy, Debug, PartialEq, Eq, Hash)]
pub enum Decline {
    // a setting is outside its range
    BadSetting = 1,
    // the store has fewer cells than a new table uses
    StoreTooSmall = 2,
    // the bytes or words are no plate
    NoPlate = 3,
    // a tare or a grain code is outside its range
    OutOfRange = 4,
    // a working space is too short
    ShortSpace = 5,
    // the key is stored already
    KeyStored = 6,
    // the key is not stored
    KeyAbsent = 7,
    // no assignment holds all keys
    Full = 8,
    // a grow would lead past the most buckets
    TooManyBuckets = 9,
    // a grow lacks the cells to add
    NoCellsToAdd = 10,
    // a grow would leave too low a load
    LoadTooLow = 11,
    // a shrink at the starting size
    AtFloor = 12,
    // the cell number is not below the store's length
    NoSuchCell = 13,
    // a rule of the trailer fails
    BadTrailer = 14,
    // a used cell's bytes are unlawful
    BadCell = 15,
    // a record lies outside its own buckets
    Misplaced = 16,
    // a key stands in an earlier cell too
    Repeated = 17,
    // the count of records is wrong
    WrongCount = 18,
    // a program cannot read the line
    UnreadableLine = 19,
}

impl Decline {
    // The number by which a decline is known.
    pub fn number(self) -> u8
        ensures { result ≡ number self }
    {
        self as u8
    }
}

// It is printed by its number.
impl fmt::Display for Decline {
    ghost output = { λ d. Some (decimal (number d)) };

    fn fmt<W: fmt::Write>(&self, f: &mut fmt::Formatter<W>) -> fmt::Result {
        write!(f, "{}", self.number())
    }
}

impl Error for Decline {}
