// Record kinds: what every kind shows, and the two that there are.
ghost use Rattle.std.specs.Prelude.{◌≡◌, ◌⊎◌, Ok, Err, Result};
ghost use Rattle.std.proofs.Common.{ap};
ghost use Rattle.records.specs.declared.declines.Decline.{Decline};
ghost use Rattle.records.specs.declared.numbers.Words.{Words};
ghost use Rattle.records.specs.Declines.{number};
ghost use Rattle.records.specs.Kinds.{made_tag, made_tare, plate_words, tag_numbers, tag_words, tare_numbers, tag_if};
ghost use Rattle.records.specs.Made.{tag_again, same_plate, tare_again, tare_alone, tare_numbers_lem};
ghost use borrow.Author.Rules.{rules};

use crate::declines::Decline;
use crate::numbers::{TagNumbers, TareNumbers, Words};
use crate::plates::Plate;
use crate::records::{TagRecord, TareRecord};

// A kind of record: plain numbers, which may or may not make a record, the record's key, and the key's two words.
pub trait Record: Copy {
    type Numbers: Copy;

    type Key: Copy;

    // the record that plain numbers make, or why they make none
    ghost made: { Self.Numbers → Result Self Decline };

    // a record's own numbers
    ghost numbers_of: { Self → Self.Numbers };

    ghost key_of: { Self → Self.Key };

    // the words come from the key alone
    ghost words_of: { Self.Key → Words };

    fn from_numbers(numbers: Self::Numbers) -> Result<Self, Decline>
        ensures { result ≡ made numbers };

    fn to_numbers(self) -> Self::Numbers
        ensures { result ≡ numbers_of self };

    fn key(self) -> Self::Key
        ensures { result ≡ key_of self };

    fn words(key: Self::Key) -> Words
        ensures { result ≡ words_of key };

    // two keys with the same words are the same
    ghost apart: { (k l : Self.Key) → words_of k ≡ words_of l → k ≡ l };

    // a record's own numbers make it again
    ghost again: { (r : Self) → made (numbers_of r) ≡ Ok r };

    // and no other numbers do
    ghost alone: { (n : Self.Numbers) (r : Self) → made n ≡ Ok r → numbers_of r ≡ n };

    // numbers that make no record are declined with 3 or 4
    ghost declined: { (n : Self.Numbers) (d : Decline) → made n ≡ Err d → (number d ≡ 3) ⊎ (number d ≡ 4) };
}

impl Record for TagRecord {
    type Numbers = TagNumbers;

    type Key = u64;

    ghost made = { made_tag };

    ghost numbers_of = { tag_numbers };

    ghost key_of = { λ r. r.tag };

    ghost words_of = { tag_words };

    ghost apart = { λ k l e. ap (λ w. w.second) e };

    ghost again = { λ r. tag_again r };

    ghost alone = { unfold made_tag tag_if in λ n r. Prim.search rules };

    ghost declined = { unfold made_tag tag_if in λ n d. Prim.search rules };

    fn from_numbers(numbers: TagNumbers) -> Result<TagRecord, Decline> {
        TagRecord::new(numbers.tag, numbers.grower, numbers.grain)
    }

    fn to_numbers(self) -> TagNumbers {
        TagNumbers {
            tag: self.tag,
            grower: self.grower,
            grain: self.grain,
        }
    }

    fn key(self) -> u64 {
        self.tag
    }

    fn words(key: u64) -> Words {
        Words {
            first: 0,
            second: key,
        }
    }
}

impl Record for TareRecord {
    type Numbers = TareNumbers;

    type Key = Plate;

    ghost made = { made_tare };

    ghost numbers_of = { tare_numbers };

    ghost key_of = { λ r. r.plate };

    ghost words_of = { plate_words };

    ghost apart = { λ k l e. same_plate (ap (λ w. w.first) e) (ap (λ w. w.second) e) };

    ghost again = { λ r. tare_again r };

    ghost alone = { λ n r e. tare_alone n r e };

    ghost declined = { λ n d e. tare_numbers_lem n d e };

    fn from_numbers(numbers: TareNumbers) -> Result<TareRecord, Decline> {
        let plate = Plate::from_parts(numbers.first, numbers.second)?;
        TareRecord::new(plate, numbers.tare, numbers.day)
    }

    fn to_numbers(self) -> TareNumbers {
        TareNumbers {
            first: self.plate.first,
            second: self.plate.second,
            tare: self.tare,
            day: self.day,
        }
    }

    fn key(self) -> Plate {
        self.plate
    }

    fn words(key: Plate) -> Words {
        Words {
            first: key.first,
            second: u64::from(key.second),
        }
    }
}
