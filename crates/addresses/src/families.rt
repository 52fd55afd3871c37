// The hash families: each a function from the two words of a key to a word, with a number.
ghost use Rattle.std.specs.Prelude.{◌≡◌, ℕ};
ghost use Rattle.records.specs.declared.numbers.Words.{Words};
ghost use Rattle.addresses.specs.Hashes.{Named, family_hash, family_number, fnv_words_lem};

use crate::hashes::fnv_words;
use records::declines::Decline;
use records::numbers::Words;

pub trait Family {
    // the word that two words give
    ghost hash_of: { Self → Words → ℕ };

    // the number by which a module names the family
    ghost number_of: { Self → ℕ };

    fn hash(&self, words: Words) -> u64
        ensures { result ≡ hash_of self.now words };

    fn number(&self) -> u8
        ensures { result ≡ number_of self.now };
}

// Family 1: FNV-1a over both words.
#[derive(Clone, Copy, Debug, PartialEq, Eq)]
pub struct Fnv;

// Family 2: the second word as it is.
#[derive(Clone, Copy, Debug, PartialEq, Eq)]
pub struct Straight;

// A family that is known by its number alone.
#[derive(Clone, Copy, Debug, PartialEq, Eq)]
pub enum FamilyKind {
    Fnv = 1,
    Straight = 2,
}

impl TryFrom<u8> for FamilyKind {
    type Error = Decline;

    ghost try_from_gives = { Named };

    fn try_from(number: u8) -> Result<Self, Decline> {
        match number {
            1 => Ok(FamilyKind::Fnv),
            2 => Ok(FamilyKind::Straight),
            _ => Err(Decline::BadTrailer),
        }
    }
}

impl Family for Fnv {
    ghost hash_of = { λ _ w. fnv_words_lem w };

    ghost number_of = { λ _. 1 };

    fn hash(&self, words: Words) -> u64 {
        fnv_words(words)
    }

    fn number(&self) -> u8 {
        FamilyKind::Fnv as u8
    }
}

impl Family for Straight {
    ghost hash_of = { λ _ w. w.second };

    ghost number_of = { λ _. 2 };

    fn hash(&self, words: Words) -> u64 {
        words.second
    }

    fn number(&self) -> u8 {
        FamilyKind::Straight as u8
    }
}

impl Family for FamilyKind {
    ghost hash_of = { family_hash };

    ghost number_of = { family_number };

    fn hash(&self, words: Words) -> u64 {
        match self {
            FamilyKind::Fnv => Fnv.hash(words),
            FamilyKind::Straight => Straight.hash(words),
        }
    }

    fn number(&self) -> u8 {
        *self as u8
    }
}
