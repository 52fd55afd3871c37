// Looking at one bucket: for a key, for room, for where its records lead. These serve the search and the table, and want a lawful
// placement and a bucket of it.
ghost use Rattle.std.specs.Prelude.{option_map, ◌≡◌, ℕ, ◌+◌, ◌*◌, ◌<◌, length, if◌then◌else◌, nat_eq, slice_index_or, None};
ghost use Rattle.rules.specs.Placements.{Lawful, word};
ghost use Rattle.placing.specs.Held.{led, led_by};
ghost use Rattle.placing.specs.Looks.{Looked, Roomy};

use crate::placing::Placing;
use records::kinds::Record;
use records::numbers::Words;

// How many cells of a bucket are empty, and the lowest of them. No Option for none: the counts of buckets are compared.
#[derive(Clone, Copy)]
pub struct Gap {
    pub count: u32,
    pub cell: u32,
}

impl Gap {
    // With one more empty cell, above the others.
    fn with(self, cell: u32) -> Gap
        requires { self.count < 8 }
        ensures count { result.count ≡ self.count + 1 }
        ensures cell { result.cell ≡ (if nat_eq self.count 0 then cell else self.cell) }
    {
        Gap {
            count: self.count + 1,
            cell: if self.count == 0 { cell } else { self.cell },
        }
    }
}

// The room in a bucket; nothing where the key with these words lies in it.
pub fn look<R: Record, P: Placing<R>>(p: &P, bucket: u32, words: &Words) -> Option<Gap>
    requires lawful { Lawful (P.Placing.placement p.now) }
    requires inside { bucket < (P.Placing.placement p.now).size }
    ensures { Looked (P.Placing.placement p.now) bucket words.now result }
{
    let slots = p.slots();
    let mut gap = Gap { count: 0, cell: 0 };
    for slot in 0..slots {
        let cell = bucket * slots + slot;
        match p.words_at(cell) {
            Some(found) if found == *words => return None,
            Some(_) => {}
            None => gap = gap.with(cell),
        }
    }
    Some(gap)
}

// The lowest empty cell of a bucket, if it has one.
pub fn room<R: Record, P: Placing<R>>(p: &P, bucket: u32) -> Option<u32>
    requires lawful { Lawful (P.Placing.placement p.now) }
    requires inside { bucket < (P.Placing.placement p.now).size }
    ensures { Roomy (P.Placing.placement p.now) bucket result }
{
    let slots = p.slots();
    // no chain, since its closure would have to be told that each cell is there
    for slot in 0..slots {
        let cell = bucket * slots + slot;
        if p.words_at(cell).is_none() {
            return Some(cell);
        }
    }
    None
}

// The hash word of the record in a cell, if one lies there.
pub fn word_at<R: Record, P: Placing<R>>(p: &P, cell: u32) -> Option<u64>
    requires { cell < length (P.Placing.placement p.now).held }
    ensures { result ≡ option_map (word (P.Placing.placement p.now)) (slice_index_or (P.Placing.placement p.now).held cell None) }
{
    p.words_at(cell).map(|words| p.hash(words))
}

// Where a choice of a hash word leads; to the bucket itself where there is none.
pub fn leads<R: Record, P: Placing<R>>(p: &P, bucket: u32, found: Option<u64>, choice: u32) -> u32
    ensures { result ≡ led_by (λ v. (P.Placing.placement p.now).lies v choice) bucket found }
{
    found.map_or(bucket, |word| p.bucket(word, choice))
}
