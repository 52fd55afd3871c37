// A survey of a key's own buckets: whether the key is there, and which has most room. It serves whoever places records, and wants a
// lawful placement and the hash word of the key.
ghost use Rattle.std.specs.Prelude.{◌≡◌};
ghost use Rattle.rules.specs.Placements.{Lawful};
ghost use Rattle.settle.specs.Surveys.{Surveyed};

use placing::looks::{Gap, look};
use placing::placing::Placing;
use records::kinds::Record;
use records::numbers::Words;

// The room in the own bucket with most empty cells, the earliest choice on a tie; nothing where the key lies in an own bucket. Each
// cell of these buckets is read once.
pub fn survey<R: Record, P: Placing<R>>(p: &P, word: u64, words: &Words) -> Option<Gap>
    requires lawful { Lawful (P.Placing.placement p.now) }
    requires hashed { word ≡ (P.Placing.placement p.now).hash words.now }
    ensures { Surveyed (P.Placing.placement p.now) words.now result }
{
    let mut best = Gap { count: 0, cell: 0 };
    for choice in 0..p.choices() {
        let gap = look(p, p.bucket(word, choice), words)?;
        if gap.count > best.count {
            best = gap;
        }
    }
    Some(best)
}
