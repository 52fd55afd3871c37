// What placing a record asks of the cells that records lie in: a table's own, or a plan of them.
ghost use Rattle.std.specs.Prelude.{option_map, ◌≡◌, ℕ, ◌<◌, length, ◌≢◌, slice_index_or, slice_set, None, Option};
ghost use Rattle.stores.specs.Makings.{Place, Raw};
ghost use Rattle.rules.specs.Placements.{Placement};
ghost use Rattle.placing.specs.Held.{with_held};

use records::kinds::Record;
use records::numbers::Words;

pub trait Placing<R: Record> {
    // the buckets, what lies in them, and where choices lead
    ghost placement: { Self → Placement R };

    // what no call changes
    ghost place: { Self → Place R };

    // what cell k is made of
    ghost raw: { Self → ℕ → Raw R.Numbers };

    // what a write makes cell k of
    ghost code: { Self → ℕ → Option R → Raw R.Numbers };

    // How many buckets there are.
    fn buckets(&self) -> u32
        ensures { result ≡ (placement self.now).size };

    // How many cells a bucket has.
    fn slots(&self) -> u32
        ensures { result ≡ (placement self.now).cells };

    // How many choices a key has.
    fn choices(&self) -> u32
        ensures { result ≡ (placement self.now).choices };

    // The key words of the record in a cell, if one lies there.
    fn words_at(&self, cell: u32) -> Option<Words>
        requires { cell < length (placement self.now).held }
        ensures { result ≡ option_map (placement self.now).words (slice_index_or (placement self.now).held cell None) };

    // The hash word of a key.
    fn hash(&self, words: Words) -> u64
        ensures { result ≡ (placement self.now).hash words };

    // The bucket of a choice.
    fn bucket(&self, word: u64, choice: u32) -> u32
        ensures { result ≡ (placement self.now).lies word choice };

    // Copies what lies in one cell to another.
    fn copy(&mut self, from: u32, to: u32)
        requires from { from < length (placement self.old).held }
        requires to { to < length (placement self.old).held }
        ensures cells { placement self.new ≡ with_held (placement self.old) (slice_set (placement self.old).held to (slice_index_or (placement self.old).held from None)) }
        ensures place { place self.new ≡ place self.old }
        ensures others { (k : ℕ) → (k ≢ to) → raw self.new k ≡ raw self.old k }
        ensures made { raw self.new to ≡ code self.old to (slice_index_or (placement self.old).held from None) }
        ensures codes { code self.new ≡ code self.old };
}
