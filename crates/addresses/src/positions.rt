// The choices of a key, and where a choice lies in a table of a given size.
ghost use Rattle.std.specs.Prelude.{◌≡◌, ◌^◌, ◌<◌};
ghost use Rattle.addresses.specs.Positions.{bucket_of, choice_of, position_of, subtable_of, width_of};
ghost use Rattle.addresses.specs.Sized.{buckets_in, place_in};

use crate::sizes::{Settings, Size};

// Choice i of a key with this hash word.
#[tactic(auto, using(crate::proofs::Computed::chosen))]
pub fn choice(word: u64, i: u32) -> u32
    ensures { result ≡ choice_of word i }
{
    let p = (word >> 32) as u32;
    let q = (word & 0xffff_ffff) as u32;
    p.wrapping_add(i.wrapping_mul(q))
}

impl Settings {
    // The subtable of a choice: its top t bits.
    #[tactic(auto, using(crate::proofs::Bounds::subtable_lt))]
    pub fn subtable(self, choice: u32) -> u32
        ensures number { result ≡ subtable_of self.t choice }
        ensures below { result < 2 ^ self.t }
    {
        choice.checked_shr(32 - self.t).unwrap_or(0)
    }
}

impl Size {
    // The bucket of a choice in its subtable g: its lowest bits.
    #[tactic(auto, using(crate::proofs::Computed::masked))]
    pub fn bucket(self, g: u32, choice: u32) -> u32
        ensures number { result ≡ bucket_of self.x self.j g choice }
        ensures below { result < 2 ^ width_of self.x self.j g }
    {
        let width = if g < self.j { self.x + 1 } else { self.x };
        choice & ((1 << width) - 1)
    }

    // Where bucket b of subtable g lies.
    fn at(self, g: u32, b: u32) -> u32
        requires subtable { g < 2 ^ self.settings.t }
        requires bucket { b < 2 ^ width_of self.x self.j g }
        ensures number { result ≡ position_of self.settings.t g b }
        ensures below { result < buckets_in self }
    {
        if b == 0 {
            return g;
        }
        let extent = 31 - b.leading_zeros();
        ((self.settings.subtables() + g - 1) << extent) + b
    }

    // The position of a choice.
    pub fn position(self, choice: u32) -> u32
        ensures number { result ≡ place_in self choice }
        ensures below { result < buckets_in self }
    {
        let g = self.settings.subtable(choice);
        self.at(g, self.bucket(g, choice))
    }
}
