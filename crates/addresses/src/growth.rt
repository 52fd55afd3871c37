// The sizes one grow on and one grow back.
ghost use Rattle.std.specs.Prelude.{◌≡◌, ◌+◌, ◌^◌, ◌≤◌};
ghost use Rattle.records.specs.Declines.{TakenIf};
ghost use Rattle.addresses.specs.Sized.{Grown, buckets_in};

use crate::sizes::Size;
use records::declines::Decline;

impl Size {
    // The next size, unless it has too many buckets.
    pub fn grown(self) -> Result<Size, Decline>
        ensures { TakenIf (buckets_in self + 2 ^ self.x ≤ 16384) 9 (λ s. Grown self s) result }
    {
        let (x, j) = if self.j + 1 == self.settings.subtables() {
            (self.x + 1, 0)
        } else {
            (self.x, self.j + 1)
        };
        Size::new(self.settings, x, j).ok_or(Decline::TooManyBuckets)
    }

    // The size one grow back, unless this is the starting size.
    pub fn shrunk(self) -> Result<Size, Decline>
        ensures { TakenIf ((self.x ≡ self.settings.start) × (self.j ≡ 0) → ⊥) 12 (λ s. Grown s self) result }
    {
        let settings = self.settings;
        if self.j > 0 {
            Ok(Size {
                settings,
                x: self.x,
                j: self.j - 1,
            })
        } else if self.x > settings.start {
            Ok(Size {
                settings,
                x: self.x - 1,
                j: settings.subtables() - 1,
            })
        } else {
            Err(Decline::AtFloor)
        }
    }
}
