// The trailer as a window on the module's last 32 bytes: nothing is copied.
ghost use Rattle.std.specs.Prelude.{◌≡◌, ◌+◌, ◌<◌, MatchOption, slice_index};
ghost use Rattle.records.specs.Declines.{TakenIf};
ghost use Rattle.trailers.specs.Layouts.{numbers_of, Sized};
ghost use Rattle.trailers.specs.Trailers.{LawfulSize, LawfulTrailer, numbers_in, off};

use crate::layouts::Layout;
use addresses::sizes::{SettingNumbers, Settings, Size};
use records::bytes::{all_are, byte_at, u16_at, u32_at};
use records::declines::Decline;

#[derive(Clone, Copy)]
pub struct Trailer<'a> {
    pub bytes: &'a [u8],
}

impl<'a> Trailer<'a> {
    // Where the trailer begins: 32 bytes before the module's end, or at 0 in a shorter one.
    fn base(&self) -> usize
        ensures { result ≡ off self.now.bytes.now }
    {
        self.bytes.len().saturating_sub(32)
    }

    // The byte at a place of the trailer. The fields of one byte stay methods of their own, since their names are the format.
    fn byte(&self, at: usize) -> u8
        requires { at < 32 }
        ensures { result ≡ slice_index self.now.bytes.now (off self.now.bytes.now + at) }
    {
        byte_at(self.bytes, self.base() + at)
    }

    // The bytes from the first cell to the trailer.
    pub fn distance(&self) -> u32
        ensures { result ≡ (numbers_in self.now.bytes.now).distance }
    {
        u32_at(self.bytes, self.base())
    }

    pub fn kind(&self) -> u8
        ensures { result ≡ (numbers_in self.now.bytes.now).kind }
    {
        self.byte(4)
    }

    pub fn family(&self) -> u8
        ensures { result ≡ (numbers_in self.now.bytes.now).family }
    {
        self.byte(5)
    }

    pub fn t(&self) -> u8
        ensures { result ≡ (numbers_in self.now.bytes.now).t }
    {
        self.byte(6)
    }

    // The cells of a bucket.
    pub fn cells(&self) -> u8
        ensures { result ≡ (numbers_in self.now.bytes.now).cells }
    {
        self.byte(7)
    }

    // The choices of a key.
    pub fn choices(&self) -> u8
        ensures { result ≡ (numbers_in self.now.bytes.now).choices }
    {
        self.byte(8)
    }

    // The x of the starting size.
    pub fn start(&self) -> u8
        ensures { result ≡ (numbers_in self.now.bytes.now).start }
    {
        self.byte(9)
    }

    pub fn x(&self) -> u8
        ensures { result ≡ (numbers_in self.now.bytes.now).x }
    {
        self.byte(10)
    }

    // The least load after a grow, in per cent.
    pub fn load(&self) -> u8
        ensures { result ≡ (numbers_in self.now.bytes.now).load }
    {
        self.byte(11)
    }

    pub fn j(&self) -> u16
        ensures { result ≡ (numbers_in self.now.bytes.now).j }
    {
        u16_at(self.bytes, self.base() + 12)
    }

    // The count of records.
    pub fn count(&self) -> u32
        ensures { result ≡ (numbers_in self.now.bytes.now).count }
    {
        u32_at(self.bytes, self.base() + 14)
    }

    // The size, if settings and size are lawful.
    fn size(&self) -> Option<Size>
        ensures { MatchOption result (LawfulSize (numbers_in self.now.bytes.now) → ⊥) (λ z. Sized z (numbers_in self.now.bytes.now)) }
    {
        let settings = Settings::new(SettingNumbers {
            t: u32::from(self.t()),
            cells: u32::from(self.cells()),
            choices: u32::from(self.choices()),
            start: u32::from(self.start()),
            load: u32::from(self.load()),
        })
        .ok()?;
        Size::new(settings, u32::from(self.x()), u32::from(self.j()))
    }

    // What the trailer says, if it keeps every rule.
    pub fn read(&self) -> Result<Layout, Decline>
        ensures { TakenIf (LawfulTrailer self.now.bytes.now) 14 (λ l. numbers_of l ≡ numbers_in self.now.bytes.now) result }
    {
        let layout = Layout {
            kind: self.kind(),
            family: self.family(),
            size: self.size().ok_or(Decline::BadTrailer)?,
            distance: self.distance(),
            count: self.count(),
        };
        if layout.fits(self.bytes.len()) && all_are(self.bytes, self.base() + 18, 0) {
            Ok(layout)
        } else {
            Err(Decline::BadTrailer)
        }
    }
}
