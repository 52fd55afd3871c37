// The lines that are read, and what each asks for.
ghost use Rattle.std.specs.Prelude.{◌≤◌};

use addresses::families::FamilyKind;
use addresses::sizes::SettingNumbers;
use records::declines::Decline;
use std::alloc::{AllocError, Global};
use std::str::FromStr;

// The most cells of a store, and numbers of a working space.
const LONGEST: u32 = 200_000;

#[derive(Clone, Copy)]
pub enum Line {
    Make(Making),
    Spaces(u32, u32),
    Insert(Tagged),
    Find(u64),
    Erase(u64),
    Count,
    Cells,
    Unreadable,
}

// What a new table is made with.
#[derive(Clone, Copy)]
pub struct Making {
    pub store: StoreKind,
    pub cells: u32,
    pub settings: SettingNumbers,
    pub family: FamilyKind,
}

#[derive(Clone, Copy)]
pub enum StoreKind {
    Plain,
    Bytes,
    Joined,
    Window,
}

// The numbers of a tag record; the grain may be outside its range.
#[derive(Clone, Copy)]
pub struct Tagged {
    pub tag: u64,
    pub grower: u32,
    pub grain: u32,
}

impl Line {
    // What a line asks for.
    pub fn read(heap: Global, line: &[u8]) -> Result<Line, AllocError> {
        let Ok(text) = std::str::from_utf8(line) else {
            return Ok(Line::Unreadable);
        };
        let fields: Vec<&str> = text.split(' ').collect(heap)?;
        Ok(line_of(&fields).unwrap_or(Line::Unreadable))
    }
}

fn line_of(fields: &[&str]) -> Option<Line> {
    match fields {
        ["m", asked @ ..] => Some(Line::Make(making_of(asked)?)),
        ["u", first, second] => Some(Line::Spaces(length(first)?, length(second)?)),
        ["i", tag, grower, grain] => Some(Line::Insert(Tagged {
            tag: tag_of(tag)?,
            grower: number(grower)?,
            grain: number(grain)?,
        })),
        ["f", tag] => Some(Line::Find(tag_of(tag)?)),
        ["e", tag] => Some(Line::Erase(tag_of(tag)?)),
        ["n"] => Some(Line::Count),
        ["c"] => Some(Line::Cells),
        _ => None,
    }
}

// The store, its cells, t, B, H, x0, d and the family.
fn making_of(fields: &[&str]) -> Option<Making> {
    let [store, cells, t, bucket, choices, start, load, family] = fields else {
        return None;
    };
    Some(Making {
        store: store.parse().ok()?,
        cells: length(cells)?,
        settings: SettingNumbers {
            t: number(t)?,
            cells: number(bucket)?,
            choices: number(choices)?,
            start: number(start)?,
            load: number(load)?,
        },
        family: family_kind(family)?,
    })
}

impl FromStr for StoreKind {
    type Err = Decline;

    fn from_str(letter: &str) -> Result<StoreKind, Decline> {
        match letter {
            "p" => Ok(StoreKind::Plain),
            "b" => Ok(StoreKind::Bytes),
            "j" => Ok(StoreKind::Joined),
            "w" => Ok(StoreKind::Window),
            _ => Err(Decline::UnreadableLine),
        }
    }
}

fn family_kind(text: &str) -> Option<FamilyKind> {
    let number = u8::try_from(number(text)?).ok()?;
    FamilyKind::try_from(number).ok()
}

// A number of cells, or of a working space's numbers.
fn length(text: &str) -> Option<u32> {
    number(text).filter(|length| *length <= LONGEST)
}

// 1 to 10 decimal digits of a 32-bit number.
fn number(text: &str) -> Option<u32> {
    u32::try_from(digits(text, 10, 10)?).ok()
}

// 1 to 16 hexadecimal digits.
fn tag_of(text: &str) -> Option<u64> {
    digits(text, 16, 16)
}

// The number that some digits to a base give, if there are no more than so many.
fn digits(text: &str, base: u32, most: usize) -> Option<u64>
    requires { (2 ≤ base) × (base ≤ 36) }
{
    if text.len() > most || !text.chars().all(|digit| digit.is_digit(base)) {
        return None;
    }
    u64::from_str_radix(text, base).ok()
}
