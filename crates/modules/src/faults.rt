// What is wrong with a module, and at which cell.
ghost use Rattle.std.specs.Prelude.{◌≡◌, None, Some};
ghost use Rattle.records.specs.Declines.{number};
ghost use Rattle.modules.specs.Texts.{fault_text};

use records::declines::Decline;
use std::error::Error;
use std::fmt;

#[derive(Clone, Copy, Debug, PartialEq, Eq)]
pub struct Fault {
    pub decline: Decline,
    pub cell: Option<u32>,
}

// A decline that names no cell.
impl From<Decline> for Fault {
    ghost from_gives = { λ d f. (f.decline ≡ d) × (f.cell ≡ None) };

    fn from(decline: Decline) -> Fault {
        Fault {
            decline,
            cell: None,
        }
    }
}

// It is printed by the decline's number, and by the cell that it names.
impl fmt::Display for Fault {
    ghost output = { λ f. Some (fault_text f.cell (number f.decline)) };

    fn fmt<W: fmt::Write>(&self, f: &mut fmt::Formatter<W>) -> fmt::Result {
        match self.cell {
            Some(cell) => write!(f, "{} cell {cell}", self.decline),
            None => write!(f, "{}", self.decline),
        }
    }
}

impl Error for Fault {}
