// Open: a table of a given kind and family in a module, in one call, or in two: whether it opens, and its numbers and cells.
ghost use Rattle.std.specs.Prelude.{◌≡◌, Ok};
ghost use Rattle.modules.specs.Opens.{FirstOpens, Opens, OpensSound, SecondOpens, Smallest};

use crate::faults::Fault;
use crate::module::Module;
use crate::parts::Part;
use addresses::families::Family;
use addresses::sizes::{Settings, Size};
use octets::kinds::Coded;
use records::declines::Decline;
use records::kinds::Record;

// The numbers of an opened table, and the part of the module that has its cells.
#[derive(Clone, Copy)]
pub struct Opened {
    pub size: Size,
    pub count: u32,
    pub part: Part,
}

// The table that the trailer names, over the module's cells. Declines as check does, with 14 also where the module has another kind or
// family.
pub fn open<R: Coded, F: Family>(bytes: &[u8], family: &F) -> Result<Opened, Fault>
    ensures { Opens R.Coded.record_in R.Coded.kind (F.Family.number_of family.now) R.Record.key_of R.Record.words_of (F.Family.hash_of family.now) bytes.now result }
{
    let module = Module::read(bytes)?;
    let layout = module.layout;
    if layout.kind != R::kind() || layout.family != family.number() {
        return Err(Decline::BadTrailer.into());
    }
    module.check::<R, F>(family)?;
    let end = bytes.len() - 32;
    Ok(Opened {
        size: layout.size,
        count: layout.count,
        part: Part {
            start: end - layout.distance as usize,
            end,
        },
    })
}

// Whether a module opens.
pub fn openable<R: Coded, F: Family>(bytes: &[u8], family: &F) -> Result<(), Fault>
    ensures answer { FirstOpens R.Coded.record_in R.Coded.kind (F.Family.number_of family.now) R.Record.key_of R.Record.words_of (F.Family.hash_of family.now) bytes.now result }
    ensures sound { result ≡ Ok tt → OpensSound R.Coded.record_in R.Record.key_of R.Record.words_of (F.Family.hash_of family.now) bytes.now }
{
    let _ = open::<R, F>(bytes, family)?;
    Ok(())
}

// A table of the smallest settings over no cells.
fn nothing() -> Opened
    ensures { Smallest result }
{
    let settings = Settings {
        t: 0,
        cells: 1,
        choices: 2,
        start: 0,
        load: 0,
    };
    Opened {
        size: Size::first(settings),
        count: 0,
        part: Part { start: 0, end: 0 },
    }
}

// The table that the trailer names, over the module's cells, or one over no cells where the module does not open.
pub fn open_table<R: Coded, F: Family>(bytes: &[u8], family: &F) -> Opened
    ensures { SecondOpens R.Coded.record_in R.Coded.kind (F.Family.number_of family.now) R.Record.key_of R.Record.words_of (F.Family.hash_of family.now) bytes.now result }
{
    open::<R, F>(bytes, family).unwrap_or(nothing())
}
