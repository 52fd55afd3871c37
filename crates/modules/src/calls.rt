// Check, and find in a module.
ghost use Rattle.std.specs.Prelude.{◌≡◌, Ok};
ghost use Rattle.addresses.specs.Hashes.{family_hash};
ghost use Rattle.octets.specs.Codec.{byte_row};
ghost use Rattle.rules.specs.Tables.{used_in};
ghost use Rattle.lookup.specs.Finds.{Found, FoundCell, FoundRecord};
ghost use Rattle.modules.specs.Modules.{FindsCell, FindsRecord, ModuleChecks, ModuleIsSound};

use crate::faults::Fault;
use crate::module::Module;
use lookup::finds::find_below;
use lookup::hit::Hit;
use octets::kinds::Coded;
use records::declines::Decline;
use records::kind::RecordKind;
use records::kinds::Record;
use records::numbers::Words;
use records::records::{TagRecord, TareRecord};

impl Module<'_> {
    // The first used cell whose record has these words, by the family that the trailer names.
    fn first<R: Coded>(&self, words: Words) -> Option<Hit<R>>
        ensures { Found (λ y. R.Record.words_of (R.Record.key_of y)) (byte_row R.Coded.record_in self.now.cells.bytes.now) (family_hash self.now.family) self.now.layout.size words (used_in self.now.layout.size) result }
    {
        find_below(
            &self.cells,
            self.layout.size,
            &self.family,
            words,
            self.layout.used(),
        )
    }

    // The same, of which only the cell is wanted.
    fn first_cell<R: Coded>(&self, words: Words) -> Option<u32>
        ensures { FoundCell (λ y. R.Record.words_of (R.Record.key_of y)) (byte_row R.Coded.record_in self.now.cells.bytes.now) (family_hash self.now.family) self.now.layout.size words (used_in self.now.layout.size) result }
    {
        Some(self.first::<R>(words)?.cell)
    }

    // The same, of which only the record is wanted.
    fn first_record<R: Coded>(&self, words: Words) -> Option<R>
        ensures { FoundRecord (λ y. R.Record.words_of (R.Record.key_of y)) (byte_row R.Coded.record_in self.now.cells.bytes.now) (family_hash self.now.family) self.now.layout.size words (used_in self.now.layout.size) result }
    {
        Some(self.first::<R>(words)?.held)
    }
}

// Whether a module holds a sound table, or what is wrong with it first.
pub fn check(bytes: &[u8]) -> Result<(), Fault>
    ensures answer { ModuleChecks bytes.now result }
    ensures sound { result ≡ Ok tt → ModuleIsSound bytes.now }
{
    let module = Module::read(bytes)?;
    match module.kind {
        RecordKind::Tare => module.check::<TareRecord, _>(&module.family),
        RecordKind::Tag => module.check::<TagRecord, _>(&module.family),
    }
}

// The first used cell of a module whose record has these key words, by choice and then by cell.
pub fn find_cell(bytes: &[u8], words: Words) -> Result<Option<u32>, Decline>
    ensures { FindsCell bytes.now words result }
{
    let module = Module::read(bytes)?;
    Ok(match module.kind {
        RecordKind::Tare => module.first_cell::<TareRecord>(words),
        RecordKind::Tag => module.first_cell::<TagRecord>(words),
    })
}

// The record of a kind with this key in a module, the first by choice and then by cell.
pub fn find<R: Coded>(bytes: &[u8], key: R::Key) -> Result<Option<R>, Decline>
    ensures { FindsRecord R.Coded.record_in (λ y. R.Record.words_of (R.Record.key_of y)) bytes.now (R.Record.words_of key) result }
{
    Ok(Module::read(bytes)?.first_record(R::words(key)))
}
