// Looking for a key among the cells of a store or of a module.
ghost use Rattle.std.specs.Prelude.{◌≡◌, MatchOption};
ghost use Rattle.lookup.specs.Finds.{FirstIn, Found, Match, Meets, NoneIn};

use crate::hit::Hit;
use addresses::families::Family;
use addresses::positions::choice;
use addresses::sizes::Size;
use records::kinds::Record;
use records::numbers::Words;
use stores::row::Row;

// The record in a cell, if its key has these words.
fn held_with<R: Record, C: Row<R>>(cells: &C, at: u32, words: Words) -> Option<R>
    ensures { MatchOption result ((x : R) → Meets (λ y. R.Record.words_of (R.Record.key_of y)) (C.Row.cells cells.now) words at x → ⊥) (λ x. Meets (λ y. R.Record.words_of (R.Record.key_of y)) (C.Row.cells cells.now) words at x) }
{
    let held = cells.cell(at)?;
    if R::words(held.key()) == words {
        Some(held)
    } else {
        None
    }
}

// The first cell of a stretch, and below a limit, whose record has these words.
fn find_within<R: Record, C: Row<R>>(
    cells: &C,
    from: u32,
    end: u32,
    words: Words,
    limit: u32,
) -> Option<Hit<R>>
    ensures { MatchOption result (NoneIn (Match (λ y. R.Record.words_of (R.Record.key_of y)) (C.Row.cells cells.now) words limit) from end) (λ h. FirstIn (Match (λ y. R.Record.words_of (R.Record.key_of y)) (C.Row.cells cells.now) words limit) from end h.cell × Meets (λ y. R.Record.words_of (R.Record.key_of y)) (C.Row.cells cells.now) words h.cell h.held) }
{
    // as `find_map` over the range it did not prove
    for cell in from..end.min(limit) {
        if let Some(held) = held_with(cells, cell, words) {
            return Some(Hit { cell, held });
        }
    }
    None
}

// The first cell below a limit whose record has these words, by choice and then by cell. At most the cells of the own buckets are read.
pub fn find_below<R: Record, F: Family, C: Row<R>>(
    cells: &C,
    size: Size,
    family: &F,
    words: Words,
    limit: u32,
) -> Option<Hit<R>>
    ensures { Found (λ y. R.Record.words_of (R.Record.key_of y)) (C.Row.cells cells.now) (F.Family.hash_of family.now) size words limit result }
{
    let word = family.hash(words);
    for i in 0..size.settings.choices {
        let from = size.position(choice(word, i)) * size.settings.cells;
        let end = from + size.settings.cells;
        if let Some(hit) = find_within(cells, from, end, words, limit) {
            return Some(hit);
        }
    }
    None
}
