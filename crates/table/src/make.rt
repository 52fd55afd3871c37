// Make.
ghost use Rattle.std.specs.Prelude.{◌≡◌, ℕ, ◌<◌, ◌≤◌, length, Ok};
ghost use Rattle.records.specs.declared.numbers.Words.{Words};
ghost use Rattle.addresses.specs.declared.sizes.Size.{Size};
ghost use Rattle.rules.specs.Calls.{Answered, Emptied, Made, make_rows};
ghost use Rattle.rules.specs.Tables.{Sound};
ghost use Rattle.rules.specs.Written.{Wrote};
ghost use Rattle.table.specs.States.{Lasting};

use crate::cells::put;
use addresses::sizes::{SettingNumbers, Settings, Size};
use records::declines::Decline;
use records::kinds::Record;
use stores::cells::Cell;
use stores::store::Store;

// Empties the cells from one number to before another, and no others. It serves the calls on a table.
pub fn empty_cells<R: Record, S: Store<R>>(store: &mut S, from: u32, to: u32)
    requires order { from ≤ to }
    requires reach { to ≤ length (S.Store.cells store.old) }
    ensures emptied { Emptied from to (S.Store.cells store.old) (S.Store.cells store.new) }
    ensures wrote { Wrote (S.Store.code store.old) (S.Store.raw store.old) (S.Store.raw store.new) (S.Store.cells store.new) (λ c. (from ≤ c) × (c < to)) }
    ensures lasting { Lasting S.Store.place S.Store.code store.old store.new }
{
    for cell in from..to {
        put::<R, S>(store, cell, None);
    }
}

// The size of a new table with these settings over the store, its used cells emptied. It declines with 1 where a setting is outside
// its range, and with 2 where the store has too few cells.
pub fn make<R: Record, S: Store<R>>(numbers: SettingNumbers, store: &mut S) -> Result<Size, Decline>
    ensures made { Answered (make_rows numbers.t numbers.cells numbers.choices numbers.start numbers.load (S.Store.cells store.old)) ((S.Store.cells store.new ≡ S.Store.cells store.old) × Wrote (S.Store.code store.old) (S.Store.raw store.old) (S.Store.raw store.new) (S.Store.cells store.new) (λ c. ⊥)) (Made numbers.t numbers.cells numbers.choices numbers.start numbers.load (S.Store.cells store.old) (S.Store.cells store.new) (Wrote (S.Store.code store.old) (S.Store.raw store.old) (S.Store.raw store.new) (S.Store.cells store.new))) result }
    ensures sound { (hash : Words → ℕ) (z : Size) → result ≡ Ok z → Sound R.Record.key_of R.Record.words_of hash (record { size = z; count = 0; cells = S.Store.cells store.new }) }
    ensures lasting { Lasting S.Store.place S.Store.code store.old store.new }
{
    let settings = Settings::new(numbers)?;
    let size = Size::first(settings);
    let used = size.used();
    if store.length() < u64::from(used) {
        return Err(Decline::StoreTooSmall);
    }
    empty_cells::<R, S>(store, 0, used);
    Ok(size)
}
