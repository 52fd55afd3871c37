// Making room: the search for the nearest bucket with room, and the walk back along its way. These serve whoever places records, and
// want a lawful placement, working spaces that are long enough, and a key whose own buckets are full.
ghost use Rattle.std.specs.Prelude.{◌≡◌, ℕ, ◌*◌, ◌<◌, ◌≤◌, length};
ghost use Rattle.rules.specs.Placements.{Lawful, LowestEmpty};
ghost use Rattle.rules.specs.Written.{Wrote};
ghost use Rattle.placing.specs.Held.{OnlyCells};
ghost use Rattle.placing.specs.Looks.{OwnFull};
ghost use Rattle.search.specs.Nets.{Trail, net_of};
ghost use Rattle.search.specs.Spaces.{Lent, Long};
ghost use Rattle.settle.specs.Rooms.{Roomed, Walked};

use crate::spot::Spot;
use placing::placing::Placing;
use records::kinds::Record;
use search::found::Found;
use search::search::search;
use search::spaces::Spaces;

// Copies each record on the way back one cell on, from the empty cell that was found to a cell of an own bucket. That cell still
// holds the record that was copied from it: the new record is to be written there.
fn walk<R: Record, P: Placing<R>>(p: &mut P, came: &[u32], found: Found) -> Spot
    requires lawful { Lawful (P.Placing.placement p.old) }
    requires long { (P.Placing.placement p.old).size ≤ length came.now }
    requires empty { LowestEmpty (P.Placing.placement p.old) found.bucket found.cell }
    requires below { found.cell < (P.Placing.placement p.old).size * (P.Placing.placement p.old).cells }
    requires inside { found.bucket < (P.Placing.placement p.old).size }
    requires trail { (d : ℕ) × (d < (P.Placing.placement p.old).size) × Trail (net_of (P.Placing.placement p.old)) came.now d found.bucket }
    ensures cells { OnlyCells P.Placing.placement P.Placing.place P.Placing.code p.old p.new }
    ensures walked { (d : ℕ) → d < (P.Placing.placement p.old).size → Trail (net_of (P.Placing.placement p.old)) came.now d found.bucket → Walked (P.Placing.placement p.old) came.now result d (P.Placing.placement p.new).held (Wrote (P.Placing.code p.old) (P.Placing.raw p.old) (P.Placing.raw p.new) (P.Placing.placement p.new).held) }
{
    let slots = p.slots();
    let mut bucket = found.bucket;
    let mut cell = found.cell;
    let mut moves: u32 = 0;
    // the marks lead back, so nothing is gone through in order
    while came[bucket as usize] != 1 {
        let from = came[bucket as usize] - 2;
        p.copy(from, cell);
        bucket = from / slots;
        cell = from;
        moves += 1;
    }
    Spot { cell, moves }
}

// A cell in an own bucket of the hash word, for a record to be written there, after as few displacements as there can be; nothing
// where no displacements make room.
pub fn make_room<R: Record, P: Placing<R>>(
    p: &mut P,
    word: u64,
    spaces: &mut Spaces<'_>,
) -> Option<Spot>
    requires lawful { Lawful (P.Placing.placement p.old) }
    requires long { Long spaces.old (P.Placing.placement p.old).size }
    requires full { OwnFull (P.Placing.placement p.old) word }
    ensures cells { OnlyCells P.Placing.placement P.Placing.place P.Placing.code p.old p.new }
    ensures roomed { Roomed (P.Placing.placement p.old) word (P.Placing.placement p.new).held (Wrote (P.Placing.code p.old) (P.Placing.raw p.old) (P.Placing.raw p.new) (P.Placing.placement p.new).held) result }
    ensures lent { Lent spaces.old spaces.new }
{
    let found = search(p, word, spaces)?;
    Some(walk(p, spaces.came, found))
}
