// Settling a place for a record whose key is not there yet. It serves whoever places records, and wants a lawful placement and
// working spaces that are long enough, whatever they hold.
ghost use Rattle.rules.specs.Placements.{Lawful};
ghost use Rattle.rules.specs.Written.{Wrote};
ghost use Rattle.placing.specs.Held.{OnlyCells};
ghost use Rattle.search.specs.Spaces.{AllZero, Lent, Long};
ghost use Rattle.settle.specs.Settled.{Settled};

use crate::rooms::make_room;
use crate::spot::Spot;
use crate::surveys::survey;
use placing::placing::Placing;
use records::declines::Decline;
use records::kinds::Record;
use records::numbers::Words;
use search::spaces::Spaces;

// A cell for the key: in an own bucket with room, or one that is left by a displaced record.
fn spot_for<R: Record, P: Placing<R>>(
    p: &mut P,
    words: &Words,
    spaces: &mut Spaces<'_>,
) -> Result<Spot, Decline>
    requires lawful { Lawful (P.Placing.placement p.old) }
    requires long { Long spaces.old (P.Placing.placement p.old).size }
    ensures cells { OnlyCells P.Placing.placement P.Placing.place P.Placing.code p.old p.new }
    ensures settled { Settled (P.Placing.placement p.old) words.now (P.Placing.placement p.new).held (Wrote (P.Placing.code p.old) (P.Placing.raw p.old) (P.Placing.raw p.new) (P.Placing.placement p.new).held) result }
    ensures lent { Lent spaces.old spaces.new }
{
    let word = p.hash(*words);
    let best = survey(p, word, words).ok_or(Decline::KeyStored)?;
    if best.count > 0 {
        return Ok(Spot {
            cell: best.cell,
            moves: 0,
        });
    }
    make_room(p, word, spaces).ok_or(Decline::Full)
}

// The same; the working spaces hold 0 throughout afterwards.
pub fn settle<R: Record, P: Placing<R>>(
    p: &mut P,
    words: &Words,
    spaces: &mut Spaces<'_>,
) -> Result<Spot, Decline>
    requires lawful { Lawful (P.Placing.placement p.old) }
    requires long { Long spaces.old (P.Placing.placement p.old).size }
    ensures cells { OnlyCells P.Placing.placement P.Placing.place P.Placing.code p.old p.new }
    ensures settled { Settled (P.Placing.placement p.old) words.now (P.Placing.placement p.new).held (Wrote (P.Placing.code p.old) (P.Placing.raw p.old) (P.Placing.raw p.new) (P.Placing.placement p.new).held) result }
    ensures lent { Lent spaces.old spaces.new }
    ensures zero { AllZero spaces.new }
{
    let answer = spot_for(p, words, spaces);
    spaces.clear();
    answer
}
