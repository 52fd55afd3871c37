// The search for the nearest bucket with room, over any placing. It serves the walk that makes room, and wants a lawful placement,
// working spaces that are long enough, and a key whose own buckets are full.
ghost use Rattle.rules.specs.Placements.{Lawful};
ghost use Rattle.placing.specs.Looks.{OwnFull};
ghost use Rattle.search.specs.Marks.{Seeded};
ghost use Rattle.search.specs.Nets.{net_of};
ghost use Rattle.search.specs.Searches.{Searched};
ghost use Rattle.search.specs.Spaces.{Lent, Long};

use crate::found::Found;
use crate::spaces::Spaces;
use placing::looks::{leads, room, word_at};
use placing::placing::Placing;
use records::kinds::Record;

// Marks the own buckets and no others, and puts each into the queue, once: how many the queue then holds.
fn seed<R: Record, P: Placing<R>>(p: &P, word: u64, spaces: &mut Spaces<'_>) -> u32
    requires lawful { Lawful (P.Placing.placement p.now) }
    requires long { Long spaces.old (P.Placing.placement p.now).size }
    requires full { OwnFull (P.Placing.placement p.now) word }
    ensures seeded { Seeded (net_of (P.Placing.placement p.now)) ((P.Placing.placement p.now).lies word) spaces.new.came.now spaces.new.queue.now (P.Placing.placement p.now).choices result }
    ensures lent { Lent spaces.old spaces.new }
{
    let queue = &mut *spaces.queue;
    let came = &mut *spaces.came;
    came.fill(0);
    let mut tail: u32 = 0;
    for choice in 0..p.choices() {
        let bucket = p.bucket(word, choice);
        if came[bucket as usize] == 0 {
            came[bucket as usize] = 1;
            queue[tail as usize] = bucket;
            tail += 1;
        }
    }
    tail
}

// The nearest bucket with room, and in `came` the way back to an own bucket; nothing where no bucket that can be reached has room.
// Every bucket is queued at most once, and the search goes on until all that can be reached are done.
pub fn search<R: Record, P: Placing<R>>(p: &P, word: u64, spaces: &mut Spaces<'_>) -> Option<Found>
    requires lawful { Lawful (P.Placing.placement p.now) }
    requires long { Long spaces.old (P.Placing.placement p.now).size }
    requires full { OwnFull (P.Placing.placement p.now) word }
    ensures searched { Searched (P.Placing.placement p.now) word spaces.new.came.now result }
    ensures lent { Lent spaces.old spaces.new }
{
    let slots = p.slots();
    let choices = p.choices();
    let mut head: u32 = 0;
    let mut tail = seed(p, word, spaces);
    let queue = &mut *spaces.queue;
    let came = &mut *spaces.came;
    // the queue lies in memory that is lent, so its two ends are counted here
    'search: loop {
        if head >= tail {
            break 'search None;
        }
        let bucket = queue[head as usize];
        for slot in 0..slots {
            let cell = bucket * slots + slot;
            let held = word_at(p, cell);
            for choice in 0..choices {
                let next = leads(p, bucket, held, choice);
                if came[next as usize] == 0 {
                    came[next as usize] = 2 + cell;
                    if let Some(free) = room(p, next) {
                        break 'search Some(Found {
                            bucket: next,
                            cell: free,
                        });
                    }
                    queue[tail as usize] = next;
                    tail += 1;
                }
            }
        }
        head += 1;
    }
}
