// The two working spaces of an insert, and whether the insert left them as it must.
ghost use Rattle.std.specs.Prelude.{◌≡◌, ◌+◌, MatchBool, IfOk, min, replicate};
ghost use Rattle.search.specs.Spaces.{Zero};
ghost use Rattle.tablerun.specs.Spaces.{CountsUp};

use std::alloc::{AllocError, Global};

#[derive(Drop)]
pub struct Spaces {
    pub queue: Vec<u32>,
    pub came: Vec<u32>,
}

impl Spaces {
    // Spaces of so many numbers each.
    pub fn new(heap: Global, queue: u32, came: u32) -> Result<Spaces, AllocError>
        ensures queue { IfOk result (λ s. s.queue.items ≡ replicate queue 0) }
        ensures came { IfOk result (λ s. s.came.items ≡ replicate came 0) }
    {
        Ok(Spaces {
            queue: vec![in heap; 0; queue as usize]?,
            came: vec![in heap; 0; came as usize]?,
        })
    }

    // Puts a number other than 0 into every place.
    pub fn fill(&mut self)
        ensures queue { CountsUp self.new.queue.items }
        ensures came { CountsUp self.new.came.items }
    {
        count_up(&mut self.queue);
        count_up(&mut self.came);
    }

    pub fn are_zero(&self) -> bool
        ensures { MatchBool result (Zero self.now.queue.items × Zero self.now.came.items) (Zero self.now.queue.items × Zero self.now.came.items → ⊥) }
    {
        is_zero(&self.queue) && is_zero(&self.came)
    }

    // Whether both hold what they were filled with.
    pub fn are_filled(&self) -> bool
        ensures { MatchBool result (CountsUp self.now.queue.items × CountsUp self.now.came.items) (CountsUp self.now.queue.items × CountsUp self.now.came.items → ⊥) }
    {
        counts_up(&self.queue) && counts_up(&self.came)
    }
}

// What place i is filled with: 1, 2, 3 and so on.
fn filled(i: usize) -> u32
    ensures { result ≡ min (i + 1) 4294967295 }
{
    u32::try_from(i.saturating_add(1)).unwrap_or(u32::MAX)
}

fn count_up(space: &mut [u32])
    ensures { CountsUp space.new }
{
    for (i, number) in space.iter_mut().enumerate() {
        *number = filled(i);
    }
}

fn counts_up(space: &[u32]) -> bool
    ensures { MatchBool result (CountsUp space.now) (CountsUp space.now → ⊥) }
{
    space
        .iter()
        .enumerate()
        .all(|(i, number)| *number == filled(i))
}

fn is_zero(space: &[u32]) -> bool
    ensures { MatchBool result (Zero space.now) (Zero space.now → ⊥) }
{
    space.iter().all(|number| *number == 0)
}
