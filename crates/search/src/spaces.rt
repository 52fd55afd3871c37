// The working spaces of a search, which its caller lends it.
#[derive(Drop)]
pub struct Spaces<'a> {
    // the buckets that are seen, as they come
    pub queue: &'a mut [u32],
    // how each bucket came to be seen: numbers, and no enum, since the memory is lent and holds numbers
    pub came: &'a mut [u32],
}

impl Spaces<'_> {
    ghost use Rattle.search.specs.Spaces.{AllZero, Lent};

    // Writes 0 throughout both.
    pub fn clear(&mut self)
        ensures zero { AllZero self.new }
        ensures lent { Lent self.old self.new }
    {
        self.queue.fill(0);
        self.came.fill(0);
    }
}
