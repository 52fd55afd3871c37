// A cell for a new record, and how many records were displaced for it.
#[derive(Clone, Copy)]
pub struct Spot {
    pub cell: u32,
    pub moves: u32,
}
