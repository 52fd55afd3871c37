// A bucket with room, and its lowest empty cell.
#[derive(Clone, Copy)]
pub struct Found {
    pub bucket: u32,
    pub cell: u32,
}
