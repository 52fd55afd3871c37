// A record that was found, and the cell that it lies in.
#[derive(Clone, Copy, Debug, PartialEq, Eq)]
pub struct Hit<R> {
    pub cell: u32,
    pub held: R,
}
