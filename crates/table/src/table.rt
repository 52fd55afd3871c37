// A table: its size with the settings in it, its count of records, its hash family, and its store.
use addresses::sizes::Size;

#[derive(Drop)]
pub struct Table<'f, F, S> {
    pub size: Size,
    pub count: u32,
    pub family: &'f F,
    pub store: S,
}
