// A cell: empty, or holding a record, or the plain numbers that may or may not make one.
pub type Cell<T> = Option<T>;
