// Looking for a key among cells: the first that holds it, by choice and then by cell.
#![tactic(auto)]

pub mod finds;
pub mod hit;
