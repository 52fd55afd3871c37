// The breadth-first search for the nearest bucket with room.
#![tactic(auto)]

pub mod found;
pub mod search;
pub mod spaces;
