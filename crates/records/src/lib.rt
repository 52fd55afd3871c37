// Declines, plates, tags, records and their kinds.
#![tactic(auto)]

pub mod bytes;
pub mod characters;
pub mod declines;
pub mod kind;
pub mod kinds;
pub mod numbers;
pub mod plates;
pub mod records;
