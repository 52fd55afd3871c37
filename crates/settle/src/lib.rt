// A place for a record: directly, or along a path of displaced records.
#![tactic(auto)]

pub mod rooms;
pub mod settles;
pub mod spot;
pub mod surveys;
