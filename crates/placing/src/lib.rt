// Placing records in buckets: what it asks of a table, and looking at one bucket.
#![tactic(auto)]

pub mod looks;
pub mod placing;
