// Cells as 32 bytes, and the byte store over them.
#![tactic(auto)]

pub mod codec;
pub mod kinds;
pub mod store;
