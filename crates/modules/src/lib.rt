// Modules: find, check, open and the cells of a new module.
#![tactic(auto)]

pub mod calls;
pub mod checks;
pub mod faults;
pub mod laws;
pub mod module;
pub mod opens;
pub mod parts;
