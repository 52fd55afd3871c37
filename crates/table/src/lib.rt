// The record table, over any store, hash family and record kind.
#![tactic(auto)]

pub mod cells;
pub mod erase;
pub mod find;
pub mod insert;
pub mod laid;
pub mod make;
pub mod seeks;
pub mod table;
