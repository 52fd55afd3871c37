// Cell stores: what every store shows, and the plain, joined and windowed stores.
#![tactic(auto)]

pub mod cells;
pub mod joined;
pub mod lent;
pub mod plain;
pub mod row;
pub mod store;
pub mod window;
