// The trailer of a module: its rules, the window through which it is read, and the close that writes it.
#![tactic(auto)]

pub mod closing;
pub mod layouts;
pub mod windows;
