// A whole run of a register.
#![tactic(auto)]

pub mod play;
