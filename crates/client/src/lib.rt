// One client: its open operation, and what it does with a message.
#![tactic(auto)]

pub mod begin;
mod listening;
mod reply;
pub mod send;
pub mod state;
pub mod take;
mod writing;
