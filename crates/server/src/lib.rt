// One server: what it holds, how it listens to clients, and what it does with a message.
#![tactic(auto)]

pub mod listeners;
pub mod receive;
mod sending;
pub mod state;
