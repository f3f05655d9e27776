// The register: servers, clients and network together, in memory that the caller lends to each call.
#![tactic(auto)]

pub mod answer;
mod begin;
pub mod faults;
pub mod open;
pub mod operations;
pub mod record;
