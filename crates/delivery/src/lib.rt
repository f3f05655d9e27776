// The register over lent memory: a delivery, and its parts at servers and clients.
#![tactic(auto)]

mod attend;
pub mod deliver;
mod hand;
pub mod memory;
mod serve;
pub mod sizes;
