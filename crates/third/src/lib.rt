// Kinds of one's own: a quorum system, timestamps and values, by the traits and the public functions
// of their crates alone.
#![tactic(auto)]

pub mod light;
pub mod passing;
pub mod unanimity;
pub mod unanimous;
pub mod version;
pub mod version_order;
