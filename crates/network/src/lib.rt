// Messages between clients and servers, and the network that holds them in sending order.
#![tactic(auto)]

pub mod message;
pub mod queue;
