// The memory that is lent to a register.
ghost use Rattle.std.specs.Prelude.{◌≡◌};
ghost use Rattle.delivery.specs.Memory.{contents, sizes_of};

use crate::sizes::Sizes;
use client::state::Client;
use network::message::Message;
use reading::reports::Report;
use server::state::{Listener, Server};

// For n servers and m clients: the servers, the clients, m listeners of each server, the messages of the queue, and
// n * (n + 1) reports of each client.
#[derive(Drop)]
pub struct Memory<'a, S, V> {
    pub servers: &'a mut [Server<S, V>],
    pub clients: &'a mut [Client<S, V>],
    pub listeners: &'a mut [Listener<S>],
    pub messages: &'a mut [Message<S, V>],
    pub reports: &'a mut [Report<S, V>],
}

impl<S, V> Memory<'_, S, V> {
    // How many entries there are of each kind.
    pub fn sizes(&self) -> Sizes
        ensures { result ≡ sizes_of (contents self.now) }
    {
        Sizes::of(
            self.servers,
            self.clients,
            self.listeners,
            self.messages,
            self.reports,
        )
    }
}
