// How much memory is lent to a register, and whether it is enough.
ghost use Rattle.std.specs.Prelude.{◌≡◌, ◌≤◌};
ghost use Rattle.delivery.specs.Memory.{lent, sizes_of};
ghost use Rattle.delivery.specs.Sizes.{within_limits, room_for, enough_for};

use client::state::Client;
use network::message::Message;
use network::queue::Network;
use reading::reports::{Report, entries_for};
use server::receive::MOST_CLIENTS;
use server::state::{Listener, Server};

// How many entries a memory has of each kind.
#[derive(Clone, Copy, PartialEq, Eq, Debug)]
pub struct Sizes {
    pub servers: usize,
    pub clients: usize,
    pub listeners: usize,
    pub messages: usize,
    pub reports: usize,
}

impl Sizes {
    // The sizes of five slices.
    // Kept: one by one, each lent for reading alone, since a struct of exclusive loans would ask more of callers.
    pub fn of<S, V>(
        servers: &[Server<S, V>],
        clients: &[Client<S, V>],
        listeners: &[Listener<S>],
        messages: &[Message<S, V>],
        reports: &[Report<S, V>],
    ) -> Sizes
        ensures { result ≡ sizes_of (lent servers.now clients.now listeners.now messages.now reports.now) }
    {
        Sizes {
            servers: servers.len(),
            clients: clients.len(),
            listeners: listeners.len(),
            messages: messages.len(),
            reports: reports.len(),
        }
    }

    // Whether there is room for n servers, m clients, and what they keep of one another.
    fn hold(self, n: u8, m: usize) -> bool
        requires { m ≤ 64 }
        ensures { result ≡ room_for n m self }
    {
        usize::from(n) <= self.servers
            && m <= self.clients
            && usize::from(n) * m <= self.listeners
            && m * entries_for(n) <= self.reports
    }

    // Whether a register of n servers, m clients and a capacity, with so many messages in its queue, is within the
    // limits, and has memory for all of it.
    pub fn suffice(self, n: u8, m: usize, capacity: usize, len: usize) -> bool
        ensures { result ≡ enough_for n m capacity len self }
    {
        within_limits(m, capacity, len, self.messages) && self.hold(n, m)
    }
}

// Whether the number of clients, the capacity and the length of the queue are within their limits.
fn within_limits(m: usize, capacity: usize, len: usize, messages: usize) -> bool
    ensures { result ≡ within_limits m capacity len messages }
{
    let network = Network {
        capacity,
        len,
        lifted: None,
    };
    0 < m && m <= MOST_CLIENTS && network.fits(messages)
}
