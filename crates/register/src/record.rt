// The record that goes with a register's lent memory. Any content is possible.
ghost use Rattle.std.specs.Prelude.{◌≡◌, not, [], ◌∷◌, nat_lt};
ghost use Rattle.calls.specs.Refusals.{first_failed, passed};
ghost use Rattle.calls.specs.declared.Refusal.TheVariants.{Memory as TooShort, NoClient};
ghost use Rattle.delivery.specs.Memory.{lent, sizes_of};
ghost use Rattle.delivery.specs.Sizes.{enough_for};

use calls::Refusal;
use client::state::Client;
use delivery::sizes::Sizes;
use network::message::Message;
use quorums::QuorumSystem;
use quorums::sets::ServerSet;
use reading::reports::Report;
use server::state::{Listener, Server};

// The quorum system, how many clients there are, how many messages the queue may hold, how many it holds, and the
// servers that are faulty.
// Kept: the length stands beside lent memory, since the record outlives each loan and owns no heap.
#[derive(Clone, Copy, PartialEq, Eq, Debug)]
pub struct Register<Q> {
    pub system: Q,
    pub clients: usize,
    pub capacity: usize,
    pub len: usize,
    pub faulty: ServerSet,
}

impl<Q: QuorumSystem> Register<Q> {
    // The record is within the limits and goes with this memory.
    pub(crate) fn check_memory<S, V>(
        &self,
        servers: &[Server<S, V>],
        clients: &[Client<S, V>],
        listeners: &[Listener<S>],
        messages: &[Message<S, V>],
        reports: &[Report<S, V>],
    ) -> Result<(), Refusal>
        ensures { result ≡ passed (first_failed ((not (enough_for (Q.size self.now.system) self.now.clients self.now.capacity self.now.len (sizes_of (lent servers.now clients.now listeners.now messages.now reports.now))), TooShort) ∷ [])) }
    {
        let n = self.system.servers();
        let sizes = Sizes::of(servers, clients, listeners, messages, reports);
        if !sizes.suffice(n, self.clients, self.capacity, self.len) {
            return Err(Refusal::Memory);
        }
        Ok(())
    }

    // The client is one of the register's.
    pub(crate) fn check_client(&self, client: u8) -> Result<(), Refusal>
        ensures { result ≡ passed (first_failed ((not (nat_lt client self.now.clients), NoClient) ∷ [])) }
    {
        if usize::from(client) >= self.clients {
            return Err(Refusal::NoClient);
        }
        Ok(())
    }
}
