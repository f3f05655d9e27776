// What goes from a client to the servers.
ghost use Rattle.std.specs.Prelude.{◌≡◌, ◌≤◌, length, Some};
ghost use Rattle.network.specs.Queues.{Room, Sent};
ghost use Rattle.protocol.specs.Clients.{from_client};
ghost use Rattle.client.specs.Showing.{messages_of};
ghost use Rattle.client.specs.Sending.{Dispatched};

use crate::state::Broadcast;
use calls::Refusal;
use network::message::{Kind, Message};
use network::queue::Network;
use timestamps::Timestamp;
use values::Value;

impl<S: Timestamp, V: Value> Broadcast<S, V> {
    // One with the initial timestamp and value.
    pub(crate) fn plain(kind: Kind, number: u32) -> Broadcast<S, V>
        ensures { result ≡ record { kind = kind; number = number; timestamp = S.lowest; value = V.initial_value } }
    {
        Broadcast {
            kind,
            number,
            timestamp: S::initial(),
            value: V::initial(),
        }
    }

    // Sends the message of a client to each of the n servers, in server order.
    pub fn send(
        self,
        network: &mut Network,
        memory: &mut [Message<S, V>],
        n: u8,
        client: u8,
    ) -> Result<(), Refusal>
        ensures { Dispatched n client self network.old memory.old result network.new memory.new }
    {
        network.admits(memory.len(), usize::from(n))?;
        self.send_all(network, memory, n, client);
        Ok(())
    }

    // Sends it where there is room for so many messages.
    // Kept: room for its own messages is what each sender asks, and no two ask for the same.
    fn send_all(self, network: &mut Network, memory: &mut [Message<S, V>], n: u8, client: u8)
        requires { Room network.old (length memory.old) n }
        ensures { Sent network.old memory.old (messages_of n client (Some self)) network.new memory.new }
    {
        for server in 0..n {
            let _ = network.post(memory, self.message_for(client, server));
        }
    }

    // The message for one server.
    fn message_for(self, client: u8, server: u8) -> Message<S, V>
        ensures { result ≡ from_client client server self.kind self.number self.timestamp self.value }
    {
        Message {
            client,
            server,
            kind: u8::from(self.kind),
            number: self.number,
            timestamp: self.timestamp,
            value: self.value,
        }
    }
}
