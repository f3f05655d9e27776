// What a server sends, where the network has room for it.
ghost use Rattle.std.specs.Prelude.{◌≡◌, ◌≤◌, [], ◌∷◌, length};
ghost use Rattle.network.specs.Queues.{Room, Sent};
ghost use Rattle.server.specs.Serving.{reply, wanting, passed_on};
ghost use Rattle.server.specs.Receiving.{listener_in};

use crate::listeners::Arrival;
use network::message::{Kind, Message};
use network::queue::Network;
use timestamps::Timestamp;
use values::Value;

// A reply to a message: to its client, from its server, under its number.
pub(crate) fn reply<S: Timestamp, V: Value>(
    message: Message<S, V>,
    kind: Kind,
    timestamp: S,
    value: V,
) -> Message<S, V>
    ensures { result ≡ reply message kind timestamp value }
{
    Message {
        kind: u8::from(kind),
        timestamp,
        value,
        ..message
    }
}

// Sends one message, for which there is room.
pub(crate) fn send<S: Timestamp, V: Value>(
    network: &mut Network,
    memory: &mut [Message<S, V>],
    message: Message<S, V>,
)
    requires { Room network.old (length memory.old) 1 }
    ensures { Sent network.old memory.old (message ∷ []) network.new memory.new }
{
    let _ = network.post(memory, message);
}

// Passes the pair of a STORE on to each client of the row that wants it, in client order.
pub(crate) fn pass_on<S: Timestamp, V: Value>(
    arrival: &Arrival<'_, S, V>,
    network: &mut Network,
    memory: &mut [Message<S, V>],
)
    requires { Room network.old (length memory.old) (wanting S.above (listener_in S.lowest arrival.now.listeners.now) arrival.now.message.now.timestamp (length arrival.now.listeners.now)) }
    ensures { Sent network.old memory.old (passed_on S.above arrival.now.message.now (listener_in S.lowest arrival.now.listeners.now) (length arrival.now.listeners.now)) network.new memory.new }
{
    for (client, listener) in arrival.listeners.iter().enumerate() {
        if listener.wants(arrival.message.timestamp) {
            send(
                network,
                memory,
                listener.passed(*arrival.message, client as u8),
            );
        }
    }
}
