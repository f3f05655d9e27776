// A message at its server, over the memory of all servers.
ghost use Rattle.std.specs.Prelude.{◌≡◌, ℕ, ◌+◌, ◌*◌, ◌<◌, ◌≤◌, length};
ghost use Rattle.delivery.specs.Parts.{server_reacts, ServersKept, Served};

use calls::Refusal;
use network::message::Message;
use network::queue::Network;
use server::state::{Listener, Server};
use timestamps::Timestamp;
use values::Value;

// Lends the server of a message, and its own row of listeners, for the message.
// Kept: cut by places and with `as`, and asking for what it uses, as for the reports of a client.
pub(crate) fn serve<S: Timestamp, V: Value>(
    servers: &mut [Server<S, V>],
    listeners: &mut [Listener<S>],
    network: &mut Network,
    memory: &mut [Message<S, V>],
    clients: usize,
    message: Message<S, V>,
    faulty: bool,
) -> Result<(), Refusal>
    requires within { message.server < length servers.old }
    requires row { message.server * clients + clients ≤ length listeners.old }
    ensures served { (n : ℕ) → message.server < n → Served S.above S.lowest V.initial_value n clients faulty servers.old listeners.old network.old memory.old message result servers.new listeners.new network.new memory.new }
    ensures kept { (n : ℕ) → message.server < n → ServersKept S.above S.lowest V.initial_value n clients servers.old listeners.old servers.new listeners.new }
{
    let place = message.server as usize;
    let first = place * clients;
    servers[place].receive(
        &mut listeners[first..first + clients],
        network,
        memory,
        message,
        faulty,
    )
}

// How many messages the server of a message would send on it.
pub(crate) fn count_replies<S: Timestamp, V: Value>(
    servers: &[Server<S, V>],
    listeners: &[Listener<S>],
    clients: usize,
    message: Message<S, V>,
    faulty: bool,
) -> usize
    requires within { message.server < length servers.now }
    requires row { message.server * clients + clients ≤ length listeners.now }
    ensures { (n : ℕ) → message.server < n → result ≡ length (server_reacts S.above S.lowest V.initial_value n clients faulty servers.now listeners.now message).sent }
{
    let place = message.server as usize;
    let first = place * clients;
    servers[place].replies(&listeners[first..first + clients], message, faulty)
}
