// A message through a network to a server, whatever the kinds of timestamps and values are.
ghost use Rattle.third.specs.Passing.{TakenOut, Passed, Delivered};

use calls::Refusal;
use network::message::Message;
use network::queue::Network;
use server::state::{Listener, Server};
use timestamps::Timestamp;
use values::Value;

// Posts a message, takes it out again, and settles it.
pub fn pass_through<S: Copy, V: Copy>(
    network: &mut Network,
    memory: &mut [Message<S, V>],
    message: Message<S, V>,
) -> Result<Message<S, V>, Refusal>
    ensures { Passed network.old memory.old message result network.new memory.new }
{
    let place = network.len;
    network.post(memory, message)?;
    take_out(network, memory, place)
}

// Takes the message at a place, and settles it.
fn take_out<S: Copy, V: Copy>(
    network: &mut Network,
    memory: &mut [Message<S, V>],
    place: usize,
) -> Result<Message<S, V>, Refusal>
    ensures { TakenOut network.old memory.old place result network.new memory.new }
{
    let (message, token) = network.take(memory, place)?;
    network.settle(memory, token);
    Ok(message)
}

// Passes a message through the network, and lets the server receive it.
pub fn hand_over<S: Timestamp, V: Value>(
    server: &mut Server<S, V>,
    listeners: &mut [Listener<S>],
    network: &mut Network,
    memory: &mut [Message<S, V>],
    message: Message<S, V>,
) -> Result<(), Refusal>
    ensures { Delivered S.above S.lowest V.initial_value server.old listeners.old network.old memory.old message result server.new listeners.new network.new memory.new }
{
    let taken = pass_through(network, memory, message)?;
    server.receive(listeners, network, memory, taken, false)
}
