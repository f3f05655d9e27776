// A lifted message at its server or its client: it is settled and followed by what they send, or put back.
// Kept: each function, here and where it calls, asks for the facts that it uses, and takes only the slices that it writes,
// so that its type says that the others stay; one struct of all would have to say so in clauses.
ghost use Rattle.std.specs.Prelude.{◌≡◌, ℕ, ◌+◌, ◌-◌, ◌*◌, ◌<◌, ◌≤◌, true, length, Some};
ghost use Rattle.calls.specs.Answers.{answer_of};
ghost use Rattle.calls.specs.declared.Answer.TheVariants.{Refused};
ghost use Rattle.network.specs.Queues.{fits, restored};
ghost use Rattle.client.specs.Showing.{kinds_of, messages_of};
ghost use Rattle.delivery.specs.Handing.{room_without, Replaced, ServedOn, ToServer, ToClient};

use crate::attend::attend;
use crate::serve::{count_replies, serve};
use calls::{Answer, Refusal};
use client::state::{Broadcast, Client};
use network::message::{Kind, Message};
use network::queue::{Network, Token};
use quorums::QuorumSystem;
use reading::reports::Report;
use server::state::{Listener, Server};
use timestamps::Timestamp;
use values::Value;

// How many messages may be sent once the lifted one is gone.
fn room_without(network: Network) -> usize
    ensures { result ≡ room_without network }
{
    network
        .capacity
        .saturating_sub(network.len.saturating_sub(1))
}

// Puts the lifted message back in its place, and refuses.
pub(crate) fn refuse<S: Copy, V: Copy>(
    network: &mut Network,
    messages: &[Message<S, V>],
    token: Token,
    refusal: Refusal,
) -> Result<Answer<S, V>, Refusal>
    ensures answer { answer_of result ≡ Refused refusal }
    ensures network { network.new ≡ restored network.old (length messages.now) }
{
    network.put_back(messages, token);
    Err(refusal)
}

// Settles the lifted message, and sends what follows on it.
fn settle_and_send<S: Timestamp, V: Value>(
    network: &mut Network,
    messages: &mut [Message<S, V>],
    token: Token,
    broadcast: Option<Broadcast<S, V>>,
    n: u8,
    client: u8,
)
    requires fits { fits network.old (length messages.old) ≡ true }
    ensures { (place : ℕ) → network.old.lifted ≡ Some place → length (messages_of n client broadcast) ≤ room_without network.old → Replaced network.old messages.old place (messages_of n client broadcast) network.new messages.new }
{
    network.settle(messages, token);
    if let Some(broadcast) = broadcast {
        let _ = broadcast.send(network, messages, n, client);
    }
}

// Settles the lifted message, and lets its server take it.
fn settle_and_serve<S: Timestamp, V: Value>(
    servers: &mut [Server<S, V>],
    listeners: &mut [Listener<S>],
    network: &mut Network,
    messages: &mut [Message<S, V>],
    clients: usize,
    message: Message<S, V>,
    token: Token,
    faulty: bool,
)
    requires within { message.server < length servers.old }
    requires row { message.server * clients + clients ≤ length listeners.old }
    requires few { clients ≤ 64 }
    requires client { message.client < clients }
    requires fits { fits network.old (length messages.old) ≡ true }
    ensures { (n : ℕ) → message.server < n → ServedOn S.above S.lowest V.initial_value n clients faulty servers.old listeners.old network.old messages.old message servers.new listeners.new network.new messages.new }
{
    network.settle(messages, token);
    let _ = serve(
        servers, listeners, network, messages, clients, message, faulty,
    );
}

// Hands a lifted message to its server, where there is room for what the server sends.
pub(crate) fn hand_to_server<S: Timestamp, V: Value>(
    servers: &mut [Server<S, V>],
    listeners: &mut [Listener<S>],
    network: &mut Network,
    messages: &mut [Message<S, V>],
    clients: usize,
    message: Message<S, V>,
    token: Token,
    faulty: bool,
) -> Result<Answer<S, V>, Refusal>
    requires within { message.server < length servers.old }
    requires row { message.server * clients + clients ≤ length listeners.old }
    requires few { clients ≤ 64 }
    requires client { message.client < clients }
    requires fits { fits network.old (length messages.old) ≡ true }
    ensures { (n place : ℕ) → message.server < n → network.old.lifted ≡ Some place → ToServer S.above S.lowest V.initial_value n clients faulty servers.old listeners.old network.old messages.old message place (answer_of result) servers.new listeners.new network.new messages.new }
{
    let sending = count_replies(servers, listeners, clients, message, faulty);
    let room = room_without(*network);
    if sending > room {
        return refuse(network, messages, token, Refusal::NetworkFull);
    }
    settle_and_serve(
        servers, listeners, network, messages, clients, message, token, faulty,
    );
    Ok(Answer::Taken)
}

// Hands a lifted message to its client, where there is room for what the client sends.
pub(crate) fn hand_to_client<Q: QuorumSystem, S: Timestamp, V: Value>(
    system: &Q,
    clients: &mut [Client<S, V>],
    reports: &mut [Report<S, V>],
    network: &mut Network,
    messages: &mut [Message<S, V>],
    message: Message<S, V>,
    kind: Kind,
    token: Token,
) -> Result<Answer<S, V>, Refusal>
    requires client { message.client < length clients.old }
    requires server { message.server < Q.size system.now }
    requires part { message.client * (Q.size system.now * (Q.size system.now + 1)) + Q.size system.now * (Q.size system.now + 1) ≤ length reports.old }
    requires fits { fits network.old (length messages.old) ≡ true }
    ensures { (m place : ℕ) → message.client < m → network.old.lifted ≡ Some place → ToClient (kinds_of Q.QuorumSystem S.Timestamp V.Value system.now) m clients.old reports.old network.old messages.old message kind place (answer_of result) clients.new reports.new network.new messages.new }
{
    let room = room_without(*network);
    match attend(system, clients, reports, message, kind, room) {
        Ok((answer, broadcast)) => {
            settle_and_send(
                network,
                messages,
                token,
                broadcast,
                system.servers(),
                message.client,
            );
            Ok(answer)
        }
        Err(refusal) => refuse(network, messages, token, refusal),
    }
}
