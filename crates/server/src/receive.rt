// What a server does with a message.
ghost use Rattle.std.specs.Prelude.{◌≡◌, ◌<◌, ◌≤◌, false, length};
ghost use Rattle.calls.specs.Refusals.{first_failed, passed};
ghost use Rattle.network.specs.Kinds.{kind_of};
ghost use Rattle.network.specs.Queues.{Room, Sent};
ghost use Rattle.server.specs.Serving.{on_query, on_store, on_read, on_stop, by_kind, reaction};
ghost use Rattle.server.specs.Receiving.{state_of, Reacted, row_checks, receive_checks, reacts, Received};

use crate::listeners::{Arrival, count_wanting, listener_of};
use crate::sending::{pass_on, reply, send};
use crate::state::{Listener, Server};
use calls::Refusal;
use network::message::{Kind, Message};
use network::queue::Network;
use timestamps::Timestamp;
use values::Value;

pub const MOST_CLIENTS: usize = 64;

impl<S: Timestamp, V: Value> Server<S, V> {
    // A server at first.
    pub fn initial() -> Server<S, V>
        ensures { result ≡ record { timestamp = S.lowest; value = V.initial_value } }
    {
        Server {
            timestamp: S::initial(),
            value: V::initial(),
        }
    }

    // How many messages the server would send on a message.
    pub fn replies(&self, listeners: &[Listener<S>], message: Message<S, V>, faulty: bool) -> usize
        ensures { result ≡ length (reacts S.above S.lowest V.initial_value faulty self.now listeners.now message).sent }
    {
        if faulty {
            return 0;
        }
        Kind::try_from(message.kind).map_or(0, |kind| replies_by_kind(kind, listeners, message))
    }

    // Takes a message: a correct server does what the protocol says, and a faulty one nothing.
    // Kept: a struct of network and memory, lent beside the row of listeners, has no generated proof here.
    pub fn receive(
        &mut self,
        listeners: &mut [Listener<S>],
        network: &mut Network,
        memory: &mut [Message<S, V>],
        message: Message<S, V>,
        faulty: bool,
    ) -> Result<(), Refusal>
        ensures { Received S.above S.lowest V.initial_value faulty self.old listeners.old network.old memory.old message result self.new listeners.new network.new memory.new }
    {
        let sending = self.replies(listeners, message, faulty);
        check_receipt(
            *network,
            memory.len(),
            listeners.len(),
            message.client,
            sending,
        )?;
        if !faulty {
            let mut arrival = Arrival::new(listeners, &message);
            self.react(&mut arrival, network, memory);
        }
        Ok(())
    }

    // What a correct server does with a message for which there is room.
    // Kept: each step asks for room for its own messages, and names the three parts of the kinds that the protocol's words take.
    fn react(
        &mut self,
        arrival: &mut Arrival<'_, S, V>,
        network: &mut Network,
        memory: &mut [Message<S, V>],
    )
        requires { Room network.old (length memory.old) (length (reacts S.above S.lowest V.initial_value false self.old arrival.old.listeners.now arrival.old.message.now).sent) }
        ensures memory { arrival.new.listeners.ghost_name ≡ arrival.old.listeners.ghost_name }
        ensures after { Reacted S.lowest network.old memory.old (reacts S.above S.lowest V.initial_value false self.old arrival.old.listeners.now arrival.old.message.now) self.new arrival.new.listeners.now network.new memory.new }
    {
        if let Ok(kind) = Kind::try_from(arrival.message.kind) {
            self.react_by_kind(kind, arrival, network, memory);
        }
    }

    // What a correct server does with a message of a kind.
    #[tactic(auto, using(network::proofs::Sending::sent_none))]
    fn react_by_kind(
        &mut self,
        kind: Kind,
        arrival: &mut Arrival<'_, S, V>,
        network: &mut Network,
        memory: &mut [Message<S, V>],
    )
        requires { Room network.old (length memory.old) (length (by_kind S.above S.lowest V.initial_value kind (length arrival.old.listeners.now) (state_of S.lowest self.old arrival.old.listeners.now) arrival.old.message.now).sent) }
        ensures memory { arrival.new.listeners.ghost_name ≡ arrival.old.listeners.ghost_name }
        ensures after { Reacted S.lowest network.old memory.old (by_kind S.above S.lowest V.initial_value kind (length arrival.old.listeners.now) (state_of S.lowest self.old arrival.old.listeners.now) arrival.old.message.now) self.new arrival.new.listeners.now network.new memory.new }
    {
        match kind {
            Kind::Query => self.answer_query(network, memory, *arrival.message),
            Kind::Store => self.answer_store(arrival, network, memory),
            Kind::Read => self.answer_read(arrival, network, memory),
            Kind::Stop => self.answer_stop(arrival),
            Kind::Ts | Kind::Ack | Kind::Value => {}
        }
    }

    // QUERY: TS with the timestamp held.
    fn answer_query(
        &self,
        network: &mut Network,
        memory: &mut [Message<S, V>],
        message: Message<S, V>,
    )
        requires { Room network.old (length memory.old) 1 }
        ensures { (row : _) → Reacted S.lowest network.old memory.old (on_query S.above S.lowest V.initial_value (state_of S.lowest self.now row) message) self.now row network.new memory.new }
    {
        send(
            network,
            memory,
            reply(message, Kind::Ts, self.timestamp, V::initial()),
        );
    }

    // STORE: ACK, then VALUE to the clients that want the pair, which is held if it is the later one.
    fn answer_store(
        &mut self,
        arrival: &Arrival<'_, S, V>,
        network: &mut Network,
        memory: &mut [Message<S, V>],
    )
        requires { Room network.old (length memory.old) (length (on_store S.above S.lowest V.initial_value (length arrival.now.listeners.now) (state_of S.lowest self.old arrival.now.listeners.now) arrival.now.message.now).sent) }
        ensures { Reacted S.lowest network.old memory.old (on_store S.above S.lowest V.initial_value (length arrival.now.listeners.now) (state_of S.lowest self.old arrival.now.listeners.now) arrival.now.message.now) self.new arrival.now.listeners.now network.new memory.new }
    {
        send(
            network,
            memory,
            reply(
                *arrival.message,
                Kind::Ack,
                arrival.message.timestamp,
                V::initial(),
            ),
        );
        pass_on(arrival, network, memory);
        self.hold(*arrival.message);
    }

    // Holds the pair of a STORE if its timestamp is above the one held.
    fn hold(&mut self, message: Message<S, V>)
        ensures { (row : _) → state_of S.lowest self.new row ≡ (on_store S.above S.lowest V.initial_value 0 (state_of S.lowest self.old row) message).after }
    {
        if message.timestamp.is_above(self.timestamp) {
            self.timestamp = message.timestamp;
            self.value = message.value;
        }
    }

    // READ, if it is new: the server listens from the timestamp held, and VALUE with what it holds.
    fn answer_read(
        &self,
        arrival: &mut Arrival<'_, S, V>,
        network: &mut Network,
        memory: &mut [Message<S, V>],
    )
        requires { Room network.old (length memory.old) (length (on_read S.above S.lowest V.initial_value (state_of S.lowest self.now arrival.old.listeners.now) arrival.old.message.now).sent) }
        ensures memory { arrival.new.listeners.ghost_name ≡ arrival.old.listeners.ghost_name }
        ensures after { Reacted S.lowest network.old memory.old (on_read S.above S.lowest V.initial_value (state_of S.lowest self.now arrival.old.listeners.now) arrival.old.message.now) self.now arrival.new.listeners.now network.new memory.new }
    {
        let message = *arrival.message;
        if arrival.listener().number < message.number {
            arrival.set(Listener {
                number: message.number,
                listening: true,
                start: self.timestamp,
            });
            send(
                network,
                memory,
                reply(message, Kind::Value, self.timestamp, self.value),
            );
        }
    }

    // STOP, if it is not late: the server no longer listens.
    fn answer_stop(&self, arrival: &mut Arrival<'_, S, V>)
        ensures memory { arrival.new.listeners.ghost_name ≡ arrival.old.listeners.ghost_name }
        ensures after { state_of S.lowest self.now arrival.new.listeners.now ≡ (on_stop S.above S.lowest V.initial_value (state_of S.lowest self.now arrival.old.listeners.now) arrival.old.message.now).after }
    {
        let last = arrival.listener();
        if last.number <= arrival.message.number {
            arrival.set(Listener {
                number: arrival.message.number,
                listening: false,
                ..last
            });
        }
    }
}

// Refuses a message for whose row, or for what is sent on it, the limits, the memory or the room do not suffice.
fn check_receipt(
    network: Network,
    room: usize,
    clients: usize,
    client: u8,
    sending: usize,
) -> Result<(), Refusal>
    ensures { result ≡ passed (first_failed (receive_checks network room clients client sending)) }
{
    check_row(clients, client)?;
    network.admits(room, sending)
}

// Refuses a client that is not in a row of so many clients, and a row that is not within the limits.
fn check_row(clients: usize, client: u8) -> Result<(), Refusal>
    ensures { result ≡ passed (first_failed (row_checks clients client)) }
{
    if clients > MOST_CLIENTS || usize::from(client) >= clients {
        return Err(Refusal::Memory);
    }
    Ok(())
}

// How many messages a message of a kind brings.
fn replies_by_kind<S: Timestamp, V: Value>(
    kind: Kind,
    listeners: &[Listener<S>],
    message: Message<S, V>,
) -> usize
    ensures { (server : _) → result ≡ length (by_kind S.above S.lowest V.initial_value kind (length listeners.now) (state_of S.lowest server listeners.now) message).sent }
{
    match kind {
        Kind::Query => 1,
        Kind::Store => replies_to_store(listeners, message),
        Kind::Read => replies_to_read(listeners, message),
        Kind::Stop | Kind::Ts | Kind::Ack | Kind::Value => 0,
    }
}

// How many messages a STORE brings: one, and one for each client that wants its pair.
fn replies_to_store<S: Timestamp, V: Value>(
    listeners: &[Listener<S>],
    message: Message<S, V>,
) -> usize
    ensures { (server : _) → result ≡ length (on_store S.above S.lowest V.initial_value (length listeners.now) (state_of S.lowest server listeners.now) message).sent }
{
    1 + count_wanting(listeners, message.timestamp)
}

// How many messages a READ brings: one, if it is new.
fn replies_to_read<S: Timestamp, V: Value>(
    listeners: &[Listener<S>],
    message: Message<S, V>,
) -> usize
    ensures { (server : _) → result ≡ length (on_read S.above S.lowest V.initial_value (state_of S.lowest server listeners.now) message).sent }
{
    usize::from(listener_of(listeners, message.client).number < message.number)
}
