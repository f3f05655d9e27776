// A server with its listeners and its network.
use calls::Refusal;
use network::message::Message;
use network::queue::Network;
use server::state::{Listener, Server};
use timestamps::packed::Packed;
use values::total::Total;

// Kept: bytes, in the tests of each layer, since the tests say themselves which byte a kind has.
pub const QUERY: u8 = 1;

pub const TS: u8 = 2;

pub const STORE: u8 = 3;

pub const ACK: u8 = 4;

pub const READ: u8 = 5;

pub const VALUE: u8 = 6;

pub const STOP: u8 = 7;

pub type Note = Message<Packed, Total>;

// A message between a client and server 7.
pub(crate) fn note(client: u8, kind: u8, number: u32, timestamp: u64, total: u64) -> Note {
    Message {
        client,
        server: 7,
        kind,
        number,
        timestamp: Packed::new(timestamp),
        value: Total::new(total),
    }
}

// What the memory of a fixture holds before the first message.
pub(crate) fn blank() -> Note {
    note(0, 0, 0, 0, 0)
}

pub(crate) fn holds(timestamp: u64, total: u64) -> Server<Packed, Total> {
    Server {
        timestamp: Packed::new(timestamp),
        value: Total::new(total),
    }
}

pub(crate) fn listens(number: u32, listening: bool, start: u64) -> Listener<Packed> {
    Listener {
        number,
        listening,
        start: Packed::new(start),
    }
}

// Client 0 is listened to from a timestamp on, client 2 from 5 on, and client 1 no longer.
pub(crate) fn two_listening(start: u64) -> [Listener<Packed>; 3] {
    [
        listens(3, true, start),
        listens(8, false, 0),
        listens(9, true, 5),
    ]
}

pub(crate) fn record(capacity: usize, len: usize, lifted: Option<usize>) -> Network {
    Network {
        capacity,
        len,
        lifted,
    }
}

// A server with three clients, over a memory of four messages.
#[derive(Clone, Copy, PartialEq, Eq, Debug)]
pub struct Fixture {
    pub server: Server<Packed, Total>,
    pub listeners: [Listener<Packed>; 3],
    pub network: Network,
    pub memory: [Note; 4],
}

impl Fixture {
    // A server that holds timestamp 69 and total 1250, with so many messages in its network.
    pub(crate) fn new(listeners: [Listener<Packed>; 3], len: usize) -> Fixture {
        Fixture {
            server: holds(69, 1250),
            listeners,
            network: record(4, len, None),
            memory: [blank(); 4],
        }
    }

    // Takes a message.
    pub(crate) fn receive(&mut self, message: Note, faulty: bool) -> Result<(), Refusal> {
        self.server.receive(
            &mut self.listeners,
            &mut self.network,
            &mut self.memory,
            message,
            faulty,
        )
    }
}
