// A register of four servers, one of which may be faulty, and two clients, and what is seen of it.
use crate::steps::{Reply, Step, deliver};
use calls::{Answer, Refusal};
use client::state::{Client, Phase};
use delivery::memory::Memory;
use delivery::sizes::Sizes;
use network::message::Message;
use quorums::sets::ServerSet;
use quorums::threshold::Threshold;
use reading::reports::Report;
use register::record::Register;
use server::state::{Listener, Server};
use std::process::Abort;
use std::test::*;
use timestamps::Timestamp;
use timestamps::packed::Packed;
use values::Value;
use values::total::Total;

// Kept: bytes, in the tests of each layer, since the tests say themselves which byte a kind has.
pub const QUERY: u8 = 1;

pub const TS: u8 = 2;

pub const STORE: u8 = 3;

pub const ACK: u8 = 4;

pub const READ: u8 = 5;

pub const VALUE: u8 = 6;

pub const STOP: u8 = 7;

pub type Note = Message<Packed, Total>;

pub const CAPACITY: usize = 12;

// How many entries there are of each kind.
pub const WHOLE: Sizes = Sizes {
    servers: 4,
    clients: 2,
    listeners: 8,
    messages: 12,
    reports: 40,
};

// Sizes that are short of one entry.
pub(crate) fn one_short() -> [Sizes; 5] {
    [
        Sizes {
            servers: 3,
            ..WHOLE
        },
        Sizes {
            clients: 1,
            ..WHOLE
        },
        Sizes {
            listeners: 7,
            ..WHOLE
        },
        Sizes {
            messages: 11,
            ..WHOLE
        },
        Sizes {
            reports: 39,
            ..WHOLE
        },
    ]
}

pub(crate) fn note(
    client: u8,
    server: u8,
    kind: u8,
    number: u32,
    timestamp: u64,
    total: u64,
) -> Note {
    Message {
        client,
        server,
        kind,
        number,
        timestamp: Packed::new(timestamp),
        value: Total::new(total),
    }
}

pub(crate) fn holds(timestamp: u64, total: u64) -> Server<Packed, Total> {
    Server {
        timestamp: Packed::new(timestamp),
        value: Total::new(total),
    }
}

// A client that has chosen no timestamp, after so many operations.
pub(crate) fn client(number: u32, phase: Phase<Packed, Total>) -> Client<Packed, Total> {
    Client {
        number,
        last: Packed::new(0),
        phase,
    }
}

// So many of the first entries, or all where there are fewer.
pub(crate) fn first<T>(entries: &mut [T], count: usize) -> &mut [T] {
    let count = count.min(entries.len());
    &mut entries[..count]
}

// The memory of the register.
#[derive(Clone, Copy, PartialEq, Eq, Debug)]
pub struct Lent {
    pub servers: [Server<Packed, Total>; 4],
    pub clients: [Client<Packed, Total>; 2],
    pub listeners: [Listener<Packed>; 8],
    pub messages: [Note; CAPACITY],
    pub reports: [Report<Packed, Total>; 40],
}

impl Lent {
    // Lends so many entries of each kind.
    pub(crate) fn memory(&mut self, sizes: Sizes) -> Memory<'_, Packed, Total> {
        let Lent {
            servers,
            clients,
            listeners,
            messages,
            reports,
        } = self;
        Memory {
            servers: first(servers, sizes.servers),
            clients: first(clients, sizes.clients),
            listeners: first(listeners, sizes.listeners),
            messages: first(messages, sizes.messages),
            reports: first(reports, sizes.reports),
        }
    }
}

#[derive(Clone, Copy)]
pub struct Fixture {
    pub register: Register<Threshold>,
    pub lent: Lent,
}

impl Fixture {
    // A register that was just opened; the memory of its messages and reports has any content.
    pub(crate) fn new() -> Result<Fixture, Fail> {
        let register = Register {
            system: Threshold::open(4, 1)?,
            clients: 2,
            capacity: CAPACITY,
            len: 0,
            faulty: ServerSet::empty(),
        };
        let lent = Lent {
            servers: [Server::initial(); 4],
            clients: [Client::initial(); 2],
            listeners: [Listener::silent(); 8],
            messages: [note(9, 9, 9, 9, 9, 9); CAPACITY],
            reports: [Some((Packed::new(77), Total::new(7))); 40],
        };
        Ok(Fixture { register, lent })
    }

    // Record and memory are the same.
    pub(crate) fn is(&self, rt: &impl Abort, other: &Fixture) {
        assert_eq!(rt; self.register, other.register);
        assert_eq!(rt; self.lent, other.lent);
    }

    // Answers a call, with so many entries of each kind lent.
    pub(crate) fn ask_with(&mut self, sizes: Sizes, call: Step) -> Reply {
        self.register.answer(&mut self.lent.memory(sizes), call)
    }

    pub(crate) fn ask(&mut self, call: Step) -> Reply {
        self.ask_with(WHOLE, call)
    }

    // A call is refused, and nothing changes.
    pub(crate) fn refuses(&mut self, rt: &impl Abort, call: Step, refusal: Refusal) {
        let before = *self;
        assert_eq!(rt; self.ask(call), Answer::Refused(refusal));
        self.is(rt, &before);
    }

    // Puts a message behind the others, and delivers it.
    pub(crate) fn hand(&mut self, message: Note) -> Reply {
        let place = self.register.len;
        self.post(message);
        self.ask(deliver(place))
    }

    // Puts a message behind the others, where there is room.
    pub(crate) fn post(&mut self, message: Note) {
        if self.register.len < CAPACITY {
            self.lent.messages[self.register.len] = message;
            self.register.len += 1;
        }
    }

    // Client 0 has heard the timestamps of servers 0 and 1, of which 64 is the highest, in its write of this number.
    pub(crate) fn asks(&mut self, number: u32, last: u64) {
        self.lent.clients[0] = Client {
            number,
            last: Packed::new(last),
            phase: Phase::Asking {
                value: Total::new(1250),
                told: ServerSet { mask: 0b11 },
                highest: Packed::new(64),
            },
        };
    }

    // Server 0 listens to both clients for read 3, from this timestamp on.
    pub(crate) fn listens_from(&mut self, start: u64) {
        let listener = Listener {
            number: 3,
            listening: true,
            start: Packed::new(start),
        };
        self.lent.listeners[0] = listener;
        self.lent.listeners[1] = listener;
    }

    pub(crate) fn first_client(&self) -> Client<Packed, Total> {
        self.lent.clients[0]
    }

    // Puts a client at a place, where there is one.
    pub(crate) fn put_client(&mut self, place: usize, client: Client<Packed, Total>) {
        if let Some(entry) = self.lent.clients.get_mut(place) {
            *entry = client;
        }
    }

    // How server 0 listens to client 1.
    pub(crate) fn listener(&self) -> Listener<Packed> {
        self.lent.listeners[1]
    }

    // Whether some server listens to some client.
    pub(crate) fn listens(&self) -> bool {
        self.lent
            .listeners
            .iter()
            .any(|listener| listener.listening)
    }

    // The message at a place of the queue.
    pub(crate) fn message(&self, place: usize) -> Option<Note> {
        self.lent
            .messages
            .iter()
            .copied()
            .take(self.register.len)
            .nth(place)
    }
}
