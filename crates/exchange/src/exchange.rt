// A network, one server and two clients, told line by line.
use anyhow::{Context, ensure};
use network::message::{Kind, Message};
use network::queue::Network;
use quorums::QuorumSystem;
use quorums::sets::ServerSet;
use quorums::threshold::Threshold;
use server::state::{Listener, Server};
use std::fmt;
use timestamps::Timestamp;
use timestamps::packed::Packed;
use values::Value;
use values::total::Total;

pub const WRITER: u8 = 0;

pub const READER: u8 = 1;

type Note = Message<Packed, Total>;

#[derive(Drop)]
pub struct Exchange {
    system: Threshold,
    network: Network,
    memory: [Note; 8],
    server: Server<Packed, Total>,
    listeners: [Listener<Packed>; 2],
}

// A message of a client to server 0, with the initial timestamp and total.
pub(crate) fn from_client(client: u8, kind: Kind, number: u32) -> Note {
    Message {
        client,
        server: 0,
        kind: u8::from(kind),
        number,
        timestamp: Packed::initial(),
        value: Total::initial(),
    }
}

// A message in words: timestamps and totals only where its kind carries them.
#[derive(Drop)]
struct InWords(Note);

impl fmt::Display for InWords {
    fn fmt<W: fmt::Write>(&self, f: &mut fmt::Formatter<W>) -> fmt::Result {
        let kind = Kind::try_from(self.0.kind);
        // Kept: each of the two programs tells its run in words of its own.
        match kind {
            Ok(kind) => write!(f, "{kind}")?,
            Err(unknown) => write!(f, "{unknown}")?,
        }
        let number = self.0.number;
        let client = self.0.client;
        write!(f, " {number} of client {client}")?;
        let timestamp = self.0.timestamp.number;
        let total = self.0.value.pence;
        match kind {
            Ok(Kind::Ts | Kind::Ack) => write!(f, " with timestamp {timestamp}"),
            Ok(Kind::Store | Kind::Value) => write!(
                f,
                " with timestamp {timestamp} and total {total}"
            ),
            _ => Ok(()),
        }
    }
}

impl Exchange {
    pub(crate) fn open(rt: &HostRuntime) -> anyhow::Result<Exchange> {
        let system = Threshold::open(1, 0)?;
        let servers = system.servers();
        let needed = system.needed();
        println!(rt;
            "Open a threshold quorum system of {servers} server and no fault: {needed} server is a quorum."
        )?;
        let memory = [from_client(WRITER, Kind::Query, 0); 8];
        let network = Network::open(8, &memory)?;
        let capacity = network.capacity;
        println!(rt; "Open a network for {capacity} messages.")?;
        let listeners = [Listener::silent(); 2];
        Ok(Exchange {
            system,
            network,
            memory,
            server: Server::initial(),
            listeners,
        })
    }

    pub(crate) fn post(&mut self, rt: &HostRuntime, message: Note) -> anyhow::Result<()> {
        self.network.post(&mut self.memory, message)?;
        let words = InWords(message);
        println!(rt; "Post {words}.")?;
        Ok(())
    }

    // Takes the message at a place and puts it back.
    pub(crate) fn look_at(&mut self, rt: &HostRuntime, place: usize) -> anyhow::Result<()> {
        let words = InWords(self.network.peek(&self.memory, place)?);
        println!(rt; "Take {words} from place {place}, and put it back.")?;
        Ok(())
    }

    // Takes the message at a place and settles it.
    pub(crate) fn deliver(&mut self, rt: &HostRuntime, place: usize) -> anyhow::Result<Note> {
        let (message, token) = self.network.take(&self.memory, place)?;
        self.network.settle(&mut self.memory, token);
        let words = InWords(message);
        let left = self.network.len;
        println!(rt; "Take {words} from place {place}, and settle it: {left} left.")?;
        Ok(message)
    }

    // Delivers the message at a place to the server.
    pub(crate) fn serve(&mut self, rt: &HostRuntime, place: usize) -> anyhow::Result<()> {
        let message = self.deliver(rt, place)?;
        let before = self.network.len;
        self.server.receive(
            &mut self.listeners,
            &mut self.network,
            &mut self.memory,
            message,
            false,
        )?;
        self.tell_sent(rt, before)
    }

    // Tells what the server holds, and each message that it sent.
    fn tell_sent(&self, rt: &HostRuntime, before: usize) -> anyhow::Result<()> {
        let timestamp = self.server.timestamp.number;
        let total = self.server.value.pence;
        println!(rt; "The server holds timestamp {timestamp} and total {total}.")?;
        for message in self.memory.iter().take(self.network.len).skip(before) {
            let words = InWords(*message);
            println!(rt; "It sends {words}.")?;
        }
        Ok(())
    }

    // A write whose QUERY stands at a place: the server's timestamp, the writer's next, and the total stored.
    pub(crate) fn write(
        &mut self,
        rt: &HostRuntime,
        number: u32,
        place: usize,
        total: Total,
    ) -> anyhow::Result<()> {
        self.serve(rt, place)?;
        let told = self.deliver(rt, place)?;
        self.expect_quorum(told)?;
        let timestamp = Packed::next(WRITER, told.timestamp, Packed::initial()).context(
            "no timestamp is left",
        )?;
        let chosen = timestamp.number;
        println!(rt; "The next timestamp of client {WRITER} is {chosen}.")?;
        let message = from_client(WRITER, Kind::Store, number);
        self.post(
            rt,
            Message {
                timestamp,
                value: total,
                ..message
            },
        )?;
        self.serve(rt, place)?;
        let confirmed = self.deliver(rt, place)?;
        self.expect_quorum(confirmed)?;
        println!(rt; "Write {number} of client {WRITER} is finished.")?;
        Ok(())
    }

    // The one server that a message is from is a quorum.
    fn expect_quorum(&self, message: Note) -> anyhow::Result<()> {
        let from = ServerSet::empty().with(message.server);
        ensure!(self.system.is_quorum(from), "no quorum");
        Ok(())
    }

    pub(crate) fn tell_end(&self, rt: &HostRuntime, seen: Note) -> anyhow::Result<()> {
        self.expect_quorum(seen)?;
        let timestamp = seen.timestamp.number;
        let total = seen.value.pence;
        println!(rt; "The read saw {total}, stored under timestamp {timestamp}.")?;
        Ok(())
    }
}
