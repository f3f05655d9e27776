// A register is opened: its record, and its memory set up.
ghost use Rattle.std.specs.Prelude.{◌≡◌, ◌*◌, ◌≤◌, ◌++◌, length, drop, replicate};
ghost use Rattle.protocol.specs.Settings.{setting_of};
ghost use Rattle.delivery.specs.Memory.{lent};
ghost use Rattle.register.specs.Calling.{Opened};

use crate::record::Register;
use calls::Refusal;
use client::state::Client;
use network::message::Message;
use quorums::QuorumSystem;
use quorums::sets::ServerSet;
use reading::reports::Report;
use server::state::{Listener, Server};
use timestamps::Timestamp;
use values::Value;

// The first entries of a memory become this value.
// Kept: a loop, since std's fill asks that a clone cannot fail, which no type parameter says.
fn reset<T: Copy>(memory: &mut [T], count: usize, value: T)
    requires { count ≤ length memory.old }
    ensures { memory.new ≡ replicate count value ++ drop count memory.old }
{
    for entry in memory[..count].iter_mut() {
        *entry = value;
    }
}

// How many listeners n servers have for m clients.
// Kept: n is widened by `as` in this file, since with usize::from the proof of what is set up did not close.
fn listener_count(n: u8, m: usize) -> usize
    requires { m ≤ 64 }
    ensures { result ≡ n * m }
{
    n as usize * m
}

impl<Q: QuorumSystem> Register<Q> {
    // A register of m clients over this memory, with nothing under way. Messages and reports are left as they are.
    // Kept: the slices one by one, here and in write, read, turn and forge, since a slice that a call only reads is lent for
    // reading alone; a struct of exclusive loans would ask more of callers.
    pub fn open<S: Timestamp, V: Value>(
        system: Q,
        m: usize,
        capacity: usize,
        servers: &mut [Server<S, V>],
        clients: &mut [Client<S, V>],
        listeners: &mut [Listener<S>],
        messages: &[Message<S, V>],
        reports: &[Report<S, V>],
    ) -> Result<Register<Q>, Refusal>
        ensures { Opened (setting_of Q.QuorumSystem S.Timestamp V.Value system m capacity 4294967295) system (lent servers.old clients.old listeners.old messages.now reports.now) result (lent servers.new clients.new listeners.new messages.now reports.now) }
    {
        let register = Register {
            system,
            clients: m,
            capacity,
            len: 0,
            faulty: ServerSet::empty(),
        };
        register.check_memory(servers, clients, listeners, messages, reports)?;
        let n = system.servers();
        reset(servers, n as usize, Server::initial());
        reset(clients, m, Client::initial());
        reset(listeners, listener_count(n, m), Listener::silent());
        Ok(register)
    }
}
