// The register delivers a message, and answers any call.
ghost use Rattle.delivery.specs.Memory.{SameLoans, contents};
ghost use Rattle.register.specs.Calling.{kinds, Answers, DeliverAnswers};

use crate::record::Register;
use calls::{Answer, Call};
use delivery::deliver::deliver;
use delivery::memory::Memory;
use network::message::Message;
use quorums::QuorumSystem;
use timestamps::Timestamp;
use values::Value;

impl<Q: QuorumSystem> Register<Q> {
    // Hands over the message at a place of the queue, from 0.
    pub fn deliver<S: Timestamp, V: Value>(
        &mut self,
        memory: &mut Memory<'_, S, V>,
        place: usize,
    ) -> Answer<S, V>
        ensures loans { SameLoans memory.old memory.new }
        ensures answers { DeliverAnswers (kinds Q.QuorumSystem S.Timestamp V.Value self.old) self.old (contents memory.old) place result self.new (contents memory.new) }
    {
        let mut len = self.len;
        let answer = deliver(
            &self.system,
            self.clients,
            self.capacity,
            self.faulty,
            &mut len,
            memory,
            place,
        );
        self.len = len;
        answer
    }

    // Answers a call.
    pub fn answer<S: Timestamp, V: Value>(
        &mut self,
        memory: &mut Memory<'_, S, V>,
        call: Call<S, V>,
    ) -> Answer<S, V>
        ensures loans { SameLoans memory.old memory.new }
        ensures answers { Answers (kinds Q.QuorumSystem S.Timestamp V.Value self.old) self.old (contents memory.old) call result self.new (contents memory.new) }
    {
        match call {
            Call::Write { client, value } => {
                let servers = &mut *memory.servers;
                let listeners = &mut *memory.listeners;
                let reports = &mut *memory.reports;
                self.write(
                    servers,
                    memory.clients,
                    listeners,
                    memory.messages,
                    reports,
                    client,
                    value,
                )
            }
            Call::Read { client } => {
                let servers = &mut *memory.servers;
                let listeners = &mut *memory.listeners;
                self.read(
                    servers,
                    memory.clients,
                    listeners,
                    memory.messages,
                    memory.reports,
                    client,
                )
            }
            Call::Deliver { place } => self.deliver(memory, place),
            Call::Turn { server } => {
                let servers = &mut *memory.servers;
                let clients = &mut *memory.clients;
                let listeners = &mut *memory.listeners;
                let messages = &mut *memory.messages;
                let reports = &mut *memory.reports;
                self.turn(servers, clients, listeners, messages, reports, server)
            }
            Call::Forge {
                server,
                client,
                kind,
                number,
                timestamp,
                value,
            } => {
                let message = Message {
                    client,
                    server,
                    kind,
                    number,
                    timestamp,
                    value,
                };
                let servers = &mut *memory.servers;
                let clients = &mut *memory.clients;
                let listeners = &mut *memory.listeners;
                let reports = &mut *memory.reports;
                self.forge(
                    servers,
                    clients,
                    listeners,
                    memory.messages,
                    reports,
                    message,
                )
            }
        }
    }
}
