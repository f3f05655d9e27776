// A client begins to write or to read.
ghost use Rattle.std.specs.Prelude.{◌≡◌, ◌-◌, ◌≤◌, length};
ghost use Rattle.calls.specs.Answers.{answer_of};
ghost use Rattle.calls.specs.declared.Call.TheVariants.{Write, Read};
ghost use Rattle.network.specs.Queues.{Room, Sent};
ghost use Rattle.client.specs.Showing.{messages_of};
ghost use Rattle.client.specs.Taking.{sending};
ghost use Rattle.delivery.specs.Memory.{lent};
ghost use Rattle.register.specs.Calling.{kinds, network_of, with_queue, Answers, ReadAnswers};

use crate::begin::{begin_read_at, begin_write_at};
use crate::record::Register;
use calls::{Answer, Refusal};
use client::state::{Broadcast, Client};
use network::message::Message;
use network::queue::Network;
use quorums::QuorumSystem;
use reading::reports::Report;
use server::state::{Listener, Server};
use timestamps::Timestamp;
use values::Value;

impl<Q: QuorumSystem> Register<Q> {
    // The network's own record.
    pub(crate) fn network(&self) -> Network
        ensures { result ≡ network_of self.now }
    {
        Network {
            capacity: self.capacity,
            len: self.len,
            lifted: None,
        }
    }

    // How many messages there is room for.
    fn room(&self) -> usize
        ensures { result ≡ self.now.capacity - self.now.len }
    {
        self.capacity.saturating_sub(self.len)
    }

    // Sends what goes from a client to the servers, for which there is room.
    // Kept: beside a delivery's, which sends on a network that it holds, and this on one that it makes.
    fn send<S: Timestamp, V: Value>(
        &mut self,
        messages: &mut [Message<S, V>],
        client: u8,
        broadcast: Option<Broadcast<S, V>>,
    )
        requires { Room (network_of self.old) (length messages.old) (sending (Q.size self.old.system) broadcast) }
        ensures record { self.new ≡ with_queue self.old self.new.len self.old.faulty }
        ensures sent { Sent (network_of self.old) messages.old (messages_of (Q.size self.old.system) client broadcast) (network_of self.new) messages.new }
    {
        let mut network = self.network();
        if let Some(broadcast) = broadcast {
            let _ = broadcast.send(&mut network, messages, self.system.servers(), client);
        }
        self.len = network.len;
    }

    // A client begins to write a value.
    pub fn write<S: Timestamp, V: Value>(
        &mut self,
        servers: &[Server<S, V>],
        clients: &mut [Client<S, V>],
        listeners: &[Listener<S>],
        messages: &mut [Message<S, V>],
        reports: &[Report<S, V>],
        client: u8,
        value: V,
    ) -> Answer<S, V>
        ensures { Answers (kinds Q.QuorumSystem S.Timestamp V.Value self.old) self.old (lent servers.now clients.old listeners.now messages.old reports.now) (Write client value) result self.new (lent servers.now clients.new listeners.now messages.new reports.now) }
    {
        Answer::from(self.try_write(
            servers, clients, listeners, messages, reports, client, value,
        ))
    }

    // Kept: a function beside the call, since ? needs a Result and a run takes an Answer of each call.
    fn try_write<S: Timestamp, V: Value>(
        &mut self,
        servers: &[Server<S, V>],
        clients: &mut [Client<S, V>],
        listeners: &[Listener<S>],
        messages: &mut [Message<S, V>],
        reports: &[Report<S, V>],
        client: u8,
        value: V,
    ) -> Result<Answer<S, V>, Refusal>
        ensures { Answers (kinds Q.QuorumSystem S.Timestamp V.Value self.old) self.old (lent servers.now clients.old listeners.now messages.old reports.now) (Write client value) (answer_of result) self.new (lent servers.now clients.new listeners.now messages.new reports.now) }
    {
        self.check_memory(servers, clients, listeners, messages, reports)?;
        self.check_client(client)?;
        let room = self.room();
        let begun = begin_write_at(&self.system, clients, client, value, room)?;
        let (answer, broadcast) = begun;
        self.send(messages, client, broadcast);
        Ok(answer)
    }

    // A client begins to read.
    pub fn read<S: Timestamp, V: Value>(
        &mut self,
        servers: &[Server<S, V>],
        clients: &mut [Client<S, V>],
        listeners: &[Listener<S>],
        messages: &mut [Message<S, V>],
        reports: &mut [Report<S, V>],
        client: u8,
    ) -> Answer<S, V>
        ensures { ReadAnswers (kinds Q.QuorumSystem S.Timestamp V.Value self.old) self.old (lent servers.now clients.old listeners.now messages.old reports.old) client result self.new (lent servers.now clients.new listeners.now messages.new reports.new) }
    {
        Answer::from(self.try_read(servers, clients, listeners, messages, reports, client))
    }

    fn try_read<S: Timestamp, V: Value>(
        &mut self,
        servers: &[Server<S, V>],
        clients: &mut [Client<S, V>],
        listeners: &[Listener<S>],
        messages: &mut [Message<S, V>],
        reports: &mut [Report<S, V>],
        client: u8,
    ) -> Result<Answer<S, V>, Refusal>
        ensures { ReadAnswers (kinds Q.QuorumSystem S.Timestamp V.Value self.old) self.old (lent servers.now clients.old listeners.now messages.old reports.old) client (answer_of result) self.new (lent servers.now clients.new listeners.now messages.new reports.new) }
    {
        self.check_memory(servers, clients, listeners, messages, reports)?;
        self.check_client(client)?;
        let room = self.room();
        let begun = begin_read_at(&self.system, clients, reports, client, room)?;
        let (answer, broadcast) = begun;
        self.send(messages, client, broadcast);
        Ok(answer)
    }
}
