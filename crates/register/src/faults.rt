// What a register is told of faulty servers: that one is faulty from now on, and what it sends.
ghost use Rattle.std.specs.Prelude.{◌≡◌, ◌+◌, length, slice_set};
ghost use Rattle.calls.specs.Answers.{answer_of};
ghost use Rattle.calls.specs.Refusals.{passed};
ghost use Rattle.calls.specs.declared.Call.TheVariants.{Turn, Forge};
ghost use Rattle.network.specs.Kinds.{kind_of};
ghost use Rattle.network.specs.Queues.{Room};
ghost use Rattle.protocol.specs.Protocol.{may_be_sent};
ghost use Rattle.delivery.specs.Memory.{lent};
ghost use Rattle.register.specs.Calling.{kinds, network_of, with_queue, Answers};
ghost use Rattle.register.specs.Faults.{turn_refusal, forge_refusal};

use crate::record::Register;
use calls::{Answer, Refusal};
use client::state::Client;
use delivery::deliver::is_from_server;
use network::message::{Kind, Message};
use quorums::QuorumSystem;
use quorums::sets::ServerSet;
use reading::reports::Report;
use server::state::{Listener, Server};
use timestamps::Timestamp;
use values::Value;

// Whether a byte stands for a kind that servers send.
fn may_be_sent(byte: u8) -> bool
    ensures { result ≡ may_be_sent (kind_of byte) }
{
    Kind::try_from(byte).is_ok_and(is_from_server)
}

impl<Q: QuorumSystem> Register<Q> {
    // The server may turn faulty, so that these are the faulty ones.
    fn check_turn(&self, server: u8, faulty: ServerSet) -> Result<(), Refusal>
        ensures { result ≡ passed (turn_refusal (Q.size self.now.system) (Q.fail_prone self.now.system) server faulty) }
    {
        if server >= self.system.servers() {
            return Err(Refusal::NoServer);
        }
        if !self.system.is_fail_prone(faulty) {
            return Err(Refusal::NotFailProne);
        }
        Ok(())
    }

    // A server is faulty from now on; a second time it does nothing.
    pub fn turn<S: Timestamp, V: Value>(
        &mut self,
        servers: &[Server<S, V>],
        clients: &[Client<S, V>],
        listeners: &[Listener<S>],
        messages: &[Message<S, V>],
        reports: &[Report<S, V>],
        server: u8,
    ) -> Answer<S, V>
        ensures { Answers (kinds Q.QuorumSystem S.Timestamp V.Value self.old) self.old (lent servers.now clients.now listeners.now messages.now reports.now) (Turn server) result self.new (lent servers.now clients.now listeners.now messages.now reports.now) }
    {
        Answer::from(self.try_turn(servers, clients, listeners, messages, reports, server))
    }

    fn try_turn<S: Timestamp, V: Value>(
        &mut self,
        servers: &[Server<S, V>],
        clients: &[Client<S, V>],
        listeners: &[Listener<S>],
        messages: &[Message<S, V>],
        reports: &[Report<S, V>],
        server: u8,
    ) -> Result<Answer<S, V>, Refusal>
        ensures { Answers (kinds Q.QuorumSystem S.Timestamp V.Value self.old) self.old (lent servers.now clients.now listeners.now messages.now reports.now) (Turn server) (answer_of result) self.new (lent servers.now clients.now listeners.now messages.now reports.now) }
    {
        self.check_memory(servers, clients, listeners, messages, reports)?;
        let faulty = self.faulty.with(server);
        self.check_turn(server, faulty)?;
        self.faulty = faulty;
        Ok(Answer::Turned)
    }

    // A message of these names and this kind may be sent by a faulty server.
    fn check_forging(&self, server: u8, client: u8, kind: u8) -> Result<(), Refusal>
        ensures { result ≡ passed (forge_refusal (Q.size self.now.system) self.now.clients self.now.capacity self.now.len self.now.faulty server client kind) }
    {
        if server >= self.system.servers() {
            return Err(Refusal::NoServer);
        }
        self.check_client(client)?;
        if !self.faulty.contains(server) {
            return Err(Refusal::ServerCorrect);
        }
        if !may_be_sent(kind) {
            return Err(Refusal::NotServerKind);
        }
        if self.len >= self.capacity {
            return Err(Refusal::NetworkFull);
        }
        Ok(())
    }

    // Puts a message behind the others, where there is room for it.
    fn post<S: Timestamp, V: Value>(
        &mut self,
        messages: &mut [Message<S, V>],
        message: Message<S, V>,
    )
        requires { Room (network_of self.old) (length messages.old) 1 }
        ensures record { self.new ≡ with_queue self.old (self.old.len + 1) self.old.faulty }
        ensures memory { messages.new ≡ slice_set messages.old self.old.len message }
    {
        let mut network = self.network();
        let _ = network.post(messages, message);
        self.len = network.len;
    }

    // A faulty server sends a message, with all fields as given.
    pub fn forge<S: Timestamp, V: Value>(
        &mut self,
        servers: &[Server<S, V>],
        clients: &[Client<S, V>],
        listeners: &[Listener<S>],
        messages: &mut [Message<S, V>],
        reports: &[Report<S, V>],
        message: Message<S, V>,
    ) -> Answer<S, V>
        ensures { Answers (kinds Q.QuorumSystem S.Timestamp V.Value self.old) self.old (lent servers.now clients.now listeners.now messages.old reports.now) (Forge message.server message.client message.kind message.number message.timestamp message.value) result self.new (lent servers.now clients.now listeners.now messages.new reports.now) }
    {
        Answer::from(self.try_forge(servers, clients, listeners, messages, reports, message))
    }

    fn try_forge<S: Timestamp, V: Value>(
        &mut self,
        servers: &[Server<S, V>],
        clients: &[Client<S, V>],
        listeners: &[Listener<S>],
        messages: &mut [Message<S, V>],
        reports: &[Report<S, V>],
        message: Message<S, V>,
    ) -> Result<Answer<S, V>, Refusal>
        ensures { Answers (kinds Q.QuorumSystem S.Timestamp V.Value self.old) self.old (lent servers.now clients.now listeners.now messages.old reports.now) (Forge message.server message.client message.kind message.number message.timestamp message.value) (answer_of result) self.new (lent servers.now clients.now listeners.now messages.new reports.now) }
    {
        self.check_memory(servers, clients, listeners, messages, reports)?;
        self.check_forging(message.server, message.client, message.kind)?;
        self.post(messages, message);
        Ok(Answer::Forged)
    }
}
