// What a client makes of a message.
ghost use Rattle.std.specs.Prelude.{◌≡◌, ◌<◌, ◌+◌, ◌*◌, true, false, ◌&&◌, nat_le, nat_lt};
ghost use Rattle.reading.specs.Reports.{view};
ghost use Rattle.reading.specs.Hearing.{enough_memory};
ghost use Rattle.protocol.specs.Clients.{awaited};
ghost use Rattle.client.specs.Showing.{kinds_of, client_of, outcome_of};
ghost use Rattle.client.specs.Taking.{sending, Fitting, is_reading, is_value, hears_value, expected, Weighs, TakenIn};

use crate::reply::Reply;
use crate::state::{Broadcast, Client, Outcome, Phase};
use calls::{Answer, Refusal};
use network::message::{Kind, Message};
use quorums::QuorumSystem;
use reading::hear::has_room;
use reading::reports::Report;
use timestamps::Timestamp;
use values::Value;

impl<S: Timestamp, V: Value> Outcome<S, V> {
    // The outcome, unless it sends more messages than there is room.
    fn within<Q: QuorumSystem>(self, system: &Q, room: usize) -> Result<Outcome<S, V>, Refusal>
        ensures { Fitting (Q.size system.now) room self result }
    {
        if self.broadcast.is_some() && usize::from(system.servers()) > room {
            return Err(Refusal::NetworkFull);
        }
        Ok(self)
    }
}

impl<S: Timestamp, V: Value> Client<S, V> {
    // A message of the open operation that is no VALUE of a read: one that the phase does not await is dropped.
    fn on_other<Q: QuorumSystem>(&self, system: &Q, reply: Reply<S, V>, kind: Kind) -> Outcome<S, V>
        ensures { (known : _) → (is_reading self.now.phase && is_value kind) ≡ false → outcome_of (Q.size system.now) reply.message.client result known ≡ awaited (kinds_of Q.QuorumSystem S.Timestamp V.Value system.now) kind (client_of self.now known) reply.message }
    {
        match (&self.phase, kind) {
            (
                Phase::Asking {
                    value,
                    told,
                    highest,
                },
                Kind::Ts,
            ) => self.on_ts(system, reply, *value, *told, *highest),
            (
                Phase::Storing {
                    timestamp,
                    value,
                    acknowledged,
                },
                Kind::Ack,
            ) => self.on_ack(system, reply, *timestamp, *value, *acknowledged),
            _ => self.unchanged(),
        }
    }

    // A message of the open operation, where there is room for so many messages: one that the phase does not await is dropped.
    fn weigh<Q: QuorumSystem>(
        &self,
        system: &Q,
        part: &mut [Report<S, V>],
        message: Message<S, V>,
        kind: Kind,
        room: usize,
    ) -> Result<Outcome<S, V>, Refusal>
        requires { enough_memory (Q.size system.now) part.old message.server ≡ true }
        ensures weighed { let K = kinds_of Q.QuorumSystem S.Timestamp V.Value system.now in let known = view S.above (S.lowest, V.initial_value) (Q.size system.now) part.old in Weighs K (S.lowest, V.initial_value) part.old message (awaited K kind (client_of self.now known) message) room result part.new }
        ensures unheard { (is_reading self.now.phase && is_value kind) ≡ false → part.new ≡ part.old }
    {
        match (&self.phase, kind) {
            (Phase::Reading, Kind::Value) => self.on_value(system, part, message, room),
            _ => self
                .on_other(system, Reply { message }, kind)
                .within(system, room),
        }
    }

    // Takes a message of a kind in, where there is room for so many messages: what is answered, and what goes to
    // the servers. A message with another number is dropped.
    pub fn take_in<Q: QuorumSystem>(
        &mut self,
        system: &Q,
        part: &mut [Report<S, V>],
        message: Message<S, V>,
        kind: Kind,
        room: usize,
    ) -> Result<(Answer<S, V>, Option<Broadcast<S, V>>), Refusal>
        ensures taken { TakenIn (kinds_of Q.QuorumSystem S.Timestamp V.Value system.now) (S.lowest, V.initial_value) self.old part.old message kind room result self.new part.new }
        ensures unheard { hears_value self.old message kind ≡ false → part.new ≡ part.old }
    {
        if !has_room(part.len(), system.servers(), message.server) {
            return Err(Refusal::Memory);
        }
        if message.number != self.number {
            return Ok((Answer::Taken, None));
        }
        let outcome = self.weigh(system, part, message, kind, room)?;
        Ok(self.becomes(outcome))
    }
}
