// A client that writes: TS and ACK.
ghost use Rattle.std.specs.Prelude.{◌≡◌, ℕ, ◌<◌, true, None};
ghost use Rattle.quorums.specs.Sets.{members};
ghost use Rattle.reading.specs.Readings.{updated};
ghost use Rattle.protocol.specs.Clients.{asking, storing, unchanged, chosen, asked, on_ts, stored, on_ack};
ghost use Rattle.calls.specs.declared.Answer.TheVariants.{Taken};
ghost use Rattle.client.specs.Showing.{kinds_of, phase_of, client_of, outcome_of};

use crate::reply::Reply;
use crate::state::{Broadcast, Client, Outcome, Phase};
use calls::Answer;
use network::message::Kind;
use quorums::QuorumSystem;
use quorums::sets::ServerSet;
use timestamps::{Timestamp, higher_of, is_level};
use values::Value;

// The set with a server in it too.
fn counted(set: ServerSet, server: u8) -> ServerSet
    requires { server < 16 }
    ensures { members result ≡ updated (members set) server true }
{
    set.with(server)
}

impl<S: Timestamp, V: Value> Client<S, V> {
    // The message is taken, and nothing comes of it.
    pub(crate) fn unchanged(&self) -> Outcome<S, V>
        ensures { (n c : ℕ) (known : _) → outcome_of n c result known ≡ unchanged (client_of self.now known) }
    {
        self.taken_in(self.phase)
    }

    // The message is taken, and the client is in another phase of its operation.
    pub(crate) fn taken_in(&self, phase: Phase<S, V>) -> Outcome<S, V>
        ensures { result ≡ record { client = record { number = self.now.number; last = self.now.last; phase = phase }; answer = Taken; broadcast = None } }
    {
        Outcome {
            client: Client { phase, ..*self },
            answer: Answer::Taken,
            broadcast: None,
        }
    }

    // A quorum told its timestamps: the write has the next one, or none is left.
    fn chosen<Q: QuorumSystem>(
        &self,
        system: &Q,
        client: u8,
        value: V,
        next: Option<S>,
    ) -> Outcome<S, V>
        ensures { (known : _) → outcome_of (Q.size system.now) client result known ≡ chosen (kinds_of Q.QuorumSystem S.Timestamp V.Value system.now) client (client_of self.now known) value next }
    {
        match next {
            Some(timestamp) => Outcome {
                client: Client {
                    last: timestamp,
                    phase: Phase::Storing {
                        timestamp,
                        value,
                        acknowledged: ServerSet::empty(),
                    },
                    ..*self
                },
                answer: Answer::Taken,
                broadcast: Some(Broadcast {
                    kind: Kind::Store,
                    number: self.number,
                    timestamp,
                    value,
                }),
            },
            None => Outcome {
                client: Client {
                    phase: Phase::Idle,
                    ..*self
                },
                answer: Answer::Spent {
                    client,
                    number: self.number,
                },
                broadcast: None,
            },
        }
    }

    // Kept: a phase's fields one by one, since a struct for each phase would be made and taken apart at each step.
    // These servers told their timestamps, of which this is the highest: once they are a quorum, the write goes on.
    fn asked<Q: QuorumSystem>(
        &self,
        system: &Q,
        client: u8,
        value: V,
        told: ServerSet,
        highest: S,
    ) -> Outcome<S, V>
        ensures { (known : _) → outcome_of (Q.size system.now) client result known ≡ asked (kinds_of Q.QuorumSystem S.Timestamp V.Value system.now) client (client_of self.now known) value (members told) highest }
    {
        if !system.is_quorum(told) {
            return self.taken_in(Phase::Asking {
                value,
                told,
                highest,
            });
        }
        self.chosen(system, client, value, S::next(client, highest, self.last))
    }

    // These servers acknowledged the pair: once they are a quorum, the write is finished.
    fn stored<Q: QuorumSystem>(
        &self,
        system: &Q,
        client: u8,
        timestamp: S,
        value: V,
        acknowledged: ServerSet,
    ) -> Outcome<S, V>
        ensures { (known : _) → outcome_of (Q.size system.now) client result known ≡ stored (kinds_of Q.QuorumSystem S.Timestamp V.Value system.now) client (client_of self.now known) timestamp value (members acknowledged) }
    {
        if !system.is_quorum(acknowledged) {
            return self.taken_in(Phase::Storing {
                timestamp,
                value,
                acknowledged,
            });
        }
        Outcome {
            client: Client {
                phase: Phase::Idle,
                ..*self
            },
            answer: Answer::FinishedWrite {
                client,
                number: self.number,
                timestamp,
            },
            broadcast: None,
        }
    }

    // TS of a write that asks: the first of each server counts.
    pub(crate) fn on_ts<Q: QuorumSystem>(
        &self,
        system: &Q,
        reply: Reply<S, V>,
        value: V,
        told: ServerSet,
        highest: S,
    ) -> Outcome<S, V>
        ensures { (known : _) → outcome_of (Q.size system.now) reply.message.client result known ≡ on_ts (kinds_of Q.QuorumSystem S.Timestamp V.Value system.now) (client_of self.now known) reply.message (asking value (members told) highest) }
    {
        let Reply { message } = reply;
        if told.contains(message.server) {
            return self.unchanged();
        }
        self.asked(
            system,
            message.client,
            value,
            counted(told, message.server),
            higher_of(highest, message.timestamp),
        )
    }

    // ACK of a write that stores: it counts if it has the timestamp that is stored.
    pub(crate) fn on_ack<Q: QuorumSystem>(
        &self,
        system: &Q,
        reply: Reply<S, V>,
        timestamp: S,
        value: V,
        acknowledged: ServerSet,
    ) -> Outcome<S, V>
        ensures { (known : _) → outcome_of (Q.size system.now) reply.message.client result known ≡ on_ack (kinds_of Q.QuorumSystem S.Timestamp V.Value system.now) (client_of self.now known) reply.message (storing timestamp value (members acknowledged)) }
    {
        let Reply { message } = reply;
        if !is_level(message.timestamp, timestamp) {
            return self.unchanged();
        }
        self.stored(
            system,
            message.client,
            timestamp,
            value,
            counted(acknowledged, message.server),
        )
    }
}
