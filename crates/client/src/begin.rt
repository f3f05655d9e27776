// How a client begins an operation.
ghost use Rattle.std.specs.Prelude.{◌≡◌, ◌<◌, length, replicate, None};
ghost use Rattle.client.specs.declared.state.Phase.TheVariants.{Idle};
ghost use Rattle.calls.specs.Refusals.{passed};
ghost use Rattle.reading.specs.Readings.{unread};
ghost use Rattle.reading.specs.Reports.{view};
ghost use Rattle.protocol.specs.Clients.{reading, begins};
ghost use Rattle.client.specs.Showing.{kinds_of, phase_of, client_of, outcome_of};
ghost use Rattle.client.specs.Taking.{is_resting, begin_refusal, BegunWrite, BegunRead};

use crate::state::{Broadcast, Client, Outcome, Phase};
use calls::{Answer, Refusal};
use network::message::Kind;
use quorums::QuorumSystem;
use quorums::sets::ServerSet;
use reading::hear::forget;
use reading::reports::Report;
use timestamps::Timestamp;
use values::Value;

// The highest number that an operation may have.
pub const MOST_OPERATIONS: u32 = u32::MAX;

impl<S: Timestamp, V: Value> Client<S, V> {
    // A client at first.
    pub fn initial() -> Client<S, V>
        ensures { result ≡ record { number = 0; last = S.lowest; phase = Idle } }
    {
        Client {
            number: 0,
            last: S::initial(),
            phase: Phase::Idle,
        }
    }

    // Whether no operation is open.
    fn rests(&self) -> bool
        ensures { result ≡ is_resting self.now.phase }
    {
        matches!(self.phase, Phase::Idle)
    }

    // Whether an operation may begin, where there is room for so many messages.
    fn may_begin<Q: QuorumSystem>(&self, system: &Q, room: usize) -> Result<(), Refusal>
        ensures { result ≡ passed (begin_refusal (kinds_of Q.QuorumSystem S.Timestamp V.Value system.now) (S.lowest, V.initial_value) self.now room) }
    {
        if !self.rests() {
            return Err(Refusal::OperationOpen);
        }
        if self.number >= MOST_OPERATIONS {
            return Err(Refusal::NumbersUsedUp);
        }
        if room < usize::from(system.servers()) {
            return Err(Refusal::NetworkFull);
        }
        Ok(())
    }

    // The client becomes what the outcome says: what is answered, and what goes to the servers.
    pub(crate) fn becomes(
        &mut self,
        outcome: Outcome<S, V>,
    ) -> (Answer<S, V>, Option<Broadcast<S, V>>)
        ensures client { self.new ≡ outcome.client }
        ensures given { result ≡ (outcome.answer, outcome.broadcast) }
    {
        *self = outcome.client;
        (outcome.answer, outcome.broadcast)
    }

    // An operation under the next number, whose message goes to every server.
    fn begun<Q: QuorumSystem>(
        &self,
        system: &Q,
        client: u8,
        phase: Phase<S, V>,
        kind: Kind,
    ) -> Outcome<S, V>
        requires { self.now.number < 4294967295 }
        ensures { (known : _) → outcome_of (Q.size system.now) client result known ≡ begins (kinds_of Q.QuorumSystem S.Timestamp V.Value system.now) client (client_of self.now known) (phase_of phase known) kind }
    {
        let number = self.number + 1;
        Outcome {
            client: Client {
                number,
                phase,
                ..*self
            },
            answer: Answer::Begun { client, number },
            broadcast: Some(Broadcast::plain(kind, number)),
        }
    }

    // Begins a write: what is answered, and what goes to the servers.
    pub fn begin_write<Q: QuorumSystem>(
        &mut self,
        system: &Q,
        client: u8,
        value: V,
        room: usize,
    ) -> Result<(Answer<S, V>, Option<Broadcast<S, V>>), Refusal>
        ensures { BegunWrite (kinds_of Q.QuorumSystem S.Timestamp V.Value system.now) (S.lowest, V.initial_value) self.old client value room result self.new }
    {
        self.may_begin(system, room)?;
        let asking = Phase::Asking {
            value,
            told: ServerSet::empty(),
            highest: S::initial(),
        };
        let outcome = self.begun(system, client, asking, Kind::Query);
        Ok(self.becomes(outcome))
    }

    // Begins a read, with nothing known.
    // Kept: beside a write's beginning, since a read is lent its reports, and forgets them only once it may begin.
    pub fn begin_read<Q: QuorumSystem>(
        &mut self,
        system: &Q,
        part: &mut [Report<S, V>],
        client: u8,
        room: usize,
    ) -> Result<(Answer<S, V>, Option<Broadcast<S, V>>), Refusal>
        ensures { BegunRead (kinds_of Q.QuorumSystem S.Timestamp V.Value system.now) (S.lowest, V.initial_value) self.old part.old client room result self.new part.new }
    {
        self.may_begin(system, room)?;
        forget(part);
        let outcome = self.begun(system, client, Phase::Reading, Kind::Read);
        Ok(self.becomes(outcome))
    }
}
