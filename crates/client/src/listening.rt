// A client that reads: VALUE.
ghost use Rattle.std.specs.Prelude.{◌≡◌, ℕ, ◌+◌, ◌*◌, ◌<◌, ◌≤◌, true, length};
ghost use Rattle.reading.specs.Readings.{rules_of, heard, decide};
ghost use Rattle.reading.specs.Reports.{view};
ghost use Rattle.reading.specs.Hearing.{enough_memory};
ghost use Rattle.protocol.specs.Clients.{reading, decided, on_value};
ghost use Rattle.client.specs.Showing.{kinds_of, client_of, outcome_of};
ghost use Rattle.client.specs.Taking.{Tried, Within, Weighs};

use crate::state::{Broadcast, Client, Outcome, Phase};
use calls::{Answer, Refusal};
use network::message::{Kind, Message};
use quorums::QuorumSystem;
use reading::hear::hear;
use reading::reports::Report;
use timestamps::Timestamp;
use values::Value;

impl<S: Timestamp, V: Value> Client<S, V> {
    // The read goes on, or is finished with a pair.
    fn decided<Q: QuorumSystem>(
        &self,
        system: &Q,
        client: u8,
        found: Option<(S, V)>,
    ) -> Outcome<S, V>
        ensures { (known : _) → outcome_of (Q.size system.now) client result known ≡ decided (kinds_of Q.QuorumSystem S.Timestamp V.Value system.now) client (client_of self.now known) known found }
    {
        match found {
            Some((timestamp, value)) => Outcome {
                client: Client {
                    phase: Phase::Idle,
                    ..*self
                },
                answer: Answer::FinishedRead {
                    client,
                    number: self.number,
                    timestamp,
                    value,
                },
                broadcast: Some(Broadcast::plain(Kind::Stop, self.number)),
            },
            None => self.taken_in(Phase::Reading),
        }
    }

    // VALUE of a read, where there is room for so many messages.
    pub(crate) fn on_value<Q: QuorumSystem>(
        &self,
        system: &Q,
        part: &mut [Report<S, V>],
        message: Message<S, V>,
        room: usize,
    ) -> Result<Outcome<S, V>, Refusal>
        requires { enough_memory (Q.size system.now) part.old message.server ≡ true }
        ensures { let K = kinds_of Q.QuorumSystem S.Timestamp V.Value system.now in let known = view S.above (S.lowest, V.initial_value) (Q.size system.now) part.old in Weighs K (S.lowest, V.initial_value) part.old message (on_value K (client_of self.now known) message (reading known)) room result part.new }
    {
        let found = hear_within(system, part, message, room)?;
        Ok(self.decided(system, message.client, found))
    }
}

// A VALUE that may not end the read: where it would, the reports from the i-th on are as they were. Each is
// read on the way down and written back on the way up.
// Kept: the way down holds the old reports; that a copy in a local array of 272 fits, whatever the size of an entry, was
// tried and not proved.
fn try_value<Q: QuorumSystem, S: Timestamp, V: Value>(
    system: &Q,
    part: &mut [Report<S, V>],
    message: Message<S, V>,
    i: usize,
) -> Option<(S, V)>
    ensures { Tried (rules_of Q.QuorumSystem S.Timestamp V.Value system.now) (S.lowest, V.initial_value) i part.old message.server message.timestamp message.value result part.new }
{
    if i >= part.len() {
        return hear(
            system,
            part,
            message.server,
            message.timestamp,
            message.value,
        );
    }
    let old = part[i];
    let found = try_value(system, part, message, i + 1);
    if found.is_some() {
        part[i] = old;
    }
    found
}

// A VALUE where there is room for so many messages.
fn hear_within<Q: QuorumSystem, S: Timestamp, V: Value>(
    system: &Q,
    part: &mut [Report<S, V>],
    message: Message<S, V>,
    room: usize,
) -> Result<Option<(S, V)>, Refusal>
    ensures { Within (rules_of Q.QuorumSystem S.Timestamp V.Value system.now) (S.lowest, V.initial_value) room part.old message.server message.timestamp message.value result part.new }
{
    if room >= usize::from(system.servers()) {
        return Ok(hear(
            system,
            part,
            message.server,
            message.timestamp,
            message.value,
        ));
    }
    if try_value(system, part, message, 0).is_some() {
        return Err(Refusal::NetworkFull);
    }
    Ok(None)
}
