// When the read is done: a quorum has the same evidence for a watched timestamp.
ghost use Rattle.std.specs.Prelude.{◌≡◌, ◌<◌, Some};
ghost use Rattle.quorums.specs.Sets.{members};
ghost use Rattle.reading.specs.Readings.{rules_for, backers, better, backed, decide};
ghost use Rattle.reading.specs.Reports.{cell, timestamp_of, known};
ghost use Rattle.reading.specs.Deciding.{passes, bettered};

use crate::order::servers_where;
use crate::reports::Reports;
use quorums::QuorumSystem;
use quorums::sets::ServerSet;
use timestamps::Timestamp;
use values::Value;

// Of a pair and the rest, the one with the higher timestamp.
fn better<S: Timestamp, V: Value>(pair: (S, V), rest: Option<(S, V)>) -> Option<(S, V)>
    ensures { result ≡ better S.above pair.0 (Some pair.1) rest }
{
    rest.filter(|(other, _)| (*other).is_above(pair.0))
        .or(Some(pair))
}

impl<S: Timestamp, V: Value> Reports<'_, S, V> {
    // Whether the server's evidence for the timestamp is this value.
    fn is_backer(&self, timestamp: S, value: V, server: u8) -> bool
        ensures { result ≡ backers V.same (known S.Timestamp V.Value self.now) timestamp value server }
    {
        self.evidence_of(server, timestamp)
            .is_some_and(|evidence| evidence.is_same(value))
    }

    // The servers whose evidence for the timestamp is this value.
    fn backers(&self, timestamp: S, value: V) -> ServerSet
        ensures { members result ≡ backers V.same (known S.Timestamp V.Value self.now) timestamp value }
    {
        servers_where(self.n, |server| self.is_backer(timestamp, value, server))
    }

    // Whether a quorum has this value as its evidence for the timestamp.
    fn is_backed<Q: QuorumSystem>(&self, system: &Q, timestamp: S, value: V) -> bool
        ensures { result ≡ Q.quorum system.now (backers V.same (known S.Timestamp V.Value self.now) timestamp value) }
    {
        system.is_quorum(self.backers(timestamp, value))
    }

    // Whether a quorum has the same evidence for the timestamp as the server.
    fn is_shared<Q: QuorumSystem>(&self, system: &Q, timestamp: S, server: u8) -> bool
        ensures { result ≡ passes (λ v. Q.quorum system.now (backers V.same (known S.Timestamp V.Value self.now) timestamp v)) ((known S.Timestamp V.Value self.now).evidence server timestamp) }
    {
        // Kept: with is_some_and the proof did not close.
        match self.evidence_of(server, timestamp) {
            Some(value) => self.is_backed(system, timestamp, value),
            None => false,
        }
    }

    // The value that a quorum has as its evidence for the timestamp.
    fn backed<Q: QuorumSystem>(&self, system: &Q, timestamp: S) -> Option<V>
        ensures { result ≡ backed (rules_for Q.QuorumSystem S.Timestamp V.Value self.now.n system.now) (known S.Timestamp V.Value self.now) timestamp self.now.n }
    {
        let server = (0..self.n)
            .rev()
            .find(|server| self.is_shared(system, timestamp, *server))?;
        self.evidence_of(server, timestamp)
    }

    // The slot's timestamp with the value that a quorum has for it, or the rest: of two, the one with the higher timestamp.
    fn bettered<Q: QuorumSystem>(
        &self,
        system: &Q,
        slot: u8,
        rest: Option<(S, V)>,
    ) -> Option<(S, V)>
        ensures { result ≡ bettered (rules_for Q.QuorumSystem S.Timestamp V.Value self.now.n system.now) (known S.Timestamp V.Value self.now) (timestamp_of (cell self.now.n self.now.entries.now slot slot)) rest }
    {
        let Some((timestamp, _)) = self.entry(slot, slot) else {
            return rest;
        };
        self.backed(system, timestamp)
            .map_or(rest, |value| better((timestamp, value), rest))
    }

    // The highest watched timestamp for which a quorum has the same evidence, with that value.
    pub(crate) fn decide<Q: QuorumSystem>(&self, system: &Q) -> Option<(S, V)>
        ensures { result ≡ decide (rules_for Q.QuorumSystem S.Timestamp V.Value self.now.n system.now) (known S.Timestamp V.Value self.now) (known S.Timestamp V.Value self.now).watched }
    {
        (0..self.n)
            .rev()
            .fold(None, |best, slot| self.bettered(system, slot, best))
    }
}
