// The servers' latest pairs, and the order that they put the servers in.
ghost use Rattle.std.specs.Prelude.{◌≡◌, ℕ, ◌<◌};
ghost use Rattle.quorums.specs.Sets.{Set, members};
ghost use Rattle.reading.specs.Choosing.{Tested, Tells};
ghost use Rattle.reading.specs.Readings.{rules_for, ahead, newer, raised, leads};
ghost use Rattle.reading.specs.Reports.{Kept, cell, late, known};

use crate::reports::{Report, Reports};
use quorums::QuorumSystem;
use quorums::sets::ServerSet;
use timestamps::Timestamp;
use values::Value;

// Those of the first n servers of which the test holds.
// Kept: a loop, whose invariant says which servers the set has so far; in a fold it would have to stand at the closure.
pub(crate) fn servers_where<F: Fn(u8) -> bool>(n: u8, holds: F) -> ServerSet
    requires { (i : ℕ) → i < n → F.pre holds i }
    ensures tested { Tested (F.post holds) n (members result) }
    ensures exact { (p : Set) → Tells (F.post holds) n p → members result ≡ p }
{
    let mut set = ServerSet::empty();
    for server in 0..n {
        if holds(server) {
            set = set.with(server);
        }
    }
    set
}

impl<S: Timestamp, V: Value> Reports<'_, S, V> {
    // The server's latest report; of a server from n on there is none.
    pub(crate) fn last(&self, server: u8) -> Report<S, V>
        ensures { result ≡ late self.now.n (cell self.now.n self.now.entries.now) server }
    {
        self.entry(server, self.n)
    }

    // Whether the server has entered.
    fn has_entered(&self, server: u8) -> bool
        ensures { result ≡ (known S.Timestamp V.Value self.now).entered server }
    {
        self.last(server).is_some()
    }

    // The server's latest timestamp; the initial one, where it has not entered.
    pub(crate) fn latest(&self, server: u8) -> S
        ensures { result ≡ (known S.Timestamp V.Value self.now).latest server }
    {
        self.last(server)
            .map_or(S::initial(), |(timestamp, _)| timestamp)
    }

    // Whether the timestamp would be the server's latest: of equals the earlier stays.
    fn is_newer(&self, server: u8, timestamp: S) -> bool
        ensures { result ≡ newer S.above (known S.Timestamp V.Value self.now) server timestamp }
    {
        self.last(server)
            .is_none_or(|(latest, _)| timestamp.is_above(latest))
    }

    // Brings the server's latest pair up to date, and says whether the server had entered before.
    pub(crate) fn raise(&mut self, server: u8, pair: (S, V)) -> bool
        requires row { server < self.old.n }
        ensures kept { Kept self.old self.new }
        ensures was { result ≡ (known S.Timestamp V.Value self.old).entered server }
        ensures after { known S.Timestamp V.Value self.new ≡ raised S.above (known S.Timestamp V.Value self.old) server pair.0 pair.1 }
    {
        let entered = self.has_entered(server);
        if self.is_newer(server, pair.0) {
            self.put(server, self.n, Some(pair));
        }
        entered
    }

    // Whether another server is ahead of the server.
    fn is_ahead(&self, server: u8, other: u8) -> bool
        ensures { result ≡ ahead S.above (known S.Timestamp V.Value self.now) server other }
    {
        let own = self.latest(server);
        self.last(other).is_some_and(|(others, _)| {
            others.is_above(own) || !own.is_above(others) && other < server
        })
    }

    // The servers that are ahead of the server.
    fn ahead_of(&self, server: u8) -> ServerSet
        ensures { members result ≡ ahead S.above (known S.Timestamp V.Value self.now) server }
    {
        servers_where(self.n, |other| self.is_ahead(server, other))
    }

    // Whether the server leads.
    fn is_leader<Q: QuorumSystem>(&self, system: &Q, server: u8) -> bool
        ensures { result ≡ leads (rules_for Q.QuorumSystem S.Timestamp V.Value self.now.n system.now) (known S.Timestamp V.Value self.now) server }
    {
        self.has_entered(server) && system.is_fail_prone(self.ahead_of(server))
    }

    // The servers that lead.
    pub(crate) fn leaders<Q: QuorumSystem>(&self, system: &Q) -> ServerSet
        ensures { members result ≡ leads (rules_for Q.QuorumSystem S.Timestamp V.Value self.now.n system.now) (known S.Timestamp V.Value self.now) }
    {
        servers_where(self.n, |server| self.is_leader(system, server))
    }
}
