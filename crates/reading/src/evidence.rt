// The watched timestamps, and the servers' evidence for them.
ghost use Rattle.std.specs.Prelude.{◌≡◌, ℕ, ◌*◌, ◌<◌, ◌≤◌};
ghost use Rattle.quorums.specs.Sets.{members};
ghost use Rattle.reading.specs.Readings.{rules_for, noted, rewatched};
ghost use Rattle.reading.specs.Reports.{Kept, cell, known, watches, has, fresh, anew, renew_from};

use crate::reports::{Report, Reports};
use quorums::QuorumSystem;
use quorums::sets::ServerSet;
use timestamps::{Timestamp, is_level};
use values::Value;

impl<S: Timestamp, V: Value> Reports<'_, S, V> {
    // Whether the slot is watched for the timestamp.
    fn is_watched(&self, timestamp: S, slot: u8) -> bool
        ensures { result ≡ watches S.above (cell self.now.n self.now.entries.now) timestamp slot }
    {
        self.entry(slot, slot)
            .is_some_and(|(leader, _)| is_level(timestamp, leader))
    }

    // The server's evidence for the timestamp.
    pub(crate) fn evidence_of(&self, server: u8, timestamp: S) -> Option<V>
        ensures { result ≡ (known S.Timestamp V.Value self.now).evidence server timestamp }
    {
        let slot = (0..self.n)
            .rev()
            .find(|slot| self.is_watched(timestamp, *slot))?;
        self.entry(server, slot).map(|(_, value)| value)
    }

    // Kept: the two that write a server's row ask that the server is one of the n; those that read ask nothing.
    // Writes the pair as the server's evidence into each slot that is watched for its timestamp.
    pub(crate) fn note(&mut self, server: u8, pair: (S, V))
        requires row { server < self.old.n }
        ensures kept { Kept self.old self.new }
        ensures after { known S.Timestamp V.Value self.new ≡ noted S.above (known S.Timestamp V.Value self.old) server pair.0 pair.1 }
    {
        for slot in 0..self.n {
            if self.is_watched(pair.0, slot) {
                self.put(server, slot, Some(pair));
            }
        }
    }

    // What the server has for the timestamp: its latest value, or its evidence.
    fn known_for(&self, server: u8, timestamp: S) -> Option<V>
        ensures { result ≡ has S.above (known S.Timestamp V.Value self.now) server timestamp }
    {
        // Kept: with or_else the proof did not close.
        match self.last(server) {
            Some((latest, value)) if is_level(latest, timestamp) => Some(value),
            _ => self.evidence_of(server, timestamp),
        }
    }

    // The entry of what the server has for the latest timestamp of the slot's server.
    fn fresh(&self, server: u8, slot: u8) -> Report<S, V>
        ensures { result ≡ fresh S.above (known S.Timestamp V.Value self.now) server slot }
    {
        let timestamp = self.latest(slot);
        self.known_for(server, timestamp)
            .map(|value| (timestamp, value))
    }

    // The server's entry in the slot after a server has entered.
    fn anew(&self, leading: ServerSet, server: u8, slot: u8) -> Report<S, V>
        ensures { result ≡ anew S.above (members leading) (known S.Timestamp V.Value self.now) server slot }
    {
        if leading.contains(slot) {
            self.fresh(server, slot)
        } else {
            None
        }
    }

    // Writes the slots anew, counted row by row: all are made before the first is written, in an array that has room for them.
    // Kept: by number, as the definition counts the slots that are written; two loops would count them in another order.
    // Not inlined, so that only the array of the size that is called for takes room on the stack.
    #[inline(never)]
    fn renew_in<const ROOM: usize>(&mut self, leading: ServerSet)
        requires { self.old.n * self.old.n ≤ ROOM }
        ensures kept { Kept self.old self.new }
        ensures after { (x k : ℕ) → x < self.old.n → k ≤ self.old.n → cell self.old.n self.new.entries.now x k ≡ renew_from (anew S.above (members leading) (known S.Timestamp V.Value self.old)) self.old.n 0 (cell self.old.n self.old.entries.now) x k }
    {
        let width = u16::from(self.n);
        let mut slots: [Report<S, V>; ROOM] = [None; ROOM];
        for i in 0..width * width {
            slots[usize::from(i)] = self.anew(leading, (i / width) as u8, (i % width) as u8);
        }
        for j in (0..width * width).rev() {
            self.put((j / width) as u8, (j % width) as u8, slots[usize::from(j)]);
        }
    }

    // Writes the slots anew, in an array that is at most four times as large as it must be.
    fn renew(&mut self, leading: ServerSet)
        ensures kept { Kept self.old self.new }
        ensures after { (x k : ℕ) → x < self.old.n → k ≤ self.old.n → cell self.old.n self.new.entries.now x k ≡ renew_from (anew S.above (members leading) (known S.Timestamp V.Value self.old)) self.old.n 0 (cell self.old.n self.old.entries.now) x k }
    {
        match self.n {
            0..=1 => self.renew_in::<1>(leading),
            2 => self.renew_in::<4>(leading),
            3..=4 => self.renew_in::<16>(leading),
            5..=8 => self.renew_in::<64>(leading),
            _ => self.renew_in::<256>(leading),
        }
    }

    // A server has entered: the latest timestamps of the leading servers are watched from now on.
    pub(crate) fn watch_anew<Q: QuorumSystem>(&mut self, system: &Q)
        ensures kept { Kept self.old self.new }
        ensures after { known S.Timestamp V.Value self.new ≡ rewatched (rules_for Q.QuorumSystem S.Timestamp V.Value self.old.n system.now) (known S.Timestamp V.Value self.old) }
    {
        let leading = self.leaders(system);
        self.renew(leading);
    }
}
