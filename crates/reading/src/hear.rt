// What a reading client does with its reports: it forgets them when a read begins, and takes in a VALUE of a server.
ghost use Rattle.std.specs.Prelude.{◌≡◌, ℕ, ◌+◌, ◌*◌, ◌<◌, ◌≤◌, ◌&&◌, None, length, replicate, nat_le, nat_lt};
ghost use Rattle.reading.specs.Readings.{rules_for, rules_of, unread};
ghost use Rattle.reading.specs.Reports.{view};
ghost use Rattle.reading.specs.Hearing.{Hearing, after_value, decided};

use crate::reports::{Report, Reports, entries_for};
use quorums::QuorumSystem;
use timestamps::Timestamp;
use values::Value;

// The entry reports nothing from now on.
fn erase<S: Timestamp, V: Value>(report: &mut Report<S, V>)
    ensures { report.new ≡ None }
{
    *report = None;
}

// A read begins: nothing is known.
// Kept: a loop, since std's fill asks that a clone cannot fail, which no type parameter says.
pub fn forget<S: Timestamp, V: Value>(part: &mut [Report<S, V>])
    ensures memory { part.new ≡ replicate (length part.old) None }
    ensures shows { (n : ℕ) → view S.above (S.lowest, V.initial_value) n part.new ≡ unread S.lowest V.initial_value }
{
    for report in part.iter_mut() {
        erase(report);
    }
}

// Whether the memory has room for n servers, and the server is one of them.
pub fn has_room(entries: usize, n: u8, server: u8) -> bool
    ensures { result ≡ (nat_le (n * (n + 1)) entries && nat_lt server n) }
{
    entries_for(n) <= entries && server < n
}

// A VALUE of the server: what the client keeps of it in the reports of n servers, and what it decides.
// Kept: with the struct made in hear, from a part of the slice, the proof lost what the slice holds in the end.
fn learn<Q: QuorumSystem, S: Timestamp, V: Value>(
    system: &Q,
    part: &mut [Report<S, V>],
    n: u8,
    server: u8,
    pair: (S, V),
) -> Option<(S, V)>
    requires few { n ≤ 16 }
    requires room { length part.old ≡ n * (n + 1) }
    requires row { server < n }
    ensures after { view S.above (S.lowest, V.initial_value) n part.new ≡ after_value (rules_for Q.QuorumSystem S.Timestamp V.Value n system.now) (S.lowest, V.initial_value) part.old server pair.0 pair.1 }
    ensures answer { result ≡ decided (rules_for Q.QuorumSystem S.Timestamp V.Value n system.now) (S.lowest, V.initial_value) part.old server pair.0 pair.1 }
{
    let mut reports = Reports::new(part, n);
    let entered = reports.raise(server, pair);
    if !entered {
        reports.watch_anew(system);
    }
    reports.note(server, pair);
    reports.decide(system)
}

// A VALUE of the server for the client whose reports these are: a pair where the read is done with it.
// Where the memory is too short, or there is no such server, nothing changes.
pub fn hear<Q: QuorumSystem, S: Timestamp, V: Value>(
    system: &Q,
    part: &mut [Report<S, V>],
    server: u8,
    timestamp: S,
    value: V,
) -> Option<(S, V)>
    ensures { Hearing (rules_of Q.QuorumSystem S.Timestamp V.Value system.now) (S.lowest, V.initial_value) part.old server timestamp value result part.new }
{
    let n = system.servers();
    if !has_room(part.len(), n, server) {
        return None;
    }
    learn(
        system,
        &mut part[..entries_for(n)],
        n,
        server,
        (timestamp, value),
    )
}
