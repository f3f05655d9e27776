// A client of the register begins an operation, over the memory of all clients.
ghost use Rattle.std.specs.Prelude.{◌≡◌, ℕ, ◌+◌, ◌*◌, ◌<◌, ◌≤◌, length};
ghost use Rattle.protocol.specs.Settings.{setting_of};
ghost use Rattle.protocol.specs.Clients.{begins_write, begins_read};
ghost use Rattle.delivery.specs.Parts.{clients_in};
ghost use Rattle.register.specs.Beginning.{BegunAt, ReadReports};

use calls::{Answer, Refusal};
use client::state::{Broadcast, Client};
use quorums::QuorumSystem;
use reading::reports::{Report, entries_for};
use timestamps::Timestamp;
use values::Value;

// Lends the client for a write.
pub(crate) fn begin_write_at<Q: QuorumSystem, S: Timestamp, V: Value>(
    system: &Q,
    clients: &mut [Client<S, V>],
    client: u8,
    value: V,
    room: usize,
) -> Result<(Answer<S, V>, Option<Broadcast<S, V>>), Refusal>
    requires { client < length clients.old }
    ensures { (m capacity most : ℕ) (reports : _) → client < m → client * (Q.size system.now * (Q.size system.now + 1)) + Q.size system.now * (Q.size system.now + 1) ≤ length reports → BegunAt (setting_of Q.QuorumSystem S.Timestamp V.Value system.now m capacity most) clients.old reports client (begins_write (setting_of Q.QuorumSystem S.Timestamp V.Value system.now m capacity most) client (clients_in (setting_of Q.QuorumSystem S.Timestamp V.Value system.now m capacity most) m clients.old reports client) value) room result clients.new reports }
{
    let place = client as usize;
    clients[place].begin_write(system, client, value, room)
}

// Lends the client and its own reports for a read.
// Kept: beside the write's, since only a read lends reports; cut by places and with `as`, as for a delivery.
pub(crate) fn begin_read_at<Q: QuorumSystem, S: Timestamp, V: Value>(
    system: &Q,
    clients: &mut [Client<S, V>],
    reports: &mut [Report<S, V>],
    client: u8,
    room: usize,
) -> Result<(Answer<S, V>, Option<Broadcast<S, V>>), Refusal>
    requires client { client < length clients.old }
    requires part { client * (Q.size system.now * (Q.size system.now + 1)) + Q.size system.now * (Q.size system.now + 1) ≤ length reports.old }
    ensures { (m capacity most : ℕ) → client < m → BegunAt (setting_of Q.QuorumSystem S.Timestamp V.Value system.now m capacity most) clients.old reports.old client (begins_read (setting_of Q.QuorumSystem S.Timestamp V.Value system.now m capacity most) client (clients_in (setting_of Q.QuorumSystem S.Timestamp V.Value system.now m capacity most) m clients.old reports.old client)) room result clients.new reports.new × ReadReports (setting_of Q.QuorumSystem S.Timestamp V.Value system.now m capacity most) client reports.old result reports.new }
{
    let place = client as usize;
    let count = entries_for(system.servers());
    let first = place * count;
    clients[place].begin_read(system, &mut reports[first..first + count], client, room)
}
