// A message at its client, over the memory of all clients.
ghost use Rattle.std.specs.Prelude.{◌≡◌, ℕ, ◌+◌, ◌*◌, ◌<◌, ◌≤◌, length};
ghost use Rattle.client.specs.Showing.{kinds_of};
ghost use Rattle.delivery.specs.Parts.{ClientsKept, Attended};

use calls::{Answer, Refusal};
use client::state::{Broadcast, Client};
use network::message::{Kind, Message};
use quorums::QuorumSystem;
use reading::reports::{Report, entries_for};
use timestamps::Timestamp;
use values::Value;

// Lends the client of a message, and its own reports, for the message.
// Kept: the part is cut by its places, since a function that returned it would owe a clause on what becomes of the loan;
// and with `as`, since with usize::from the proofs of the bounds did not close.
pub(crate) fn attend<Q: QuorumSystem, S: Timestamp, V: Value>(
    system: &Q,
    clients: &mut [Client<S, V>],
    reports: &mut [Report<S, V>],
    message: Message<S, V>,
    kind: Kind,
    room: usize,
) -> Result<(Answer<S, V>, Option<Broadcast<S, V>>), Refusal>
    requires client { message.client < length clients.old }
    requires server { message.server < Q.size system.now }
    requires part { message.client * (Q.size system.now * (Q.size system.now + 1)) + Q.size system.now * (Q.size system.now + 1) ≤ length reports.old }
    ensures attended { (m : ℕ) → message.client < m → Attended (kinds_of Q.QuorumSystem S.Timestamp V.Value system.now) m clients.old reports.old message kind room result clients.new reports.new }
    ensures kept { (m : ℕ) → message.client < m → ClientsKept (kinds_of Q.QuorumSystem S.Timestamp V.Value system.now) m clients.old reports.old message kind clients.new reports.new }
{
    let place = message.client as usize;
    let count = entries_for(system.servers());
    let first = place * count;
    clients[place].take_in(
        system,
        &mut reports[first..first + count],
        message,
        kind,
        room,
    )
}
