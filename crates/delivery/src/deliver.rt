// The delivery of a message that stands in the queue, over the memory of a whole register.
ghost use Rattle.std.specs.Prelude.{◌≡◌, ◌<◌, true, length, Some};
ghost use Rattle.calls.specs.Answers.{answer_of};
ghost use Rattle.network.specs.Kinds.{kind_of};
ghost use Rattle.network.specs.Queues.{fits};
ghost use Rattle.protocol.specs.Settings.{setting_of};
ghost use Rattle.protocol.specs.Protocol.{from_server};
ghost use Rattle.delivery.specs.Sizes.{enough_for};
ghost use Rattle.delivery.specs.Memory.{SameLoans, contents, sizes_of};
ghost use Rattle.delivery.specs.Answering.{Delivery};
ghost use Rattle.delivery.specs.Handing.{kind_named, HandedByKind, HandedOver};

use crate::hand::{hand_to_client, hand_to_server, refuse};
use crate::memory::Memory;
use calls::{Answer, Refusal};
use network::message::{Kind, Message};
use network::queue::{Network, Token};
use quorums::QuorumSystem;
use quorums::sets::ServerSet;
use timestamps::Timestamp;
use values::Value;

// Whether servers send messages of this kind.
pub fn is_from_server(kind: Kind) -> bool
    ensures { result ≡ from_server kind }
{
    matches!(kind, Kind::Ts | Kind::Ack | Kind::Value)
}

// The kind of a message that names a client, a server and a kind that are there.
fn kind_named<S: Copy, V: Copy>(message: &Message<S, V>, n: u8, m: usize) -> Option<Kind>
    ensures { result ≡ kind_named n m message.now }
{
    if usize::from(message.client) >= m || message.server >= n {
        return None;
    }
    Kind::try_from(message.kind).ok()
}

// Hands a lifted message of a kind to its client or to its server.
// Kept: as in `hand`, each inner function asks for the facts that it uses; message and token part on the way, since only the
// token is spent.
fn hand_by_kind<Q: QuorumSystem, S: Timestamp, V: Value>(
    system: &Q,
    m: usize,
    faulty: ServerSet,
    network: &mut Network,
    memory: &mut Memory<'_, S, V>,
    message: Message<S, V>,
    kind: Kind,
    token: Token,
) -> Result<Answer<S, V>, Refusal>
    requires client { message.client < m }
    requires server { message.server < Q.size system.now }
    requires named { kind_of message.kind ≡ Some kind }
    requires fits { fits network.old (length memory.old.messages.now) ≡ true }
    requires enough { enough_for (Q.size system.now) m network.old.capacity network.old.len (sizes_of (contents memory.old)) ≡ true }
    ensures loans { SameLoans memory.old memory.new }
    ensures handed { HandedByKind (setting_of Q.QuorumSystem S.Timestamp V.Value system.now m network.old.capacity 4294967295) network.old faulty (contents memory.old) message kind (answer_of result) network.new (contents memory.new) }
{
    if is_from_server(kind) {
        return hand_to_client(
            system,
            memory.clients,
            memory.reports,
            network,
            memory.messages,
            message,
            kind,
            token,
        );
    }
    let is_faulty = faulty.contains(message.server);
    hand_to_server(
        memory.servers,
        memory.listeners,
        network,
        memory.messages,
        m,
        message,
        token,
        is_faulty,
    )
}

// Hands a lifted message over, if it names a client, a server and a kind that are there.
fn hand_over<Q: QuorumSystem, S: Timestamp, V: Value>(
    system: &Q,
    m: usize,
    faulty: ServerSet,
    network: &mut Network,
    memory: &mut Memory<'_, S, V>,
    message: Message<S, V>,
    token: Token,
) -> Result<Answer<S, V>, Refusal>
    requires fits { fits network.old (length memory.old.messages.now) ≡ true }
    requires enough { enough_for (Q.size system.now) m network.old.capacity network.old.len (sizes_of (contents memory.old)) ≡ true }
    ensures loans { SameLoans memory.old memory.new }
    ensures handed { HandedOver (setting_of Q.QuorumSystem S.Timestamp V.Value system.now m network.old.capacity 4294967295) network.old faulty (contents memory.old) message (answer_of result) network.new (contents memory.new) }
{
    let n = system.servers();
    match kind_named(&message, n, m) {
        Some(kind) => hand_by_kind(system, m, faulty, network, memory, message, kind, token),
        None => {
            let messages = &mut *memory.messages;
            refuse(network, messages, token, Refusal::Memory)
        }
    }
}

// Delivers the message at a place of the queue: it is taken out, handed to its server or its client, and
// followed by what they send. A refusal leaves all as it was.
// Kept: the parts one by one, since the struct of them is the register's record, whose calls lie in the crate above, and a
// second struct of the same fields would be no plainer.
pub fn deliver<Q: QuorumSystem, S: Timestamp, V: Value>(
    system: &Q,
    m: usize,
    capacity: usize,
    faulty: ServerSet,
    len: &mut usize,
    memory: &mut Memory<'_, S, V>,
    place: usize,
) -> Answer<S, V>
    ensures loans { SameLoans memory.old memory.new }
    ensures delivered { Delivery (setting_of Q.QuorumSystem S.Timestamp V.Value system.now m capacity 4294967295) len.old faulty (contents memory.old) place result len.new (contents memory.new) }
{
    Answer::from(try_deliver(system, m, capacity, faulty, len, memory, place))
}

fn try_deliver<Q: QuorumSystem, S: Timestamp, V: Value>(
    system: &Q,
    m: usize,
    capacity: usize,
    faulty: ServerSet,
    len: &mut usize,
    memory: &mut Memory<'_, S, V>,
    place: usize,
) -> Result<Answer<S, V>, Refusal>
    ensures loans { SameLoans memory.old memory.new }
    ensures delivered { Delivery (setting_of Q.QuorumSystem S.Timestamp V.Value system.now m capacity 4294967295) len.old faulty (contents memory.old) place (answer_of result) len.new (contents memory.new) }
{
    let n = system.servers();
    if !memory.sizes().suffice(n, m, capacity, *len) {
        return Err(Refusal::Memory);
    }
    let mut network = Network {
        capacity,
        len: *len,
        lifted: None,
    };
    let messages = &mut *memory.messages;
    let (message, token) = network.take(messages, place)?;
    let handed = hand_over(system, m, faulty, &mut network, memory, message, token);
    *len = network.len;
    handed
}
