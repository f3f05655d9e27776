// A value stored at one server after the other until they are a quorum, with any kinds.
use calls::Refusal;
use network::message::{Kind, Message};
use network::queue::Network;
use quorums::QuorumSystem;
use quorums::listed::Listed;
use quorums::sets::ServerSet;
use quorums::threshold::Threshold;
use server::state::{Listener, Server};
use std::process::Abort;
use std::test::Fail;
use third::light::Light;
use third::passing::hand_over;
use third::unanimous::Unanimous;
use third::version::Version;
use timestamps::Timestamp;
use timestamps::packed::Packed;
use values::Value;
use values::total::Total;

// A STORE of client 0.
fn store<S: Timestamp, V: Value>(server: u8, timestamp: S, value: V) -> Message<S, V> {
    Message {
        client: 0,
        server,
        kind: u8::from(Kind::Store),
        number: 1,
        timestamp,
        value,
    }
}

// Takes the oldest message out of the network.
// Kept: what crates of tests have alike stands in each, since they share no crate.
fn oldest<S: Copy, V: Copy>(
    network: &mut Network,
    memory: &mut [Message<S, V>],
) -> Result<Message<S, V>, Refusal> {
    let (message, token) = network.take(memory, 0)?;
    network.settle(memory, token);
    Ok(message)
}

// Stores a pair at a server, and sees that the server confirms it: the server.
fn confirmed<S: Timestamp, V: Value>(
    rt: &impl Abort,
    server: &mut Server<S, V>,
    listeners: &mut [Listener<S>],
    memory: &mut [Message<S, V>],
    message: Message<S, V>,
) -> Result<u8, Fail> {
    let mut network = Network::open(1, memory)?;
    hand_over(server, listeners, &mut network, memory, message)?;
    let ack = oldest(&mut network, memory)?;
    assert_eq!(rt; ack.kind, u8::from(Kind::Ack));
    assert!(rt; !ack.timestamp.is_above(message.timestamp));
    assert!(rt; !message.timestamp.is_above(ack.timestamp));
    Ok(ack.server)
}

// How many servers have confirmed a value when they are first a quorum; 0 if they never are.
fn confirmations<Q: QuorumSystem, S: Timestamp, V: Value>(
    rt: &impl Abort,
    system: &Q,
    servers: &mut [Server<S, V>],
    listeners: &mut [Listener<S>],
    memory: &mut [Message<S, V>],
    value: V,
) -> Result<usize, Fail> {
    let Some(timestamp) = S::next(0, S::initial(), S::initial()) else {
        return Err(Fail::new("no timestamp is left"));
    };
    let mut set = ServerSet::empty();
    for (number, server) in (0..16u8).zip(servers.iter_mut()) {
        let message = store(number, timestamp, value);
        set = set.with(confirmed(rt, server, listeners, memory, message)?);
        if system.is_quorum(set) {
            return Ok(usize::from(number) + 1);
        }
    }
    Ok(0)
}

#[test]
fn unanimous_servers_store_a_light_under_a_version(rt: HostRuntime) -> Result<(), Fail> {
    let system = Unanimous::open(3)?;
    let mut servers: [Server<Version, Light>; 3] = [Server::initial(); 3];
    let mut listeners = [Listener::silent()];
    let mut memory = [store(0, Version::initial(), Light::initial())];
    assert_eq!(rt;
        confirmations(
            &rt,
            &system,
            &mut servers,
            &mut listeners,
            &mut memory,
            Light::On,
        )?,
        3
    );
    for server in servers {
        assert_eq!(rt; server.timestamp.number, 1);
        assert_eq!(rt; server.value, Light::On);
    }
    Ok(())
}

#[test]
fn threshold_servers_store_a_total_under_a_packed_timestamp(rt: HostRuntime) -> Result<(), Fail> {
    let system = Threshold::open(4, 1)?;
    let mut servers: [Server<Packed, Total>; 4] = [Server::initial(); 4];
    let mut listeners = [Listener::silent()];
    let mut memory = [store(0, Packed::initial(), Total::initial())];
    assert_eq!(rt;
        confirmations(
            &rt,
            &system,
            &mut servers,
            &mut listeners,
            &mut memory,
            Total::new(1250),
        )?,
        3
    );
    assert_eq!(rt; servers[2].timestamp.number, 64);
    assert_eq!(rt; servers[3].timestamp.number, 0);
    Ok(())
}

#[test]
fn listed_servers_store_a_light_under_a_packed_timestamp(rt: HostRuntime) -> Result<(), Fail> {
    let system = Listed::open(4, &[ServerSet { mask: 3 }, ServerSet { mask: 4 }])?;
    let mut servers: [Server<Packed, Light>; 4] = [Server::initial(); 4];
    let mut listeners = [Listener::silent()];
    let mut memory = [store(0, Packed::initial(), Light::initial())];
    assert_eq!(rt;
        confirmations(
            &rt,
            &system,
            &mut servers,
            &mut listeners,
            &mut memory,
            Light::Broken,
        )?,
        4
    );
    assert_eq!(rt; servers[3].value, Light::Broken);
    Ok(())
}
