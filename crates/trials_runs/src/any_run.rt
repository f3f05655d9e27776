// A run with any kinds: client 0 writes, client 1 reads, and all messages are delivered, oldest first.
use calls::{Answer, Call};
use client::state::Client;
use delivery::memory::Memory;
use network::message::Message;
use quorums::QuorumSystem;
use runs::play::play;
use server::state::{Listener, Server};
use std::alloc::{AllocError, Global};
use std::process::Abort;
use std::test::Fail;
use timestamps::Timestamp;
use values::Value;

// A write that is followed by 16 deliveries, and a read that is followed by 12.
fn calls_of<S: Timestamp, V: Value>(heap: Global, value: V) -> Result<Vec<Call<S, V>>, AllocError> {
    let mut calls = vec![in heap; Call::Deliver { place: 0 }; 28]?;
    calls.insert(0, Call::Write { client: 0, value })?;
    calls.insert(17, Call::Read { client: 1 })?;
    Ok(calls)
}

// Whether two timestamps are equal: neither is above the other.
// Kept: the tests' own, so that what is expected does not go through what is tested.
fn is_level<S: Timestamp>(a: S, b: S) -> bool {
    !a.is_above(b) && !b.is_above(a)
}

// Whether this is answer i, where the first servers up to so many are the first quorum.
// Kept: a match by the kinds' own equality, since not every value has an ==.
fn is_expected<S: Timestamp, V: Value>(
    answer: Answer<S, V>,
    i: usize,
    needed: u8,
    written: (S, V),
) -> bool {
    let wrote = 12 + usize::from(needed);
    let read = 21 + usize::from(needed);
    match answer {
        Answer::Begun {
            client: 0,
            number: 1,
        } => i == 0,
        Answer::Begun {
            client: 1,
            number: 1,
        } => i == 17,
        Answer::FinishedWrite {
            client: 0,
            number: 1,
            timestamp,
        } => i == wrote && is_level(timestamp, written.0),
        Answer::FinishedRead {
            client: 1,
            number: 1,
            timestamp,
            value,
        } => i == read && is_level(timestamp, written.0) && value.is_same(written.1),
        Answer::Taken => ![0, 17, wrote, read].contains(&i),
        _ => false,
    }
}

// What memory holds before the first message.
// Kept: each crate of tests, and the program, has an empty message of its own, since they share no crate.
fn blank<S: Timestamp, V: Value>() -> Message<S, V> {
    Message {
        client: 0,
        server: 0,
        kind: 0,
        number: 0,
        timestamp: S::initial(),
        value: V::initial(),
    }
}

// Plays the run on a system of four servers, of which the first so many are a quorum and no fewer: the read gives
// the pair that was written.
pub(crate) fn plays<Q: QuorumSystem, S: Timestamp, V: Value>(
    rt: &impl Abort,
    heap: Global,
    system: Q,
    needed: u8,
    timestamp: S,
    value: V,
) -> Result<(), Fail> {
    let calls = calls_of(heap, value)?;
    let mut servers = vec![in heap; Server::initial(); 4]?;
    let mut clients = vec![in heap; Client::initial(); 2]?;
    let mut listeners = vec![in heap; Listener::silent(); 8]?;
    let mut messages = vec![in heap; blank(); 8]?;
    let mut reports = vec![in heap; None; 40]?;
    let mut memory = Memory {
        servers: &mut servers,
        clients: &mut clients,
        listeners: &mut listeners,
        messages: &mut messages,
        reports: &mut reports,
    };
    let mut answers = vec![in heap; Answer::Turned; 30]?;
    let register = play(system, 2, 8, &mut memory, &calls, &mut answers)?;
    assert_eq!(rt; register.len, 0);
    for (i, answer) in answers.iter().enumerate() {
        assert!(rt; is_expected(*answer, i, needed, (timestamp, value)));
    }
    for server in servers.iter() {
        assert!(rt; is_level(server.timestamp, timestamp));
        assert!(rt; server.value.is_same(value));
    }
    Ok(())
}
