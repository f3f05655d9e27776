// What a server refuses, and in which order.
use crate::fixture::{
    ACK, Fixture, Note, QUERY, READ, STOP, STORE, TS, VALUE, note, record, two_listening,
};
use calls::Refusal;
use calls::Refusal::{Memory, NetworkFull, TokenOut};
use network::queue::Network;
use server::state::{Listener, Server};
use std::process::Abort;
use timestamps::packed::Packed;
use values::total::Total;

// A message with timestamp 70, number 10 and total 20.
fn sample(client: u8, kind: u8) -> Note {
    note(client, kind, 10, 70, 20)
}

// Takes a message at a record. A refusal changes nothing.
fn taking(rt: &impl Abort, network: Network, message: Note, faulty: bool) -> Result<(), Refusal> {
    let before = Fixture {
        network,
        ..Fixture::new(two_listening(5), 0)
    };
    let mut after = before;
    let taken = after.receive(message, faulty);
    if taken.is_err() {
        assert_eq!(rt; after, before);
    }
    taken
}

#[test]
fn room_is_needed_for_all_that_is_sent(rt: HostRuntime) {
    // kind, client, messages in the network of four, answer: a STORE sends three
    let messages = [
        (QUERY, 1, 3, Ok(())),
        (QUERY, 1, 4, Err(NetworkFull)),
        (STORE, 1, 1, Ok(())),
        (STORE, 1, 2, Err(NetworkFull)),
        (STORE, 1, 4, Err(NetworkFull)),
        (READ, 1, 3, Ok(())),
        (READ, 1, 4, Err(NetworkFull)),
        (STOP, 1, 4, Ok(())),
        (0, 1, 4, Ok(())),
    ];
    for (kind, client, len, taken) in messages {
        assert_eq!(rt;
            taking(&rt, record(4, len, None), sample(client, kind), false),
            taken
        );
    }
}

#[test]
fn old_read_and_faulty_server_need_no_room(rt: HostRuntime) {
    assert_eq!(rt;
        taking(&rt, record(4, 4, None), note(1, READ, 8, 70, 20), false),
        Ok(())
    );
    assert_eq!(rt;
        taking(&rt, record(4, 4, None), sample(1, STORE), true),
        Ok(())
    );
}

#[test]
fn client_has_to_be_in_the_row(rt: HostRuntime) {
    for kind in [QUERY, STORE, READ, STOP, TS, 0] {
        assert_eq!(rt;
            taking(&rt, record(4, 0, None), sample(2, kind), false),
            Ok(())
        );
        assert_eq!(rt;
            taking(&rt, record(4, 0, None), sample(3, kind), false),
            Err(Memory)
        );
        assert_eq!(rt;
            taking(&rt, record(4, 0, None), sample(255, kind), true),
            Err(Memory)
        );
    }
}

#[test]
fn checks_memory_then_the_token_then_room(rt: HostRuntime) {
    let records = [
        (4, 4, Some(0), 1, Err(TokenOut)),
        (4, 0, None, 3, Err(Memory)),
        (4, 4, Some(0), 3, Err(Memory)),
        (4, 4, None, 3, Err(Memory)),
        (5, 0, None, 1, Err(Memory)),
        (5, 5, Some(1), 1, Err(Memory)),
        (4, 4, Some(4), 1, Err(Memory)),
        (4, 5, None, 1, Err(Memory)),
        (0, 0, None, 1, Err(Memory)),
        (4, 4, None, 1, Err(NetworkFull)),
    ];
    for (capacity, len, lifted, client, taken) in records {
        assert_eq!(rt;
            taking(
                &rt,
                record(capacity, len, lifted),
                sample(client, STORE),
                false
            ),
            taken
        );
    }
}

// Takes a message of a client at a server whose row has so many clients.
fn taking_in_row(rt: &impl Abort, clients: usize, client: u8) -> Result<(), Refusal> {
    let mut server: Server<Packed, Total> = Server::initial();
    let mut listeners = [Listener::silent(); 66];
    assert!(rt; clients <= 66);
    let mut network = record(1, 0, None);
    let mut memory = [note(0, 0, 0, 0, 0)];
    server.receive(
        &mut listeners[..clients],
        &mut network,
        &mut memory,
        sample(client, QUERY),
        false,
    )
}

#[test]
fn row_has_at_most_64_clients(rt: HostRuntime) {
    let rows = [
        (0, 0, Err(Memory)),
        (1, 0, Ok(())),
        (1, 1, Err(Memory)),
        (63, 63, Err(Memory)),
        (64, 63, Ok(())),
        (64, 64, Err(Memory)),
        (65, 0, Err(Memory)),
        (65, 64, Err(Memory)),
        (66, 65, Err(Memory)),
    ];
    for (clients, client, taken) in rows {
        assert_eq!(rt; taking_in_row(&rt, clients, client), taken);
    }
}

// How many messages a server that holds timestamp 69 would send.
fn replies(message: Note, faulty: bool) -> usize {
    let fixture = Fixture::new(two_listening(5), 0);
    fixture.server.replies(&fixture.listeners, message, faulty)
}

#[test]
fn replies_are_counted_beforehand(rt: HostRuntime) {
    let messages = [
        (QUERY, 1),
        (TS, 0),
        (STORE, 3),
        (ACK, 0),
        (READ, 1),
        (VALUE, 0),
        (STOP, 0),
        (8, 0),
    ];
    for (kind, sent) in messages {
        assert_eq!(rt; replies(sample(1, kind), false), sent);
        assert_eq!(rt; replies(sample(1, kind), true), 0);
    }
    assert_eq!(rt; replies(note(1, READ, 8, 0, 0), false), 0);
    assert_eq!(rt; replies(note(1, STORE, 8, 4, 0), false), 1);
}
