// One server: what it does with each kind of message, and what it refuses.
use crate::fixture::{
    ACK, Fixture, QUERY, READ, STOP, STORE, TS, VALUE, blank, holds, listens, note, two_listening,
};

#[test]
fn query_is_answered_with_the_timestamp_held(rt: HostRuntime) {
    let mut fixture = Fixture::new(two_listening(69), 1);
    assert_eq!(rt; fixture.receive(note(2, QUERY, 6, 500, 7), false), Ok(()));
    let memory = [blank(), note(2, TS, 6, 69, 0), blank(), blank()];
    assert_eq!(rt;
        fixture,
        Fixture {
            memory,
            ..Fixture::new(two_listening(69), 2)
        }
    );
}

#[test]
fn store_is_held_if_its_timestamp_is_above(rt: HostRuntime) {
    let stores = [
        (70, 70, 20),
        (69, 69, 1250),
        (68, 69, 1250),
        (0, 69, 1250),
        (18446744073709551615, 18446744073709551615, 20),
    ];
    for (timestamp, held, total) in stores {
        let mut fixture = Fixture::new([listens(0, false, 0); 3], 0);
        assert_eq!(rt;
            fixture.receive(note(1, STORE, 4, timestamp, 20), false),
            Ok(())
        );
        assert_eq!(rt; fixture.network.len, 1);
        assert_eq!(rt;
            fixture.memory.first(),
            Some(&note(1, ACK, 4, timestamp, 0))
        );
        assert_eq!(rt; fixture.server, holds(held, total));
    }
}

#[test]
fn store_is_passed_on_in_client_order(rt: HostRuntime) {
    let mut fixture = Fixture::new(two_listening(69), 1);
    assert_eq!(rt; fixture.receive(note(1, STORE, 4, 69, 20), false), Ok(()));
    let ack = note(1, ACK, 4, 69, 0);
    let first = note(0, VALUE, 3, 69, 20);
    let second = note(2, VALUE, 9, 69, 20);
    assert_eq!(rt;
        fixture,
        Fixture {
            memory: [blank(), ack, first, second],
            ..Fixture::new(two_listening(69), 4)
        }
    );
}

#[test]
fn late_store_is_passed_on_from_an_equal_start_only(rt: HostRuntime) {
    // the timestamp, and how many messages are sent: ACK, and VALUE to client 2, and to client 0
    let stores = [(70, 3), (69, 3), (68, 2), (5, 2), (4, 1), (0, 1)];
    for (timestamp, sent) in stores {
        let mut fixture = Fixture::new(two_listening(69), 0);
        assert_eq!(rt;
            fixture.receive(note(1, STORE, 4, timestamp, 20), false),
            Ok(())
        );
        assert_eq!(rt; fixture.network.len, sent);
        assert_eq!(rt;
            fixture.memory.first(),
            Some(&note(1, ACK, 4, timestamp, 0))
        );
        if sent == 2 {
            assert_eq!(rt;
                fixture.memory.get(1),
                Some(&note(2, VALUE, 9, timestamp, 20))
            );
        }
    }
}

#[test]
fn read_is_answered_if_its_number_is_above_the_last(rt: HostRuntime) {
    let reads = [
        (0, 0, 8, false, 0),
        (7, 0, 8, false, 0),
        (8, 0, 8, false, 0),
        (9, 1, 9, true, 69),
        (4294967295, 1, 4294967295, true, 69),
    ];
    for (number, sent, last, listening, start) in reads {
        let mut fixture = Fixture::new(two_listening(69), 0);
        assert_eq!(rt;
            fixture.receive(note(1, READ, number, 500, 7), false),
            Ok(())
        );
        assert_eq!(rt; fixture.network.len, sent);
        assert_eq!(rt;
            fixture.listeners.get(1),
            Some(&listens(last, listening, start))
        );
        assert_eq!(rt; fixture.server, holds(69, 1250));
        if sent == 1 {
            assert_eq!(rt;
                fixture.memory.first(),
                Some(&note(1, VALUE, number, 69, 1250))
            );
        }
    }
}

#[test]
fn stop_ends_listening_if_its_number_is_not_below_the_last(rt: HostRuntime) {
    let stops = [
        (0, 9, true),
        (8, 9, true),
        (9, 9, false),
        (10, 10, false),
        (4294967295, 4294967295, false),
    ];
    for (number, last, listening) in stops {
        let mut fixture = Fixture::new(two_listening(69), 4);
        assert_eq!(rt;
            fixture.receive(note(2, STOP, number, 500, 7), false),
            Ok(())
        );
        assert_eq!(rt; fixture.network.len, 4);
        assert_eq!(rt;
            fixture.listeners.get(2),
            Some(&listens(last, listening, 5))
        );
        assert_eq!(rt; fixture.listeners.first(), Some(&listens(3, true, 69)));
        assert_eq!(rt; fixture.server, holds(69, 1250));
    }
}

#[test]
fn faulty_server_does_nothing(rt: HostRuntime) {
    for kind in [QUERY, TS, STORE, ACK, READ, VALUE, STOP, 0, 8, 255] {
        let mut fixture = Fixture::new(two_listening(69), 4);
        assert_eq!(rt; fixture.receive(note(2, kind, 10, 70, 20), true), Ok(()));
        assert_eq!(rt; fixture, Fixture::new(two_listening(69), 4));
    }
}

#[test]
fn messages_of_servers_and_of_no_kind_are_left_alone(rt: HostRuntime) {
    for kind in [TS, ACK, VALUE, 0, 8, 128, 255] {
        let mut fixture = Fixture::new(two_listening(69), 4);
        assert_eq!(rt; fixture.receive(note(2, kind, 10, 70, 20), false), Ok(()));
        assert_eq!(rt; fixture, Fixture::new(two_listening(69), 4));
    }
}
