// What counts for a read, and whom a server listens to.
use crate::fixture::{ACK, Fixture, QUERY, READ, STOP, STORE, TS, VALUE, client, holds, note};
use crate::steps::{Reply, begun, deliver, found, read, turn};
use calls::{Answer, Refusal};
use client::state::Phase;
use std::process::Abort;
use std::test::*;

#[test]
fn first_read_gives_the_initial_pair(rt: HostRuntime) -> Result<(), Fail> {
    let mut fixture = Fixture::new()?;
    assert_eq!(rt; fixture.ask(read(1)), begun(1, 1));
    for _ in 0..6 {
        assert_eq!(rt; fixture.ask(deliver(0)), Answer::Taken);
    }
    assert_eq!(rt; fixture.ask(deliver(0)), found(1, 1, 0, 0));
    // the last VALUE, and four STOPs
    for _ in 0..5 {
        assert_eq!(rt; fixture.ask(deliver(0)), Answer::Taken);
    }
    assert!(rt; !fixture.listens());
    fixture.refuses(&rt, deliver(0), Refusal::NoMessage);
    Ok(())
}

// A read of client 1 hears VALUEs, each with its server, number, timestamp, total and answer.
fn hears(rt: &impl Abort, values: &[(u8, u32, u64, u64, Reply)]) -> Result<(), Fail> {
    let mut fixture = Fixture::new()?;
    fixture.put_client(1, client(1, Phase::Idle));
    assert_eq!(rt; fixture.ask(read(1)), begun(1, 2));
    for (server, number, timestamp, total, answer) in values {
        assert_eq!(rt;
            fixture.hand(note(1, *server, VALUE, *number, *timestamp, *total)),
            *answer
        );
    }
    Ok(())
}

#[test]
fn value_of_another_read_does_not_count(rt: HostRuntime) -> Result<(), Fail> {
    hears(
        &rt,
        &[
            (0, 2, 64, 10, Answer::Taken),
            (1, 2, 64, 10, Answer::Taken),
            (2, 1, 64, 10, Answer::Taken),
            (2, 3, 64, 10, Answer::Taken),
            (1, 2, 64, 10, Answer::Taken),
            (2, 2, 64, 10, found(1, 2, 64, 10)),
            (3, 2, 64, 10, Answer::Taken),
        ],
    )
}

#[test]
fn latest_is_the_earlier_of_equals(rt: HostRuntime) -> Result<(), Fail> {
    // server 0 says 10 and then 20; as another enters, 10 is its evidence again
    hears(
        &rt,
        &[
            (0, 2, 64, 10, Answer::Taken),
            (0, 2, 64, 20, Answer::Taken),
            (1, 2, 64, 20, Answer::Taken),
            (2, 2, 64, 20, Answer::Taken),
            (0, 2, 64, 20, found(1, 2, 64, 20)),
        ],
    )?;
    // server 0 keeps its latest of 128 under a late 64
    hears(
        &rt,
        &[
            (0, 2, 128, 30, Answer::Taken),
            (0, 2, 64, 10, Answer::Taken),
            (1, 2, 64, 10, Answer::Taken),
            (2, 2, 64, 10, Answer::Taken),
            (0, 2, 64, 10, found(1, 2, 64, 10)),
        ],
    )
}

#[test]
fn one_lying_server_does_not_end_a_read(rt: HostRuntime) -> Result<(), Fail> {
    hears(
        &rt,
        &[
            (3, 2, 6400, 99, Answer::Taken),
            (0, 2, 64, 10, Answer::Taken),
            (1, 2, 64, 10, Answer::Taken),
            (3, 2, 6464, 99, Answer::Taken),
            (3, 2, 12800, 98, Answer::Taken),
            (2, 2, 64, 10, found(1, 2, 64, 10)),
        ],
    )
}

#[test]
fn store_is_passed_on_from_the_start_of_listening(rt: HostRuntime) -> Result<(), Fail> {
    // timestamp of the STORE, and how many messages are sent: both clients are listened to from 128
    for (timestamp, sent) in [(64, 1), (127, 1), (128, 3), (192, 3)] {
        let mut fixture = Fixture::new()?;
        fixture.listens_from(128);
        assert_eq!(rt;
            fixture.hand(note(0, 0, STORE, 9, timestamp, 10)),
            Answer::Taken
        );
        assert_eq!(rt; fixture.register.len, sent);
        assert_eq!(rt; fixture.message(0), Some(note(0, 0, ACK, 9, timestamp, 0)));
        if sent == 3 {
            assert_eq!(rt;
                fixture.message(1),
                Some(note(0, 0, VALUE, 3, timestamp, 10))
            );
            assert_eq!(rt;
                fixture.message(2),
                Some(note(1, 0, VALUE, 3, timestamp, 10))
            );
        }
        assert_eq!(rt; fixture.lent.servers.first(), Some(&holds(timestamp, 10)));
    }
    Ok(())
}

#[test]
fn stop_of_an_earlier_read_does_not_end_a_later_one(rt: HostRuntime) -> Result<(), Fail> {
    let mut fixture = Fixture::new()?;
    fixture.listens_from(0);
    // kind and number, then whether client 1 is listened to, its last number, and messages in the queue
    for (kind, number, listening, last, len) in [
        (STOP, 2, true, 3, 0),
        (READ, 3, true, 3, 0),
        (READ, 4, true, 4, 1),
        (STOP, 3, true, 4, 1),
        (STOP, 4, false, 4, 1),
        (READ, 4, false, 4, 1),
        (STOP, 6, false, 6, 1),
        (READ, 5, false, 6, 1),
        (READ, 7, true, 7, 2),
    ] {
        assert_eq!(rt; fixture.hand(note(1, 0, kind, number, 0, 0)), Answer::Taken);
        let listener = fixture.listener();
        assert_eq!(rt; listener.listening, listening);
        assert_eq!(rt; listener.number, last);
        assert_eq!(rt; fixture.register.len, len);
    }
    Ok(())
}

#[test]
fn faulty_server_does_nothing_and_what_it_sent_before_counts(rt: HostRuntime) -> Result<(), Fail> {
    let mut fixture = Fixture::new()?;
    fixture.asks(2, 0);
    fixture.post(note(0, 2, TS, 2, 64, 0));
    assert_eq!(rt; fixture.ask(turn(2)), Answer::Turned);
    for kind in [QUERY, STORE, READ, STOP] {
        assert_eq!(rt; fixture.hand(note(1, 2, kind, 1, 64, 10)), Answer::Taken);
        assert_eq!(rt; fixture.register.len, 1);
    }
    assert_eq!(rt; fixture.lent.servers.get(2), Some(&holds(0, 0)));
    assert!(rt; !fixture.listens());
    assert_eq!(rt; fixture.ask(deliver(0)), Answer::Taken);
    assert_eq!(rt; fixture.message(3), Some(note(0, 3, STORE, 2, 128, 1250)));
    Ok(())
}
