// What counts for a write, and how it ends.
use crate::fixture::{ACK, Fixture, STORE, TS, VALUE, holds, note};
use crate::steps::{begun, deliver, spent, write, wrote};
use calls::{Answer, Refusal};
use client::state::Phase;
use quorums::sets::ServerSet;
use std::test::*;
use timestamps::packed::Packed;
use values::total::Total;

#[test]
fn write_is_finished_with_the_third_ack(rt: HostRuntime) -> Result<(), Fail> {
    let mut fixture = Fixture::new()?;
    assert_eq!(rt; fixture.ask(write(0)), begun(0, 1));
    // four QUERYs, four TS, four STOREs and two ACKs, oldest first
    for _ in 0..14 {
        assert_eq!(rt; fixture.ask(deliver(0)), Answer::Taken);
    }
    assert_eq!(rt; fixture.ask(deliver(0)), wrote(0, 1, 64));
    assert_eq!(rt; fixture.ask(deliver(0)), Answer::Taken);
    fixture.refuses(&rt, deliver(0), Refusal::NoMessage);
    assert_eq!(rt; fixture.lent.servers, [holds(64, 1250); 4]);
    assert_eq!(rt; fixture.ask(write(1)), begun(1, 1));
    for _ in 0..14 {
        assert_eq!(rt; fixture.ask(deliver(0)), Answer::Taken);
    }
    assert_eq!(rt; fixture.ask(deliver(0)), wrote(1, 1, 65));
    Ok(())
}

#[test]
fn ts_that_does_not_count_changes_no_client(rt: HostRuntime) -> Result<(), Fail> {
    // server, kind and number: write 2 has heard servers 0 and 1
    for (server, kind, number) in [
        (2, TS, 1),
        (2, TS, 3),
        (2, TS, 0),
        (0, TS, 2),
        (1, TS, 2),
        (2, ACK, 2),
        (2, VALUE, 2),
    ] {
        let mut fixture = Fixture::new()?;
        fixture.asks(2, 0);
        let before = fixture.first_client();
        assert_eq!(rt;
            fixture.hand(note(0, server, kind, number, 6400, 0)),
            Answer::Taken
        );
        assert_eq!(rt; fixture.first_client(), before);
        assert_eq!(rt; fixture.register.len, 0);
    }
    Ok(())
}

#[test]
fn timestamp_is_the_next_above_the_highest_and_the_last(rt: HostRuntime) -> Result<(), Fail> {
    // last timestamp, TS of server 3, chosen timestamp: 64 was the highest before
    for (last, told, chosen) in [
        (0, 0, 128),
        (0, 127, 128),
        (0, 128, 192),
        (640, 0, 704),
        (640, 6400, 6464),
        (18_446_744_073_709_551_488, 0, 18_446_744_073_709_551_552),
    ] {
        let mut fixture = Fixture::new()?;
        fixture.asks(2, last);
        assert_eq!(rt; fixture.hand(note(0, 3, TS, 2, told, 0)), Answer::Taken);
        let storing = Phase::Storing {
            timestamp: Packed::new(chosen),
            value: Total::new(1250),
            acknowledged: ServerSet { mask: 0 },
        };
        let client = fixture.first_client();
        assert_eq!(rt; client.last, Packed::new(chosen));
        assert_eq!(rt; client.phase, storing);
        assert_eq!(rt; fixture.register.len, 4);
        for server in 0..4 {
            assert_eq!(rt;
                fixture.message(usize::from(server)),
                Some(note(0, server, STORE, 2, chosen, 1250))
            );
        }
    }
    Ok(())
}

#[test]
fn write_with_no_timestamp_left_is_spent(rt: HostRuntime) -> Result<(), Fail> {
    // last timestamp and TS of server 3, with a queue that is full
    for (last, told) in [
        (18_446_744_073_709_551_552, 0),
        (18_446_744_073_709_551_615, 0),
        (0, 18_446_744_073_709_551_552),
        (0, 18_446_744_073_709_551_615),
    ] {
        let mut fixture = Fixture::new()?;
        fixture.asks(2, last);
        fixture.register.len = 11;
        assert_eq!(rt; fixture.hand(note(0, 3, TS, 2, told, 0)), spent(0, 2));
        assert_eq!(rt; fixture.register.len, 11);
        let client = fixture.first_client();
        assert_eq!(rt; client.last, Packed::new(last));
        assert_eq!(rt; client.phase, Phase::Idle);
        fixture.register.len = 0;
        assert_eq!(rt; fixture.ask(write(0)), begun(0, 3));
    }
    Ok(())
}

#[test]
fn ack_counts_once_and_with_its_timestamp(rt: HostRuntime) -> Result<(), Fail> {
    let mut fixture = Fixture::new()?;
    fixture.asks(2, 0);
    assert_eq!(rt; fixture.hand(note(0, 3, TS, 2, 0, 0)), Answer::Taken);
    fixture.register.len = 0;
    // server, kind, number, timestamp, answer
    for (server, kind, number, timestamp, answer) in [
        (0, ACK, 2, 128, Answer::Taken),
        (1, ACK, 2, 64, Answer::Taken),
        (1, ACK, 2, 192, Answer::Taken),
        (0, ACK, 2, 128, Answer::Taken),
        (1, ACK, 2, 128, Answer::Taken),
        (2, ACK, 1, 128, Answer::Taken),
        (2, TS, 2, 128, Answer::Taken),
        (2, VALUE, 2, 128, Answer::Taken),
        (3, ACK, 2, 128, wrote(0, 2, 128)),
        (2, ACK, 2, 128, Answer::Taken),
    ] {
        assert_eq!(rt;
            fixture.hand(note(0, server, kind, number, timestamp, 0)),
            answer
        );
    }
    Ok(())
}
