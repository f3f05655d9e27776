// How much room each call needs: one message too many in the queue, and it is refused.
use crate::fixture::{ACK, Fixture, Note, QUERY, READ, STOP, STORE, TS, VALUE, client, note};
use crate::steps::{begun, deliver, found, read, write, wrote};
use calls::{Answer, Refusal};
use client::state::{Client, Phase};
use quorums::sets::ServerSet;
use std::process::Abort;
use std::test::*;
use timestamps::packed::Packed;
use values::total::Total;

#[test]
fn beginning_needs_a_place_for_each_server(rt: HostRuntime) -> Result<(), Fail> {
    for (call, kind) in [(write(1), QUERY), (read(1), READ)] {
        let mut fixture = Fixture::new()?;
        fixture.register.len = 9;
        fixture.refuses(&rt, call, Refusal::NetworkFull);
        fixture.register.len = 8;
        assert_eq!(rt; fixture.ask(call), begun(1, 1));
        assert_eq!(rt; fixture.register.len, 12);
        for server in 0..4 {
            assert_eq!(rt;
                fixture.message(8 + usize::from(server)),
                Some(note(1, server, kind, 1, 0, 0))
            );
        }
    }
    Ok(())
}

#[test]
fn last_number_is_used_and_then_none(rt: HostRuntime) -> Result<(), Fail> {
    for call in [write(0), read(0)] {
        let mut fixture = Fixture::new()?;
        fixture.put_client(0, client(4_294_967_294, Phase::Idle));
        assert_eq!(rt; fixture.ask(call), begun(0, 4_294_967_295));
        fixture.refuses(&rt, call, Refusal::OperationOpen);
        fixture.put_client(0, client(4_294_967_295, Phase::Idle));
        fixture.refuses(&rt, call, Refusal::NumbersUsedUp);
    }
    Ok(())
}

// A message at the end of a queue of so many is refused with 9 where it may be one shorter, and is then taken.
fn needs(rt: &impl Abort, before: &Fixture, message: Note, most: usize) {
    assert!(rt; 0 < most && most < 12);
    let mut fixture = *before;
    fixture.register.len = most;
    fixture.post(message);
    fixture.refuses(rt, deliver(most), Refusal::NetworkFull);
    fixture.register.len = most - 1;
    fixture.post(message);
    assert_eq!(rt; fixture.ask(deliver(most - 1)), Answer::Taken);
    assert_eq!(rt; fixture.register.len, 12);
}

#[test]
fn delivery_needs_room_for_what_is_sent_without_itself(rt: HostRuntime) -> Result<(), Fail> {
    let mut fixture = Fixture::new()?;
    fixture.listens_from(64);
    // an ACK and two VALUEs
    needs(&rt, &fixture, note(0, 0, STORE, 1, 64, 10), 10);
    // STORE to four servers
    fixture.asks(1, 0);
    needs(&rt, &fixture, note(0, 2, TS, 1, 64, 0), 9);
    Ok(())
}

// A client whose write of timestamp 64 is confirmed by servers 1 and 3.
fn stores(number: u32) -> Client<Packed, Total> {
    Client {
        number,
        last: Packed::new(64),
        phase: Phase::Storing {
            timestamp: Packed::new(64),
            value: Total::new(10),
            acknowledged: ServerSet { mask: 0b1010 },
        },
    }
}

#[test]
fn what_sends_at_most_one_message_needs_no_room(rt: HostRuntime) -> Result<(), Fail> {
    for kind in [QUERY, READ, STOP, STORE, TS, ACK, VALUE] {
        let mut fixture = Fixture::new()?;
        fixture.register.len = 11;
        assert_eq!(rt; fixture.hand(note(0, 0, kind, 1, 64, 0)), Answer::Taken);
    }
    // the last ACK, and a faulty server whose STORE would bring three
    let mut fixture = Fixture::new()?;
    fixture.listens_from(64);
    fixture.register.faulty = ServerSet { mask: 1 };
    fixture.register.len = 11;
    assert_eq!(rt; fixture.hand(note(0, 0, STORE, 1, 64, 0)), Answer::Taken);
    fixture.put_client(0, stores(1));
    assert_eq!(rt; fixture.hand(note(0, 2, ACK, 1, 64, 0)), wrote(0, 1, 64));
    Ok(())
}

#[test]
fn last_value_of_a_read_waits_for_room(rt: HostRuntime) -> Result<(), Fail> {
    let mut fixture = Fixture::new()?;
    assert_eq!(rt; fixture.ask(read(1)), begun(1, 1));
    fixture.register.len = 0;
    fixture.post(note(0, 0, TS, 9, 0, 0));
    fixture.register.len = 9;
    for server in 0..2 {
        assert_eq!(rt;
            fixture.hand(note(1, server, VALUE, 1, 64, 10)),
            Answer::Taken
        );
    }
    // nine others and the VALUE: two places, three with its own
    fixture.post(note(1, 2, VALUE, 1, 64, 10));
    fixture.refuses(&rt, deliver(9), Refusal::NetworkFull);
    assert_eq!(rt; fixture.message(9), Some(note(1, 2, VALUE, 1, 64, 10)));
    assert_eq!(rt; fixture.ask(deliver(0)), Answer::Taken);
    assert_eq!(rt; fixture.ask(deliver(8)), found(1, 1, 64, 10));
    assert_eq!(rt; fixture.register.len, 12);
    for server in 0..4 {
        assert_eq!(rt;
            fixture.message(8 + usize::from(server)),
            Some(note(1, server, STOP, 1, 0, 0))
        );
    }
    Ok(())
}

#[test]
fn value_that_ends_nothing_needs_no_room(rt: HostRuntime) -> Result<(), Fail> {
    let mut fixture = Fixture::new()?;
    assert_eq!(rt; fixture.ask(read(1)), begun(1, 1));
    fixture.register.len = 11;
    for server in 0..2 {
        assert_eq!(rt;
            fixture.hand(note(1, server, VALUE, 1, 64, 10)),
            Answer::Taken
        );
    }
    assert_eq!(rt; fixture.hand(note(1, 2, VALUE, 1, 64, 11)), Answer::Taken);
    fixture.post(note(1, 3, VALUE, 1, 64, 10));
    fixture.refuses(&rt, deliver(11), Refusal::NetworkFull);
    Ok(())
}
