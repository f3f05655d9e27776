// What each call refuses, and in which order. Where a check fails, the ones after it fail too.
use crate::fixture::{CAPACITY, Fixture, QUERY, WHOLE, client, note, one_short};
use crate::steps::{deliver, forge, read, turn, write};
use calls::{Answer, Refusal};
use client::state::Phase;
use delivery::sizes::Sizes;
use quorums::sets::ServerSet;
use std::process::Abort;
use std::test::*;

const MOST: u32 = 4_294_967_295;

// Each call is refused where the record has these clients, capacity and length, and so many entries of each kind are
// lent.
fn lacks_memory(
    rt: &impl Abort,
    (clients, capacity, len): (usize, usize, usize),
    sizes: Sizes,
) -> Result<(), Fail> {
    for call in [write(99), read(99), deliver(99), turn(99), forge(99, 99, 0)] {
        let mut fixture = Fixture::new()?;
        fixture.register.clients = clients;
        fixture.register.capacity = capacity;
        fixture.register.len = len;
        let before = fixture;
        assert_eq!(rt;
            fixture.ask_with(sizes, call),
            Answer::Refused(Refusal::Memory)
        );
        fixture.is(rt, &before);
    }
    Ok(())
}

#[test]
fn memory_goes_before_all_else(rt: HostRuntime) -> Result<(), Fail> {
    for record in [
        (0, 12, 0),
        (65, 12, 0),
        (2, 0, 0),
        (2, 4097, 0),
        (2, 12, 13),
    ] {
        lacks_memory(&rt, record, WHOLE)?;
    }
    for sizes in one_short() {
        lacks_memory(&rt, (2, 12, 0), sizes)?;
    }
    Ok(())
}

#[test]
fn beginning_checks_client_then_phase_then_number_then_room(rt: HostRuntime) -> Result<(), Fail> {
    // clients in the record, phase of client 1, its number, messages in the queue of twelve, refusal
    let states = [
        (1, Phase::Reading, MOST, CAPACITY, Refusal::NoClient),
        (2, Phase::Reading, MOST, CAPACITY, Refusal::OperationOpen),
        (2, Phase::Idle, MOST, CAPACITY, Refusal::NumbersUsedUp),
        (2, Phase::Idle, MOST - 1, CAPACITY, Refusal::NetworkFull),
        (2, Phase::Idle, 0, 9, Refusal::NetworkFull),
    ];
    for (clients, phase, number, len, refused) in states {
        for call in [write(1), read(1)] {
            let mut fixture = Fixture::new()?;
            fixture.register.clients = clients;
            fixture.register.len = len;
            fixture.put_client(1, client(number, phase));
            fixture.refuses(&rt, call, refused);
        }
    }
    Ok(())
}

#[test]
fn delivery_checks_place_then_names_then_room(rt: HostRuntime) -> Result<(), Fail> {
    // place, client, server, kind, refusal: at its server a STORE brings an ACK and two VALUEs
    let deliveries = [
        (12, 9, 9, 0, Refusal::NoMessage),
        (11, 2, 0, 3, Refusal::Memory),
        (11, 0, 4, 3, Refusal::Memory),
        (11, 255, 255, 3, Refusal::Memory),
        (11, 0, 0, 0, Refusal::Memory),
        (11, 0, 0, 8, Refusal::Memory),
        (11, 0, 0, 255, Refusal::Memory),
        (11, 0, 0, 3, Refusal::NetworkFull),
    ];
    for (place, client, server, kind, refused) in deliveries {
        let mut fixture = Fixture::new()?;
        fixture.register.len = 11;
        fixture.listens_from(64);
        fixture.post(note(client, server, kind, 1, 64, 1250));
        fixture.refuses(&rt, deliver(place), refused);
    }
    Ok(())
}

#[test]
fn place_past_the_queue_has_no_message(rt: HostRuntime) -> Result<(), Fail> {
    let mut fixture = Fixture::new()?;
    fixture.refuses(&rt, deliver(0), Refusal::NoMessage);
    fixture.post(note(0, 0, QUERY, 1, 0, 0));
    fixture.refuses(&rt, deliver(1), Refusal::NoMessage);
    fixture.refuses(&rt, deliver(usize::MAX), Refusal::NoMessage);
    assert_eq!(rt; fixture.ask(deliver(0)), Answer::Taken);
    Ok(())
}

#[test]
fn turn_checks_the_server_then_the_faulty_servers(rt: HostRuntime) -> Result<(), Fail> {
    // servers that are faulty, the server that turns, refusal
    for (mask, server, refused) in [
        (0b1100, 4, Refusal::NoServer),
        (0b1100, 255, Refusal::NoServer),
        (0b1100, 0, Refusal::NotFailProne),
        (0b1100, 3, Refusal::NotFailProne),
        (0b1000, 0, Refusal::NotFailProne),
        (0b1000, 2, Refusal::NotFailProne),
    ] {
        let mut fixture = Fixture::new()?;
        fixture.register.faulty = ServerSet { mask };
        fixture.refuses(&rt, turn(server), refused);
    }
    let mut fixture = Fixture::new()?;
    assert_eq!(rt; fixture.ask(turn(3)), Answer::Turned);
    let before = fixture;
    assert_eq!(rt; before.register.faulty, ServerSet { mask: 0b1000 });
    assert_eq!(rt; fixture.ask(turn(3)), Answer::Turned);
    fixture.is(&rt, &before);
    Ok(())
}

#[test]
fn forging_checks_server_then_client_then_fault_then_kind_then_room(
    rt: HostRuntime,
) -> Result<(), Fail> {
    // server, client, kind, refusal: server 3 is faulty, and the queue is full
    for (server, client, kind, refused) in [
        (4, 2, 1, Refusal::NoServer),
        (255, 255, 0, Refusal::NoServer),
        (0, 2, 1, Refusal::NoClient),
        (0, 255, 0, Refusal::NoClient),
        (0, 1, 1, Refusal::ServerCorrect),
        (3, 1, 0, Refusal::NotServerKind),
        (3, 1, 1, Refusal::NotServerKind),
        (3, 1, 3, Refusal::NotServerKind),
        (3, 1, 5, Refusal::NotServerKind),
        (3, 1, 7, Refusal::NotServerKind),
        (3, 1, 8, Refusal::NotServerKind),
        (3, 1, 255, Refusal::NotServerKind),
        (3, 1, 2, Refusal::NetworkFull),
        (3, 1, 4, Refusal::NetworkFull),
        (3, 1, 6, Refusal::NetworkFull),
    ] {
        let mut fixture = Fixture::new()?;
        fixture.register.faulty = ServerSet { mask: 0b1000 };
        fixture.register.len = CAPACITY;
        fixture.refuses(&rt, forge(server, client, kind), refused);
    }
    Ok(())
}

#[test]
fn forged_message_stands_behind_the_others_as_given(rt: HostRuntime) -> Result<(), Fail> {
    for kind in [2, 4, 6] {
        let mut fixture = Fixture::new()?;
        fixture.register.faulty = ServerSet { mask: 0b1000 };
        fixture.register.len = 11;
        assert_eq!(rt; fixture.ask(forge(3, 1, kind)), Answer::Forged);
        assert_eq!(rt; fixture.message(11), Some(note(1, 3, kind, 5, 640, 99)));
        fixture.refuses(&rt, forge(3, 1, kind), Refusal::NetworkFull);
    }
    Ok(())
}
