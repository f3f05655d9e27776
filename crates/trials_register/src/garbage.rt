// Records and memory of any content: each call answers, and a refusal changes nothing.
use crate::fixture::{CAPACITY, Fixture, Lent, STORE, TS, VALUE, holds, note};
use crate::steps::{Step, begun, deliver, forge, found, read, turn, write};
use calls::Answer;
use client::state::{Client, Phase};
use quorums::sets::ServerSet;
use register::record::Register;
use server::state::Listener;
use std::process::Abort;
use std::test::*;
use timestamps::packed::Packed;
use values::total::Total;

const TOP: u64 = 18_446_744_073_709_551_615;

// Phases with servers past the last one, and the highest timestamp.
fn phases() -> [Phase<Packed, Total>; 4] {
    [
        Phase::Idle,
        Phase::Asking {
            value: Total::new(TOP),
            told: ServerSet { mask: 0xfff3 },
            highest: Packed::new(TOP),
        },
        Phase::Storing {
            timestamp: Packed::new(TOP),
            value: Total::new(3),
            acknowledged: ServerSet { mask: 0xffff },
        },
        Phase::Reading,
    ]
}

// A register with all servers and more faulty, listeners and clients of any content, and so many messages.
fn odd(phase: Phase<Packed, Total>, last: u64, mask: u16, len: usize) -> Result<Fixture, Fail> {
    let Fixture { register, lent } = Fixture::new()?;
    let listener = Listener {
        number: 4_294_967_295,
        listening: true,
        start: Packed::new(0),
    };
    let client = Client {
        number: 7,
        last: Packed::new(last),
        phase,
    };
    Ok(Fixture {
        register: Register {
            len,
            faulty: ServerSet { mask },
            ..register
        },
        lent: Lent {
            servers: [holds(TOP, TOP); 4],
            clients: [client; 2],
            listeners: [listener; 8],
            ..lent
        },
    })
}

// The call is answered, and a refusal changes nothing.
fn is_answered(rt: &impl Abort, before: &Fixture, call: Step) {
    let mut fixture = *before;
    if let Answer::Refused(refusal) = fixture.ask(call) {
        assert!(rt; (1..14).contains(&u8::from(refusal)));
        fixture.is(rt, before);
    } else {
        assert!(rt; fixture.register.len <= CAPACITY);
    }
}

#[test]
fn every_call_is_answered(rt: HostRuntime) -> Result<(), Fail> {
    for phase in phases() {
        for (mask, len) in [(0xffff, 0), (0, 8), (1, 11), (0xfff0, 12)] {
            let fixture = odd(phase, TOP, mask, len)?;
            for call in [
                write(0),
                write(2),
                read(1),
                read(255),
                deliver(0),
                deliver(11),
                turn(0),
                turn(15),
                turn(255),
                forge(0, 0, 6),
                forge(15, 0, 6),
            ] {
                is_answered(&rt, &fixture, call);
            }
        }
    }
    Ok(())
}

#[test]
fn every_message_is_answered(rt: HostRuntime) -> Result<(), Fail> {
    for phase in phases() {
        for (client, server, number, len) in [
            (0, 0, 7, 0),
            (1, 3, 7, 11),
            (0, 2, 8, 11),
            (2, 0, 7, 0),
            (0, 4, 7, 0),
            (255, 255, 0, 11),
        ] {
            for kind in [0, 1, 2, 3, 4, 5, 6, 7, 8, 255] {
                let mut fixture = odd(phase, TOP, 0, len)?;
                fixture.post(note(client, server, kind, number, TOP, TOP));
                is_answered(&rt, &fixture, deliver(len));
            }
        }
    }
    Ok(())
}

#[test]
fn servers_past_the_last_do_not_count(rt: HostRuntime) -> Result<(), Fail> {
    let asking = Phase::Asking {
        value: Total::new(10),
        told: ServerSet { mask: 0xfff0 },
        highest: Packed::new(64),
    };
    let mut fixture = odd(asking, 0, 0, 0)?;
    for server in 0..2 {
        assert_eq!(rt; fixture.hand(note(0, server, TS, 7, 0, 0)), Answer::Taken);
        let client = fixture.first_client();
        assert!(rt; matches!(client.phase, Phase::Asking { .. }));
    }
    assert_eq!(rt; fixture.hand(note(0, 2, TS, 7, 0, 0)), Answer::Taken);
    let storing = Phase::Storing {
        timestamp: Packed::new(128),
        value: Total::new(10),
        acknowledged: ServerSet { mask: 0 },
    };
    assert_eq!(rt; fixture.first_client().phase, storing);
    assert_eq!(rt; fixture.message(0), Some(note(0, 0, STORE, 7, 128, 10)));
    Ok(())
}

#[test]
fn a_read_forgets_what_the_memory_held(rt: HostRuntime) -> Result<(), Fail> {
    let mut fixture = Fixture::new()?;
    let before = fixture;
    assert_eq!(rt; fixture.ask(read(1)), begun(1, 1));
    // the reports of the other client stay
    assert_eq!(rt; &fixture.lent.reports[..20], &before.lent.reports[..20]);
    assert_eq!(rt; fixture.first_client(), before.first_client());
    for server in 0..2 {
        assert_eq!(rt;
            fixture.hand(note(1, server, VALUE, 1, 64, 10)),
            Answer::Taken
        );
    }
    assert_eq!(rt;
        fixture.hand(note(1, 3, VALUE, 1, 64, 10)),
        found(1, 1, 64, 10)
    );
    Ok(())
}
