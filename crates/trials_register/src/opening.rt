// How a register is opened, and what is refused.
use crate::fixture::{CAPACITY, Fixture, Lent, WHOLE, first, holds, note, one_short};
use crate::steps::{Reply, begun, read};
use calls::{Answer, Refusal};
use client::state::Client;
use delivery::memory::Memory;
use delivery::sizes::Sizes;
use quorums::listed::Listed;
use quorums::sets::ServerSet;
use quorums::threshold::Threshold;
use register::record::Register;
use server::state::{Listener, Server};
use std::test::*;

// So many of the first entries, or all where there are fewer, for reading alone.
fn part<T>(entries: &[T], count: usize) -> &[T] {
    let count = count.min(entries.len());
    &entries[..count]
}

// Opens a register of two clients with so many entries of each kind lent, messages and reports for reading alone: the
// register and its memory afterwards, and whether it was opened.
fn opening(before: Fixture, sizes: Sizes) -> (Fixture, Result<(), Refusal>) {
    let messages = before.lent.messages;
    let reports = before.lent.reports;
    let mut lent = before.lent;
    let opened = Register::open(
        before.register.system,
        2,
        CAPACITY,
        first(&mut lent.servers, sizes.servers),
        first(&mut lent.clients, sizes.clients),
        first(&mut lent.listeners, sizes.listeners),
        part(&messages, sizes.messages),
        part(&reports, sizes.reports),
    );
    match opened {
        Ok(register) => (Fixture { register, lent }, Ok(())),
        Err(refusal) => (Fixture { lent, ..before }, Err(refusal)),
    }
}

// A register in the midst of its work.
fn used() -> Result<Fixture, Fail> {
    let Fixture { register, lent } = Fixture::new()?;
    let mut fixture = Fixture {
        register: Register {
            len: 5,
            faulty: ServerSet { mask: 2 },
            ..register
        },
        lent: Lent {
            servers: [holds(64, 10); 4],
            ..lent
        },
    };
    fixture.asks(4, 64);
    fixture.listens_from(64);
    Ok(fixture)
}

#[test]
fn memory_one_entry_short_is_refused(rt: HostRuntime) -> Result<(), Fail> {
    for sizes in one_short() {
        let before = used()?;
        let (after, opened) = opening(before, sizes);
        assert_eq!(rt; opened, Err(Refusal::Memory));
        after.is(&rt, &before);
    }
    Ok(())
}

#[test]
fn opened_register_is_new_and_leaves_messages_and_reports(rt: HostRuntime) -> Result<(), Fail> {
    let (after, opened) = opening(used()?, WHOLE);
    assert_eq!(rt; opened, Ok(()));
    after.is(&rt, &Fixture::new()?);
    Ok(())
}

// Opens a register of one server with memory for 65 clients and 4,097 messages; where it opens, makes a record of
// these sizes and asks for a read of client 0.
fn in_much_memory(m: usize, capacity: usize, later: (usize, usize)) -> Result<Reply, Refusal> {
    let mut servers = [Server::initial(); 1];
    let mut clients = [Client::initial(); 65];
    let mut listeners = [Listener::silent(); 65];
    let mut messages = [note(0, 0, 0, 0, 0, 0); 4097];
    let mut reports = [None; 130];
    let opened = Register::open(
        Threshold::open(1, 0)?,
        m,
        capacity,
        &mut servers,
        &mut clients,
        &mut listeners,
        &messages,
        &reports,
    )?;
    let mut register = Register {
        clients: later.0,
        capacity: later.1,
        ..opened
    };
    let mut memory = Memory {
        servers: &mut servers,
        clients: &mut clients,
        listeners: &mut listeners,
        messages: &mut messages,
        reports: &mut reports,
    };
    Ok(register.answer(&mut memory, read(0)))
}

#[test]
fn limits_hold_however_much_memory_there_is(rt: HostRuntime) -> Result<(), Fail> {
    for (m, capacity) in [(0, 1), (65, 1), (1, 0), (1, 4097), (0, 0), (65, 4097)] {
        assert_eq!(rt; in_much_memory(m, capacity, (1, 1)), Err(Refusal::Memory));
        assert_eq!(rt;
            in_much_memory(1, 1, (m, capacity)),
            Ok(Answer::Refused(Refusal::Memory))
        );
    }
    for (m, capacity) in [(1, 1), (64, 4096), (1, 4096), (64, 1)] {
        assert_eq!(rt; in_much_memory(m, capacity, (m, capacity)), Ok(begun(0, 1)));
    }
    Ok(())
}

#[test]
fn no_register_without_a_quorum_system(rt: HostRuntime) {
    for (n, f, refused) in [
        (0, 0, Some(Refusal::SystemSize)),
        (17, 5, Some(Refusal::SystemSize)),
        (16, 6, Some(Refusal::SystemSize)),
        (3, 1, Some(Refusal::SystemSize)),
        (4, 1, None),
        (16, 5, None),
    ] {
        assert_eq!(rt; Threshold::open(n, f).err(), refused);
    }
    // each check with the next one failing too
    let all = ServerSet { mask: 0b1111 };
    let low = ServerSet { mask: 0b0011 };
    let high = ServerSet { mask: 0b1100 };
    let past = ServerSet { mask: 0b11111 };
    assert_eq!(rt; Listed::open(0, &[]).err(), Some(Refusal::SystemSize));
    assert_eq!(rt; Listed::open(17, &[]).err(), Some(Refusal::SystemSize));
    assert_eq!(rt; Listed::open(4, &[]).err(), Some(Refusal::ListedSets));
    assert_eq!(rt; Listed::open(4, &[past]).err(), Some(Refusal::ListedSets));
    assert_eq!(rt;
        Listed::open(4, &[all; 129]).err(),
        Some(Refusal::ListedSets)
    );
    assert_eq!(rt;
        Listed::open(4, &[low, high]).err(),
        Some(Refusal::SetsCover)
    );
    assert_eq!(rt; Listed::open(4, &[all]).err(), Some(Refusal::SetsCover));
    assert_eq!(rt; Listed::open(4, &[low]).err(), None);
}
