// What a call only reads is lent to it for reading alone, while others read it too.
use crate::fixture::{Fixture, QUERY, READ, VALUE, note};
use crate::steps::{Reply, begun};
use calls::{Answer, Refusal};
use quorums::sets::ServerSet;
use server::state::Server;
use std::test::*;
use values::total::Total;

#[test]
fn slices_that_a_call_only_reads_are_lent_for_reading(rt: HostRuntime) -> Result<(), Fail> {
    let fixture = Fixture::new()?;
    let mut register = fixture.register;
    let servers = fixture.lent.servers;
    let clients = fixture.lent.clients;
    let listeners = fixture.lent.listeners;
    let messages = fixture.lent.messages;
    let reports = fixture.lent.reports;
    // a reader of the servers over all the calls
    let seen = &servers;
    let turned: Reply = register.turn(&servers, &clients, &listeners, &messages, &reports, 3);
    assert_eq!(rt; turned, Answer::Turned);
    let refused: Reply = register.turn(&servers, &clients, &listeners, &messages, &reports, 0);
    assert_eq!(rt; refused, Answer::Refused(Refusal::NotFailProne));
    assert_eq!(rt; register.faulty, ServerSet { mask: 0b1000 });
    let mut clients = clients;
    let mut messages = messages;
    let value = Total::new(1250);
    let writes = register.write(
        &servers,
        &mut clients,
        &listeners,
        &mut messages,
        &reports,
        0,
        value,
    );
    assert_eq!(rt; writes, begun(0, 1));
    let mut reports = reports;
    let reads = register.read(
        &servers,
        &mut clients,
        &listeners,
        &mut messages,
        &mut reports,
        1,
    );
    assert_eq!(rt; reads, begun(1, 1));
    let message = note(1, 3, VALUE, 5, 640, 99);
    let forged = register.forge(
        &servers,
        &clients,
        &listeners,
        &mut messages,
        &reports,
        message,
    );
    assert_eq!(rt; forged, Answer::Forged);
    // behind one another: QUERY and READ to each server, and what was forged; client 1's own reports are none
    let sent = [
        note(0, 0, QUERY, 1, 0, 0),
        note(0, 1, QUERY, 1, 0, 0),
        note(0, 2, QUERY, 1, 0, 0),
        note(0, 3, QUERY, 1, 0, 0),
        note(1, 0, READ, 1, 0, 0),
        note(1, 1, READ, 1, 0, 0),
        note(1, 2, READ, 1, 0, 0),
        note(1, 3, READ, 1, 0, 0),
        message,
    ];
    assert_eq!(rt; register.len, sent.len());
    for (stands, expected) in messages.iter().zip(sent.iter()) {
        assert_eq!(rt; *stands, *expected);
    }
    assert!(rt; reports.iter().take(20).all(|report| report.is_some()));
    assert!(rt; reports.iter().skip(20).all(|report| report.is_none()));
    assert_eq!(rt; *seen, [Server::initial(); 4]);
    Ok(())
}
