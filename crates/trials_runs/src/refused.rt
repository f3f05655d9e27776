// Runs that are not played: nothing is touched.
use calls::{Answer, Call, Refusal};
use client::state::{Client, Phase};
use delivery::memory::Memory;
use network::message::Message;
use quorums::threshold::Threshold;
use reading::reports::Report;
use runs::play::play;
use server::state::{Listener, Server};
use std::test::Fail;
use timestamps::packed::Packed;
use values::total::Total;

// The memory of a register of one server and one client.
// Kept: what crates of tests have alike stands in each, since they share no crate.
#[derive(Clone, Copy, PartialEq, Eq, Debug)]
struct Lent {
    servers: [Server<Packed, Total>; 1],
    clients: [Client<Packed, Total>; 1],
    listeners: [Listener<Packed>; 1],
    messages: [Message<Packed, Total>; 1],
    reports: [Report<Packed, Total>; 2],
}

impl Lent {
    // Every entry has a seven.
    fn new() -> Lent {
        let timestamp = Packed::new(7);
        let value = Total::new(7);
        Lent {
            servers: [Server { timestamp, value }],
            clients: [Client {
                number: 7,
                last: timestamp,
                phase: Phase::Reading,
            }],
            listeners: [Listener {
                number: 7,
                listening: true,
                start: timestamp,
            }],
            messages: [Message {
                client: 7,
                server: 7,
                kind: 7,
                number: 7,
                timestamp,
                value,
            }],
            reports: [Some((timestamp, value)); 2],
        }
    }

    // Lends all of it.
    fn memory(&mut self) -> Memory<'_, Packed, Total> {
        let Lent {
            servers,
            clients,
            listeners,
            messages,
            reports,
        } = self;
        Memory {
            servers,
            clients,
            listeners,
            messages,
            reports,
        }
    }

    // Plays two reads: the refusal, if there is one.
    fn play(
        &mut self,
        m: usize,
        capacity: usize,
        answers: &mut [Answer<Packed, Total>],
    ) -> Result<Option<Refusal>, Fail> {
        let system = Threshold::open(1, 0)?;
        let calls = [Call::Read { client: 0 }; 2];
        let played = play(system, m, capacity, &mut self.memory(), &calls, answers);
        Ok(played.err())
    }
}

#[test]
fn refused_run_touches_nothing(rt: HostRuntime) -> Result<(), Fail> {
    // clients, capacity, answers that are lent for two calls
    for (m, capacity, count) in [
        (1, 1, 1),
        (1, 1, 0),
        (0, 1, 2),
        (1, 0, 2),
        (2, 1, 2),
        (1, 2, 2),
        (0, 0, 1),
    ] {
        let mut lent = Lent::new();
        let before = lent;
        let mut answers = [Answer::Forged; 2];
        assert_eq!(rt;
            lent.play(m, capacity, &mut answers[..count])?,
            Some(Refusal::Memory)
        );
        assert_eq!(rt; lent, before);
        assert_eq!(rt; answers, [Answer::Forged; 2]);
    }
    Ok(())
}

#[test]
fn played_run_has_all_its_answers(rt: HostRuntime) -> Result<(), Fail> {
    let mut lent = Lent::new();
    let mut answers = [Answer::Forged; 2];
    assert_eq!(rt; lent.play(1, 1, &mut answers)?, None);
    assert!(rt; !answers.contains(&Answer::Forged));
    let timestamp = Packed::new(0);
    let value = Total::new(0);
    assert_eq!(rt;
        lent,
        Lent {
            servers: [Server { timestamp, value }],
            clients: [Client {
                number: 1,
                last: timestamp,
                phase: Phase::Reading,
            }],
            listeners: [Listener {
                number: 0,
                listening: false,
                start: timestamp,
            }],
            // READ of client 0
            messages: [Message {
                client: 0,
                server: 0,
                kind: 5,
                number: 1,
                timestamp,
                value,
            }],
            reports: [None; 2],
        }
    );
    Ok(())
}
