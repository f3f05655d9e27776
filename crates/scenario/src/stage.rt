// The memory of the register, and the run on it.
use crate::script::Step;
use crate::words::{AnswerInWords, CallInWords};
use calls::Answer;
use client::state::Client;
use delivery::memory::Memory;
use network::message::Message;
use quorums::threshold::Threshold;
use runs::play::play;
use server::state::{Listener, Server};
use timestamps::Timestamp;
use timestamps::packed::Packed;
use values::Value;
use values::total::Total;

const CLIENTS: usize = 2;

const CAPACITY: usize = 64;

// What memory holds before the first message.
fn blank() -> Message<Packed, Total> {
    Message {
        client: 0,
        server: 0,
        kind: 0,
        number: 0,
        timestamp: Packed::initial(),
        value: Total::initial(),
    }
}

// Plays the calls on a register of four servers, one of which may be faulty, and tells them with their answers.
pub(crate) fn perform(rt: &HostRuntime, calls: &[Step]) -> anyhow::Result<()> {
    let system = Threshold::open(4, 1)?;
    let mut memory = Memory {
        servers: &mut [Server::initial(); 4],
        clients: &mut [Client::initial(); CLIENTS],
        listeners: &mut [Listener::silent(); 8],
        messages: &mut [blank(); CAPACITY],
        reports: &mut [None; 40],
    };
    let mut answers = vec![in rt.alloc(); Answer::Taken; calls.len()]?;
    play(system, CLIENTS, CAPACITY, &mut memory, calls, &mut answers)?;
    tell(rt, calls, &answers)
}

// Each call with its answer, in a line.
fn tell(rt: &HostRuntime, calls: &[Step], answers: &[Answer<Packed, Total>]) -> anyhow::Result<()> {
    for (call, answer) in calls.iter().zip(answers.iter()) {
        let asked = CallInWords(*call);
        let answered = AnswerInWords(*answer);
        println!(rt; "{asked}: {answered}")?;
    }
    Ok(())
}
