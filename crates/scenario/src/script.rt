// The calls of the run, part by part.
use calls::Call;
use network::message::Kind;
use std::alloc::{AllocError, Global};
use timestamps::Timestamp;
use timestamps::packed::Packed;
use values::Value;
use values::total::Total;

pub type Step = Call<Packed, Total>;

const WRITER: u8 = 0;

const READER: u8 = 1;

const STRANGER: u8 = 2;

const LIAR: u8 = 3;

// The first write is under 64; the liar names 6400, so that the second is under 6464.
const SECOND: u64 = 6464;

pub(crate) fn script(heap: Global) -> Result<Vec<Step>, AllocError> {
    let mut calls = Vec::new(heap);
    first_write(&mut calls)?;
    faults(&mut calls)?;
    second_write_asks(&mut calls)?;
    read_meets_write(&mut calls)?;
    both_finish(&mut calls)?;
    Ok(calls)
}

fn write(client: u8, pence: u64) -> Step {
    Call::Write {
        client,
        value: Total::new(pence),
    }
}

fn read(client: u8) -> Step {
    Call::Read { client }
}

fn turn(server: u8) -> Step {
    Call::Turn { server }
}

fn forge(server: u8, client: u8, kind: Kind, number: u32, timestamp: u64, pence: u64) -> Step {
    Call::Forge {
        server,
        client,
        kind: u8::from(kind),
        number,
        timestamp: Packed::new(timestamp),
        value: Total::new(pence),
    }
}

// Delivers at these places, one after the other.
fn deliver_at(calls: &mut Vec<Step>, places: &[usize]) -> Result<(), AllocError> {
    for place in places {
        calls.push(Call::Deliver { place: *place })?;
    }
    Ok(())
}

// A write with no fault: four QUERYs, four TS, four STOREs and four ACKs, oldest first.
fn first_write(calls: &mut Vec<Step>) -> Result<(), AllocError> {
    calls.push(write(WRITER, 1250))?;
    calls.push(write(STRANGER, 1250))?;
    calls.push(read(WRITER))?;
    // there are four messages
    deliver_at(calls, &[4])?;
    deliver_at(calls, &[0; 16])
}

// One server of four may be faulty, and only what a faulty server may send is forged.
fn faults(calls: &mut Vec<Step>) -> Result<(), AllocError> {
    calls.push(turn(4))?;
    calls.push(turn(LIAR))?;
    calls.push(turn(0))?;
    calls.push(turn(LIAR))?;
    calls.push(forge(2, READER, Kind::Value, 1, 640000, 999999))?;
    calls.push(forge(LIAR, STRANGER, Kind::Value, 1, 640000, 999999))?;
    calls.push(forge(LIAR, READER, Kind::Store, 1, 640000, 999999))?;
    Ok(())
}

// QUERY at servers 0 and 1, then the false TS and those of 0 and 1: STORE goes out.
fn second_write_asks(calls: &mut Vec<Step>) -> Result<(), AllocError> {
    calls.push(write(WRITER, 1500))?;
    calls.push(forge(LIAR, WRITER, Kind::Ts, 2, 6400, 0))?;
    deliver_at(calls, &[0, 0])?;
    deliver_at(calls, &[2, 2, 2])
}

// READ is at server 0 and 2 before STORE, and at server 1 after it.
fn read_meets_write(calls: &mut Vec<Step>) -> Result<(), AllocError> {
    calls.push(read(READER))?;
    calls.push(read(READER))?;
    calls.push(forge(LIAR, READER, Kind::Value, 1, 640000, 999999))?;
    // READ at server 0 and its VALUE, then the false VALUE
    deliver_at(calls, &[6, 10, 9])?;
    // STORE and READ at server 1, and its VALUE
    deliver_at(calls, &[3, 5, 8])?;
    // READ and STORE at server 2, its VALUE, and the one that it passes on
    deliver_at(calls, &[5, 3, 6, 7])
}

// The false ACK counts with those of servers 1 and 2. The VALUE that server 0 passes on ends the read.
fn both_finish(calls: &mut Vec<Step>) -> Result<(), AllocError> {
    calls.push(forge(LIAR, WRITER, Kind::Ack, 2, SECOND, 0))?;
    // ACK of server 1 and the false one
    deliver_at(calls, &[5, 6])?;
    // STORE at server 0, and the VALUE that it passes on
    deliver_at(calls, &[2, 6])?;
    // ACK of server 2
    deliver_at(calls, &[4])?;
    // what is left, and one more
    deliver_at(calls, &[0; 11])
}
