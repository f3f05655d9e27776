// Calls, and answers to them.
use calls::{Answer, Call};
use timestamps::packed::Packed;
use values::total::Total;

pub type Step = Call<Packed, Total>;

pub type Reply = Answer<Packed, Total>;

pub(crate) fn write(client: u8) -> Step {
    Call::Write {
        client,
        value: Total::new(1250),
    }
}

pub(crate) fn read(client: u8) -> Step {
    Call::Read { client }
}

pub(crate) fn deliver(place: usize) -> Step {
    Call::Deliver { place }
}

pub(crate) fn turn(server: u8) -> Step {
    Call::Turn { server }
}

// A forged message with number 5, timestamp 640 and total 99.
pub(crate) fn forge(server: u8, client: u8, kind: u8) -> Step {
    Call::Forge {
        server,
        client,
        kind,
        number: 5,
        timestamp: Packed::new(640),
        value: Total::new(99),
    }
}

pub(crate) fn begun(client: u8, number: u32) -> Reply {
    Answer::Begun { client, number }
}

pub(crate) fn wrote(client: u8, number: u32, timestamp: u64) -> Reply {
    Answer::FinishedWrite {
        client,
        number,
        timestamp: Packed::new(timestamp),
    }
}

pub(crate) fn found(client: u8, number: u32, timestamp: u64, total: u64) -> Reply {
    Answer::FinishedRead {
        client,
        number,
        timestamp: Packed::new(timestamp),
        value: Total::new(total),
    }
}

pub(crate) fn spent(client: u8, number: u32) -> Reply {
    Answer::Spent { client, number }
}
