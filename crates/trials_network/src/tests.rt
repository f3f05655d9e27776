// The network: its limits, the order of its checks, and its token.
use calls::Refusal;
use calls::Refusal::{Memory, NetworkFull, NoMessage, TokenOut};
use network::message::{Kind, Message, UnknownKind};
use network::queue::{Network, Token};
use std::process::Abort;
use std::test::Fail;

type Note = Message<u8, u8>;

// A message that is known by its number.
fn note(number: u32) -> Note {
    Message {
        client: 1,
        server: 2,
        kind: 3,
        number,
        timestamp: 4,
        value: 5,
    }
}

// A memory of five messages with these numbers.
fn notes(numbers: [u32; 5]) -> [Note; 5] {
    numbers.map(note)
}

// A memory of five messages with the numbers 10 to 14.
fn five() -> [Note; 5] {
    notes([10, 11, 12, 13, 14])
}

fn record(capacity: usize, len: usize, lifted: Option<usize>) -> Network {
    Network {
        capacity,
        len,
        lifted,
    }
}

// Takes the message at a place and puts it back.
fn looked_at(network: &mut Network, memory: &[Note], place: usize) -> Result<Note, Refusal> {
    let (message, token) = network.take(memory, place)?;
    network.put_back(memory, token);
    Ok(message)
}

// Takes the message at a place and settles it.
fn settled(network: &mut Network, memory: &mut [Note], place: usize) -> Result<Note, Refusal> {
    let (message, token) = network.take(memory, place)?;
    network.settle(memory, token);
    Ok(message)
}

// The token of a message of another network.
fn token_elsewhere() -> Result<Token, Refusal> {
    let other = [note(0)];
    let (_, token) = record(1, 1, None).take(&other, 0)?;
    Ok(token)
}

#[test]
fn kinds_have_the_bytes_1_to_7(rt: HostRuntime) {
    let kinds = [
        (Kind::Query, 1),
        (Kind::Ts, 2),
        (Kind::Store, 3),
        (Kind::Ack, 4),
        (Kind::Read, 5),
        (Kind::Value, 6),
        (Kind::Stop, 7),
    ];
    for (kind, byte) in kinds {
        assert_eq!(rt; u8::from(kind), byte);
        assert_eq!(rt; Kind::try_from(byte), Ok(kind));
    }
    for byte in [0, 8, 9, 254, 255] {
        assert_eq!(rt; Kind::try_from(byte), Err(UnknownKind(byte)));
    }
}

#[test]
fn refusals_have_the_numbers_1_to_21(rt: HostRuntime) {
    let refusals = [
        (Refusal::SystemSize, 1),
        (Refusal::ListedSets, 2),
        (Refusal::SetsCover, 3),
        (Refusal::Memory, 4),
        (Refusal::NoClient, 5),
        (Refusal::NoServer, 6),
        (Refusal::OperationOpen, 7),
        (Refusal::NumbersUsedUp, 8),
        (Refusal::NetworkFull, 9),
        (Refusal::NoMessage, 10),
        (Refusal::NotFailProne, 11),
        (Refusal::ServerCorrect, 12),
        (Refusal::NotServerKind, 13),
        (Refusal::TokenOut, 14),
        (Refusal::Digits, 15),
        (Refusal::UnknownFrame, 16),
        (Refusal::FrameLength, 17),
        (Refusal::OtherKinds, 18),
        (Refusal::NotOpened, 19),
        (Refusal::OpenedTwice, 20),
        (Refusal::ScriptTooLong, 21),
    ];
    for (refusal, number) in refusals {
        assert_eq!(rt; u8::from(refusal), number);
    }
}

#[test]
fn opens_within_its_limits(rt: HostRuntime) {
    let memory = [note(0); 4098];
    let openings = [
        (0, 0, Err(Memory)),
        (0, 1, Err(Memory)),
        (1, 0, Err(Memory)),
        (1, 1, Ok(())),
        (1, 2, Ok(())),
        (2, 1, Err(Memory)),
        (4096, 4095, Err(Memory)),
        (4096, 4096, Ok(())),
        (4096, 4097, Ok(())),
        (4097, 4097, Err(Memory)),
        (4097, 4098, Err(Memory)),
    ];
    for (capacity, room, opened) in openings {
        assert!(rt; room <= memory.len());
        assert_eq!(rt;
            Network::open(capacity, &memory[..room]),
            opened.map(|()| record(capacity, 0, None))
        );
    }
}

#[test]
fn posts_up_to_its_capacity(rt: HostRuntime) {
    let mut memory = five();
    let mut network = record(3, 1, None);
    assert_eq!(rt; network.post(&mut memory, note(20)), Ok(()));
    assert_eq!(rt; network, record(3, 2, None));
    assert_eq!(rt; network.post(&mut memory, note(21)), Ok(()));
    assert_eq!(rt; network, record(3, 3, None));
    assert_eq!(rt; memory, notes([10, 20, 21, 13, 14]));
    assert_eq!(rt; network.post(&mut memory, note(22)), Err(NetworkFull));
    assert_eq!(rt; network, record(3, 3, None));
    assert_eq!(rt; memory, notes([10, 20, 21, 13, 14]));
}

// Posting at a record over the first so many places; a refusal changes nothing.
fn posting(rt: &impl Abort, before: Network, room: usize) -> Result<(), Refusal> {
    let mut memory = five();
    assert!(rt; room <= 5);
    let mut network = before;
    let posted = network.post(&mut memory[..room], note(20));
    if posted.is_err() {
        assert_eq!(rt; network, before);
        assert_eq!(rt; memory, five());
    }
    posted
}

// Taking the message at a place, which changes nothing once it is put back.
fn taking(rt: &impl Abort, before: Network, room: usize, place: usize) -> Result<(), Refusal> {
    let memory = five();
    assert!(rt; room <= 5);
    let mut network = before;
    let seen = looked_at(&mut network, &memory[..room], place);
    assert_eq!(rt; network, before);
    let message = seen?;
    assert_eq!(rt; Some(&message), memory.get(place));
    Ok(())
}

#[test]
fn checks_the_record_then_the_token_then_the_queue(rt: HostRuntime) {
    // capacity, len, lifted, room, place; posting, and taking at the place
    let records = [
        (4, 3, None, 4, 2, Ok(()), Ok(())),
        (4, 3, None, 4, 3, Ok(()), Err(NoMessage)),
        (4, 4, None, 4, 3, Err(NetworkFull), Ok(())),
        (4, 4, None, 4, 4, Err(NetworkFull), Err(NoMessage)),
        (4, 0, None, 5, 0, Ok(()), Err(NoMessage)),
        (4, 3, Some(2), 4, 3, Err(TokenOut), Err(TokenOut)),
        (4, 4, Some(0), 4, 4, Err(TokenOut), Err(TokenOut)),
        (4, 3, Some(0), 4, 0, Err(TokenOut), Err(TokenOut)),
        (4, 4, Some(3), 3, 4, Err(Memory), Err(Memory)),
        (4, 4, None, 3, 4, Err(Memory), Err(Memory)),
    ];
    for (capacity, len, lifted, room, place, post, take) in records {
        let network = record(capacity, len, lifted);
        assert_eq!(rt; posting(&rt, network, room), post);
        assert_eq!(rt; taking(&rt, network, room, place), take);
    }
}

#[test]
fn refuses_a_record_that_does_not_fit_its_memory(rt: HostRuntime) {
    let records = [
        (0, 0, None, 4),
        (4, 0, None, 3),
        (4097, 0, None, 5),
        (4, 5, None, 5),
        (4, 5, Some(0), 5),
        (4, 3, Some(3), 4),
        (4, 3, Some(9), 4),
        (4, 0, Some(0), 4),
    ];
    for (capacity, len, lifted, room) in records {
        let network = record(capacity, len, lifted);
        assert!(rt; !network.fits(room));
        assert_eq!(rt; posting(&rt, network, room), Err(Memory));
        assert_eq!(rt; taking(&rt, network, room, 0), Err(Memory));
    }
}

#[test]
fn settling_closes_up_and_leaves_the_rest(rt: HostRuntime) {
    let settlings = [
        (0, 10, [11, 12, 13, 13, 14]),
        (1, 11, [10, 12, 13, 13, 14]),
        (2, 12, [10, 11, 13, 13, 14]),
        (3, 13, [10, 11, 12, 13, 14]),
    ];
    for (place, number, after) in settlings {
        let mut memory = five();
        let mut network = record(5, 4, None);
        assert_eq!(rt; settled(&mut network, &mut memory, place), Ok(note(number)));
        assert_eq!(rt; network, record(5, 3, None));
        assert_eq!(rt; memory, notes(after));
    }
}

#[test]
fn a_token_out_is_seen_in_the_record_and_put_back(rt: HostRuntime) -> Result<(), Fail> {
    let memory = five();
    let mut network = record(5, 4, None);
    let (message, token) = network.take(&memory, 3)?;
    let out = network;
    network.put_back(&memory, token);
    assert_eq!(rt; message, note(13));
    assert_eq!(rt; out, record(5, 4, Some(3)));
    assert_eq!(rt; network, record(5, 4, None));
    assert_eq!(rt; memory, five());
    Ok(())
}

#[test]
fn a_token_is_only_spent_where_nothing_can_be_settled(rt: HostRuntime) -> Result<(), Fail> {
    let records = [
        (4, 3, None, 4),
        (4, 0, None, 5),
        (4, 3, Some(1), 3),
        (4, 3, Some(3), 4),
        (4, 5, Some(0), 5),
        (0, 0, Some(0), 5),
    ];
    for (capacity, len, lifted, room) in records {
        let before = record(capacity, len, lifted);
        let mut memory = five();
        assert!(rt; room <= 5);
        let mut network = before;
        network.settle(&mut memory[..room], token_elsewhere()?);
        assert_eq!(rt; network, before);
        assert_eq!(rt; memory, five());
        network.put_back(&memory[..room], token_elsewhere()?);
        assert_eq!(rt; network, before);
    }
    Ok(())
}

#[test]
fn the_record_says_which_message_is_settled(rt: HostRuntime) -> Result<(), Fail> {
    let mut memory = five();
    let mut network = record(4, 3, Some(1));
    network.settle(&mut memory, token_elsewhere()?);
    assert_eq!(rt; network, record(4, 2, None));
    assert_eq!(rt; memory, notes([10, 12, 12, 13, 14]));
    Ok(())
}
