// What is asked of a register and what it answers. A refusal has a number, by which scripts and terminals
// know it. S is the kind of timestamps and V that of values.
#![tactic(auto)]

ghost use Rattle.std.specs.Prelude.{◌≡◌};
ghost use Rattle.calls.specs.Answers.{answer_of};
ghost use Rattle.calls.specs.Refusals.{number_of};

use std::error::Error;
use std::fmt;

#[derive(Clone, Copy, PartialEq, Eq, Debug)]
pub enum Refusal {
    // the number of servers or of faults is out of range
    SystemSize = 1,
    // there is no listed set, there are too many, or one names a server that is not there
    ListedSets = 2,
    // three listed sets cover all servers
    SetsCover = 3,
    // a limit is passed, memory is too short, or a message names what is not there
    Memory = 4,
    NoClient = 5,
    NoServer = 6,
    // the client has an operation open
    OperationOpen = 7,
    // the client's operation numbers are used up
    NumbersUsedUp = 8,
    // more messages to send than the network has room for
    NetworkFull = 9,
    // no message at that place
    NoMessage = 10,
    // the faulty servers with this one are not fail-prone
    NotFailProne = 11,
    // a correct server does not forge
    ServerCorrect = 12,
    // the forged kind is none that a server sends
    NotServerKind = 13,
    // a message is lifted from the network
    TokenOut = 14,
    Digits = 15,
    UnknownFrame = 16,
    FrameLength = 17,
    OtherKinds = 18,
    NotOpened = 19,
    OpenedTwice = 20,
    ScriptTooLong = 21,
}

// What is asked: a client begins to write or to read; the message at a place of the queue is delivered;
// a server is faulty from now on; a faulty server sends a message of any content.
#[derive(Clone, Copy, PartialEq, Eq, Debug)]
pub enum Call<S, V> {
    Write {
        client: u8,
        value: V,
    },
    Read {
        client: u8,
    },
    Deliver {
        place: usize,
    },
    Turn {
        server: u8,
    },
    Forge {
        server: u8,
        client: u8,
        // Kept: a byte, since a faulty server may send any.
        kind: u8,
        number: u32,
        timestamp: S,
        value: V,
    },
}

// What is answered. An operation goes by its client and its number.
#[derive(Clone, Copy, PartialEq, Eq, Debug)]
pub enum Answer<S, V> {
    Begun {
        client: u8,
        number: u32,
    },
    Taken,
    FinishedWrite {
        client: u8,
        number: u32,
        timestamp: S,
    },
    FinishedRead {
        client: u8,
        number: u32,
        timestamp: S,
        value: V,
    },
    Spent {
        client: u8,
        number: u32,
    },
    Turned,
    Forged,
    // Kept: a run writes down what each call answers, so a refusal is one of the answers.
    Refused(Refusal),
}

// A refused call is answered too, since a run writes all answers down.
impl<S, V> From<Result<Answer<S, V>, Refusal>> for Answer<S, V> {
    ghost from_gives = { λ outcome answer. answer ≡ answer_of outcome };

    fn from(outcome: Result<Answer<S, V>, Refusal>) -> Answer<S, V> {
        // Kept: a match, since unwrap_or_else with the variant as a function has no proof rule.
        match outcome {
            Ok(answer) => answer,
            Err(refusal) => Answer::Refused(refusal),
        }
    }
}

impl From<Refusal> for u8 {
    ghost from_gives = { λ refusal number. number ≡ number_of refusal };

    fn from(refusal: Refusal) -> u8 {
        refusal as u8
    }
}

impl fmt::Display for Refusal {
    fn fmt<W: fmt::Write>(&self, f: &mut fmt::Formatter<W>) -> fmt::Result {
        let number = u8::from(*self);
        write!(f, "refused with {number}")
    }
}

impl Error for Refusal {}
