// What a client holds, and what comes of a message. Any content is possible.
use calls::Answer;
use network::message::Kind;
use quorums::sets::ServerSet;

// What the client is about. What a reading client knows stands in its reports.
#[derive(Clone, Copy, PartialEq, Eq, Debug)]
pub enum Phase<S, V> {
    Idle,
    Asking {
        value: V,
        told: ServerSet,
        highest: S,
    },
    Storing {
        timestamp: S,
        value: V,
        acknowledged: ServerSet,
    },
    Reading,
}

// The number of the last operation, the last timestamp chosen, and the phase.
#[derive(Clone, Copy, PartialEq, Eq, Debug)]
pub struct Client<S, V> {
    pub number: u32,
    pub last: S,
    pub phase: Phase<S, V>,
}

// One message to each server, in server order.
#[derive(Clone, Copy, PartialEq, Eq, Debug)]
pub struct Broadcast<S, V> {
    pub kind: Kind,
    pub number: u32,
    pub timestamp: S,
    pub value: V,
}

// What the client is afterwards, what is answered, and what goes to the servers, if anything does.
#[derive(Clone, Copy, PartialEq, Eq, Debug)]
pub struct Outcome<S, V> {
    pub client: Client<S, V>,
    pub answer: Answer<S, V>,
    pub broadcast: Option<Broadcast<S, V>>,
}
