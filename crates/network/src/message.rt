// A message, and the seven kinds of messages.
ghost use Rattle.std.specs.Prelude.{◌≡◌};
ghost use Rattle.network.specs.Kinds.{byte_of, Decoded};

use std::error::Error;
use std::fmt;

// Client to server: Query, Store, Read, Stop. Server to client: Ts, Ack, Value. Each has the byte that stands for it.
#[derive(Clone, Copy, PartialEq, Eq, Debug)]
pub enum Kind {
    Query = 1,
    Ts = 2,
    Store = 3,
    Ack = 4,
    Read = 5,
    Value = 6,
    Stop = 7,
}

// A byte that stands for no kind.
#[derive(Clone, Copy, PartialEq, Eq, Debug)]
pub struct UnknownKind(pub u8);

impl From<Kind> for u8 {
    ghost from_gives = { λ kind byte. byte ≡ byte_of kind };

    fn from(kind: Kind) -> u8 {
        kind as u8
    }
}

// Kept: the one table of bytes, since no derive reads a kind from its byte.
impl TryFrom<u8> for Kind {
    type Error = UnknownKind;

    ghost try_from_gives = { Decoded };

    fn try_from(byte: u8) -> Result<Kind, UnknownKind> {
        match byte {
            1 => Ok(Kind::Query),
            2 => Ok(Kind::Ts),
            3 => Ok(Kind::Store),
            4 => Ok(Kind::Ack),
            5 => Ok(Kind::Read),
            6 => Ok(Kind::Value),
            7 => Ok(Kind::Stop),
            _ => Err(UnknownKind(byte)),
        }
    }
}

impl fmt::Display for Kind {
    fn fmt<W: fmt::Write>(&self, f: &mut fmt::Formatter<W>) -> fmt::Result {
        f.write_str(match self {
            Kind::Query => "QUERY",
            Kind::Ts => "TS",
            Kind::Store => "STORE",
            Kind::Ack => "ACK",
            Kind::Read => "READ",
            Kind::Value => "VALUE",
            Kind::Stop => "STOP",
        })
    }
}

impl fmt::Display for UnknownKind {
    fn fmt<W: fmt::Write>(&self, f: &mut fmt::Formatter<W>) -> fmt::Result {
        f.write_str("no kind")
    }
}

impl Error for UnknownKind {}

// A message names a client and a server, whichever way it goes. S is the kind of timestamps and V that of values.
#[derive(Clone, Copy, PartialEq, Eq, Debug)]
pub struct Message<S, V> {
    pub client: u8,
    pub server: u8,
    // Kept: a byte, since a faulty server may send any.
    pub kind: u8,
    pub number: u32,
    pub timestamp: S,
    pub value: V,
}
