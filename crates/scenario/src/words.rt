// Calls and answers in words.
use calls::{Answer, Call};
use network::message::Kind;
use std::fmt;
use timestamps::packed::Packed;
use values::total::Total;

#[derive(Drop)]
pub struct CallInWords(pub Call<Packed, Total>);

#[derive(Drop)]
pub struct AnswerInWords(pub Answer<Packed, Total>);

// Writes the name of the kind that a byte stands for.
// Kept: each of the two programs tells its run in words of its own.
fn write_kind<W: fmt::Write>(kind: u8, f: &mut fmt::Formatter<W>) -> fmt::Result {
    match Kind::try_from(kind) {
        Ok(kind) => write!(f, "{kind}"),
        Err(unknown) => write!(f, "{unknown}"),
    }
}

impl fmt::Display for CallInWords {
    fn fmt<W: fmt::Write>(&self, f: &mut fmt::Formatter<W>) -> fmt::Result {
        match self.0 {
            Call::Write { client, value } => {
                write!(f, "write {} by client {client}", value.pence)
            }
            Call::Read { client } => write!(f, "read by client {client}"),
            Call::Deliver { place } => write!(f, "deliver place {place}"),
            Call::Turn { server } => write!(f, "turn server {server}"),
            Call::Forge {
                server,
                client,
                kind,
                number,
                timestamp,
                value,
            } => {
                write!(f, "forge ")?;
                write_kind(kind, f)?;
                write!(
                    f,
                    " {number} of server {server} to client {client} with timestamp {} and total {}",
                    timestamp.number, value.pence
                )
            }
        }
    }
}

impl fmt::Display for AnswerInWords {
    fn fmt<W: fmt::Write>(&self, f: &mut fmt::Formatter<W>) -> fmt::Result {
        match self.0 {
            Answer::Begun { number, .. } => write!(f, "begun as operation {number}"),
            Answer::Taken => write!(f, "taken"),
            Answer::FinishedWrite {
                client,
                number,
                timestamp,
            } => {
                write!(
                    f,
                    "write {number} of client {client} finished with timestamp {}",
                    timestamp.number
                )
            }
            Answer::FinishedRead {
                client,
                number,
                timestamp,
                value,
            } => {
                write!(
                    f,
                    "read {number} of client {client} finished with timestamp {} and total {}",
                    timestamp.number, value.pence
                )
            }
            Answer::Spent { client, number } => write!(
                f,
                "write {number} of client {client} ended without a timestamp"
            ),
            Answer::Turned => write!(f, "turned"),
            Answer::Forged => write!(f, "forged"),
            Answer::Refused(refusal) => write!(f, "{refusal}"),
        }
    }
}
