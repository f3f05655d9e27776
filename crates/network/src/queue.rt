// The network: a queue of messages in memory that the caller lends, and the token for a message
// that is lifted from it.
ghost use Rattle.std.specs.Prelude.{◌≡◌, ℕ, ◌+◌, ◌-◌, ◌<◌, ◌≤◌, Bool, length, slice_index_or};
ghost use Rattle.calls.specs.Refusals.{first_failed, passed};
ghost use Rattle.network.specs.Queues.{sized, below, fits, closed, whole_checks, send_checks, Opened, Posted, Taken, Peeked, settled, closed_up, restored};

use crate::message::Message;
use calls::Refusal;

pub const MOST_MESSAGES: usize = 4096;

// What goes with the memory of a network: how many messages it may hold, how many it holds, and the
// place of the one that is lifted. The messages stand in the memory's first places, oldest first.
// Kept: the memory stands beside it, lent to each call, since the record outlives the loans and owns no heap.
#[derive(Clone, Copy, PartialEq, Eq, Debug)]
pub struct Network {
    pub capacity: usize,
    pub len: usize,
    pub lifted: Option<usize>,
}

// Stands for a lifted message. It is neither Copy nor Drop: it has to be spent, once, by settling
// the message or by putting it back.
pub struct Token {
    place: usize,
}

impl Network {
    // An empty network of this capacity over this memory.
    pub fn open<S, V>(capacity: usize, memory: &[Message<S, V>]) -> Result<Network, Refusal>
        ensures { Opened capacity (length memory.now) result }
    {
        if !sized(capacity, memory.len()) {
            return Err(Refusal::Memory);
        }
        Ok(Network {
            capacity,
            len: 0,
            lifted: None,
        })
    }

    // Puts a message behind the others.
    pub fn post<S: Copy, V: Copy>(
        &mut self,
        memory: &mut [Message<S, V>],
        message: Message<S, V>,
    ) -> Result<(), Refusal>
        ensures { Posted self.old memory.old message result self.new memory.new }
    {
        self.admits(memory.len(), 1)?;
        memory[self.len] = message;
        self.len += 1;
        Ok(())
    }

    // Lifts the message at a place, and hands out the token for it.
    pub fn take<S: Copy, V: Copy>(
        &mut self,
        memory: &[Message<S, V>],
        place: usize,
    ) -> Result<(Message<S, V>, Token), Refusal>
        ensures { Taken self.old memory.now place result self.new }
    {
        self.check_whole(memory.len())?;
        if place >= self.len {
            return Err(Refusal::NoMessage);
        }
        self.lifted = Some(place);
        Ok((message_at(memory, place), Token { place }))
    }

    // Spends a token: the lifted message is gone, and the queue closes up.
    pub fn settle<S: Copy, V: Copy>(&mut self, memory: &mut [Message<S, V>], token: Token)
        ensures network { self.new ≡ settled self.old (length memory.old) }
        ensures memory { memory.new ≡ closed_up self.old memory.old }
    {
        let Token { place: _ } = token;
        if !self.fits(memory.len()) {
            return;
        }
        if let Some(place) = self.lifted {
            close_up(memory, place, self.len);
            *self = Network {
                len: self.len - 1,
                lifted: None,
                ..*self
            };
        }
    }

    // Spends a token: the lifted message stands in its place again.
    pub fn put_back<S, V>(&mut self, memory: &[Message<S, V>], token: Token)
        ensures { self.new ≡ restored self.old (length memory.now) }
    {
        let Token { place: _ } = token;
        if self.fits(memory.len()) {
            self.lifted = None;
        }
    }

    // The message at a place, which stays there.
    pub fn peek<S: Copy, V: Copy>(
        &mut self,
        memory: &[Message<S, V>],
        place: usize,
    ) -> Result<Message<S, V>, Refusal>
        ensures { Peeked self.old memory.now place result self.new }
    {
        let (message, token) = self.take(memory, place)?;
        self.put_back(memory, token);
        Ok(message)
    }

    // Whether so many messages more may be sent, in a memory of so many.
    pub fn admits(&self, room: usize, sending: usize) -> Result<(), Refusal>
        ensures { result ≡ passed (first_failed (send_checks self.now room sending)) }
    {
        self.check_whole(room)?;
        if sending > self.capacity - self.len {
            return Err(Refusal::NetworkFull);
        }
        Ok(())
    }

    // Whether the record goes with a memory of so many messages, and none is lifted.
    fn check_whole(&self, room: usize) -> Result<(), Refusal>
        ensures { result ≡ passed (first_failed (whole_checks self.now room)) }
    {
        if !self.fits(room) {
            return Err(Refusal::Memory);
        }
        if self.lifted.is_some() {
            return Err(Refusal::TokenOut);
        }
        Ok(())
    }

    // Whether the record goes with a memory of so many messages.
    pub fn fits(&self, room: usize) -> bool
        ensures { result ≡ fits self.now room }
    {
        sized(self.capacity, room) && self.len <= self.capacity && below(self.lifted, self.len)
    }
}

// Whether a capacity is within the limits and the memory.
fn sized(capacity: usize, room: usize) -> bool
    ensures { result ≡ sized capacity room }
{
    0 < capacity && capacity <= MOST_MESSAGES && capacity <= room
}

// Whether a place, if there is one, is below the length.
fn below(place: Option<usize>, len: usize) -> bool
    ensures { result ≡ below place len }
{
    place.is_none_or(|place| place < len)
}

// The message at a place.
// Kept: by a rule of this project messages and listeners in lent memory are read field by field.
fn message_at<S: Copy, V: Copy>(memory: &[Message<S, V>], place: usize) -> Message<S, V>
    requires { place < length memory.now }
    ensures { result ≡ slice_index_or memory.now place result }
{
    Message {
        client: memory[place].client,
        server: memory[place].server,
        kind: memory[place].kind,
        number: memory[place].number,
        timestamp: memory[place].timestamp,
        value: memory[place].value,
    }
}

// Moves the messages behind a place one place down.
fn close_up<S: Copy, V: Copy>(memory: &mut [Message<S, V>], place: usize, len: usize)
    requires { (place < len) × (len ≤ length memory.old) }
    ensures { memory.new ≡ closed memory.old place len }
{
    memory.copy_within(place + 1..len, place);
}
