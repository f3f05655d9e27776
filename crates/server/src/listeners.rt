// How a server listens to its clients: a row of listeners, client 0 first.
ghost use Rattle.std.specs.Prelude.{◌≡◌, ◌<◌, ◌≤◌, length, count_by};
ghost use Rattle.server.specs.Serving.{silent, updated, wants, wanting, passed};
ghost use Rattle.server.specs.Receiving.{listener_in};

use crate::state::Listener;
use network::message::{Kind, Message};
use timestamps::Timestamp;
use values::Value;

impl<S: Timestamp> Listener<S> {
    // A listener at first.
    pub fn silent() -> Listener<S>
        ensures { result ≡ silent S.lowest }
    {
        Listener {
            number: 0,
            listening: false,
            start: S::initial(),
        }
    }

    // Whether the client is passed this timestamp.
    pub(crate) fn wants(&self, timestamp: S) -> bool
        ensures { result ≡ wants S.above self.now timestamp }
    {
        self.listening && !self.start.is_above(timestamp)
    }

    // The pair of a STORE for this client.
    pub(crate) fn passed<V: Value>(&self, message: Message<S, V>, client: u8) -> Message<S, V>
        ensures { result ≡ passed message client self.now }
    {
        Message {
            client,
            kind: u8::from(Kind::Value),
            number: self.number,
            ..message
        }
    }
}

// How many clients of the row want a timestamp.
pub(crate) fn count_wanting<S: Timestamp>(listeners: &[Listener<S>], timestamp: S) -> usize
    ensures { result ≡ count_by (λ listener. wants S.above listener timestamp) listeners.now }
{
    listeners
        .iter()
        .filter(|listener| listener.wants(timestamp))
        .count()
}

// How the server listens to a client.
// Kept: by a rule of this project messages and listeners in lent memory are read field by field.
pub(crate) fn listener_of<S: Timestamp>(listeners: &[Listener<S>], client: u8) -> Listener<S>
    ensures { result ≡ listener_in S.lowest listeners.now client }
{
    let Some(listener) = listeners.get(usize::from(client)) else {
        return Listener::silent();
    };
    Listener {
        number: listener.number,
        listening: listener.listening,
        start: listener.start,
    }
}

// A message from a client of the row of listeners, in memory that the caller lends.
#[derive(Drop)]
pub(crate) struct Arrival<'a, S, V> {
    pub(crate) listeners: &'a mut [Listener<S>],
    pub(crate) message: &'a Message<S, V>,
    ghost few: { length listeners.now ≤ 64 },
    ghost within: { message.now.client < length listeners.now },
}

impl<'a, S, V> Arrival<'a, S, V> {
    // A message to this row.
    pub(crate) fn new(
        listeners: &'a mut [Listener<S>],
        message: &'a Message<S, V>,
    ) -> Arrival<'a, S, V>
        requires few { length listeners.old ≤ 64 }
        requires within { message.now.client < length listeners.old }
        ensures memory { result.listeners.ghost_name ≡ listeners.entry.ghost_name }
        ensures row { result.listeners.now ≡ listeners.old }
        ensures message { result.message.now ≡ message.now }
    {
        Arrival { listeners, message }
    }
}

impl<S: Timestamp, V: Value> Arrival<'_, S, V> {
    // How the server listens to the client of the message.
    pub(crate) fn listener(&self) -> Listener<S>
        ensures { result ≡ listener_in S.lowest self.now.listeners.now self.now.message.now.client }
    {
        listener_of(self.listeners, self.message.client)
    }

    // Another listener for the client of the message, written whole.
    pub(crate) fn set(&mut self, listener: Listener<S>)
        ensures memory { self.new.listeners.ghost_name ≡ self.old.listeners.ghost_name }
        ensures row { listener_in S.lowest self.new.listeners.now ≡ updated (listener_in S.lowest self.old.listeners.now) self.old.message.now.client listener }
    {
        self.listeners[usize::from(self.message.client)] = listener;
    }
}
