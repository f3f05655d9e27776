// What a server holds, and how it listens to a client. Any content is possible.

#[derive(Clone, Copy, PartialEq, Eq, Debug)]
pub struct Server<S, V> {
    pub timestamp: S,
    pub value: V,
}

// The number of the client's last read that the server knows of, whether the server still listens
// for it, and the timestamp that it listens from.
// Kept: the timestamp stays once the server no longer listens, so no Option can hold the two.
#[derive(Clone, Copy, PartialEq, Eq, Debug)]
pub struct Listener<S> {
    pub number: u32,
    pub listening: bool,
    pub start: S,
}
