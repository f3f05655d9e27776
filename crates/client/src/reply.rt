// A message from a server that may be there.
ghost use Rattle.std.specs.Prelude.{◌<◌};

use network::message::Message;

// The number of its server is below 16, the most that there are.
#[derive(Drop)]
pub(crate) struct Reply<S, V> {
    pub(crate) message: Message<S, V>,
    ghost few: { message.server < 16 },
}
