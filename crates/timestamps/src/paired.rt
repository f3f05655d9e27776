ghost use Rattle.std.specs.Prelude.{◌^◌, ◌<◌};

// A timestamp in two parts: a count, and the client that owns it. The derived order is by the count, and then by the client.
#[derive(Clone, Copy, PartialEq, Eq, PartialOrd, Ord, Debug)]
pub struct Paired {
    pub count: u32,
    pub client: u8,
    ghost fits: { count < 2 ^ 32 },
    ghost known: { client < 64 },
}
