ghost use Rattle.std.specs.Prelude.{◌^◌, ◌<◌};

// A timestamp in one number: its remainder by 64 is the client that owns it.
#[derive(Clone, Copy, PartialEq, Eq, PartialOrd, Ord, Debug)]
pub struct Packed {
    pub number: u64,
    ghost fits: { number < 2 ^ 64 },
}
