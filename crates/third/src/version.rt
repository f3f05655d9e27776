ghost use Rattle.std.specs.Prelude.{◌^◌, ◌<◌};

// A timestamp of the one client that writes, which is client 0.
#[derive(Clone, Copy, PartialEq, Eq, PartialOrd, Ord, Debug)]
pub struct Version {
    pub number: u8,
    ghost fits: { number < 2 ^ 8 },
}
