ghost use Rattle.std.specs.Prelude.{◌^◌, ◌<◌};

// A sum of money in pence.
#[derive(Clone, Copy, PartialEq, Eq, Debug)]
pub struct Total {
    pub pence: u64,
    ghost fits: { pence < 2 ^ 64 },
}
