ghost use Rattle.std.specs.Prelude.{◌+◌, ◌*◌, ◌≤◌};

// n servers of which up to f may be faulty at once.
#[derive(Clone, Copy, PartialEq, Eq, Debug)]
pub struct Threshold {
    pub n: u8,
    pub f: u8,
    ghost few: { n ≤ 16 },
    ghost low: { 3 * f + 1 ≤ n },
}
