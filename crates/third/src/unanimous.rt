ghost use Rattle.std.specs.Prelude.{◌<◌, ◌≤◌};

// n servers, none of which may be faulty: only all of them together are a quorum.
#[derive(Clone, Copy, PartialEq, Eq, Debug)]
pub struct Unanimous {
    pub n: u8,
    ghost some: { 0 < n },
    ghost few: { n ≤ 16 },
}
