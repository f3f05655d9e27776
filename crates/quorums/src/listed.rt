ghost use Rattle.std.specs.Prelude.{◌≡◌, ◌<◌, ◌≤◌, false, length, take};
ghost use Rattle.quorums.specs.Lists.{covered};

use crate::sets::ServerSet;

// So many sets of servers a system lists at most.
pub const MOST_SETS: usize = 128;

// n servers, and up to 128 sets of them: the servers of a set may all be faulty at once.
// No three of the sets have all servers together.
#[derive(Clone, Copy, PartialEq, Eq, Debug)]
pub struct Listed {
    pub n: u8,
    // Kept: a register's record is Copy, has no heap, and outlives the sets that it was opened with.
    pub count: usize,
    pub sets: [ServerSet; MOST_SETS],
    ghost some: { 0 < n },
    ghost few: { n ≤ 16 },
    ghost room: { count ≤ 128 },
    ghost filled: { 0 < length (take count sets) },
    ghost apart: { covered n (take count sets) ≡ false },
}
