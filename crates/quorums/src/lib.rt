// Quorum systems: which sets of servers are quorums, and which may all be faulty at once.
#![tactic(auto)]

ghost use Rattle.std.specs.Prelude.{◌≡◌, ℕ, Bool};
ghost use Rattle.quorums.specs.Sets.{Set, members};
ghost use Rattle.quorums.specs.Laws.{QuorumLaws};

use crate::sets::ServerSet;

pub mod by_count;
pub mod by_list;
pub mod listed;
pub mod sets;
pub mod threshold;

pub trait QuorumSystem: Copy {
    // how many servers there are
    ghost size: { Self → ℕ };

    // which sets of servers are quorums
    ghost quorum: { Self → Set → Bool };

    // which sets of servers may all be faulty at once
    ghost fail_prone: { Self → Set → Bool };

    fn servers(&self) -> u8
        ensures { result ≡ size self.now };

    fn is_quorum(&self, set: ServerSet) -> bool
        ensures { result ≡ quorum self.now (members set) };

    fn is_fail_prone(&self, set: ServerSet) -> bool
        ensures { result ≡ fail_prone self.now (members set) };

    ghost lawful: { (q : Self) → QuorumLaws (size q) (quorum q) (fail_prone q) };
}
