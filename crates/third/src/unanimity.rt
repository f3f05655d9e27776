// The unanimous system: every server has to agree.
ghost use Rattle.std.specs.Prelude.{◌≡◌};
ghost use Rattle.quorums.specs.Sets.{members, outside};
ghost use Rattle.third.specs.Unanimity.{Opened, each, unanimous_size, unanimous_quorum, unanimous_fail_prone};
ghost use Rattle.third.specs.UnanimousLaws.{unanimous_laws};

use crate::unanimous::Unanimous;
use calls::Refusal;
use quorums::QuorumSystem;
use quorums::sets::{ServerSet, is_refused_size};

impl Unanimous {
    pub fn open(n: u8) -> Result<Unanimous, Refusal>
        ensures { Opened n result }
    {
        if is_refused_size(n) {
            return Err(Refusal::SystemSize);
        }
        Ok(Unanimous { n })
    }
}

// Whether all of the first n servers are in the set.
fn has_all(set: ServerSet, n: u8) -> bool
    ensures { result ≡ each n (members set) }
{
    (0..n).all(|server| set.contains(server))
}

// Whether none of the first n servers is in the set.
// Kept: two tests of one line; a function of both would take the test, and each would be a call of it.
fn has_none(set: ServerSet, n: u8) -> bool
    ensures { result ≡ each n (outside (members set)) }
{
    (0..n).all(|server| !set.contains(server))
}

impl QuorumSystem for Unanimous {
    ghost size = { unanimous_size };

    ghost quorum = { unanimous_quorum };

    ghost fail_prone = { unanimous_fail_prone };

    ghost lawful = { λ q. unanimous_laws q.n q.some q.few };

    fn servers(&self) -> u8 {
        self.n
    }

    fn is_quorum(&self, set: ServerSet) -> bool {
        has_all(set, self.n)
    }

    fn is_fail_prone(&self, set: ServerSet) -> bool {
        has_none(set, self.n)
    }
}
