// The threshold system: quorums and fail-prone sets by how many servers they have.
ghost use Rattle.std.specs.Prelude.{◌≡◌};
ghost use Rattle.quorums.specs.ByCount.{Opened, needed, threshold_size, threshold_quorum, threshold_fail_prone};
ghost use Rattle.quorums.specs.Counts.{threshold_laws};

use crate::QuorumSystem;
use crate::sets::{ServerSet, is_refused_size};
use crate::threshold::Threshold;
use calls::Refusal;

impl Threshold {
    pub fn open(n: u8, f: u8) -> Result<Threshold, Refusal>
        ensures { Opened n f result }
    {
        if is_refused_size(n) || f > 5 || 3 * f + 1 > n {
            return Err(Refusal::SystemSize);
        }
        Ok(Threshold { n, f })
    }

    // How many servers are a quorum.
    pub fn needed(&self) -> u8
        ensures { result ≡ needed self.now.n self.now.f }
    {
        (self.n + self.f + 1).div_ceil(2)
    }
}

impl QuorumSystem for Threshold {
    ghost size = { threshold_size };

    ghost quorum = { threshold_quorum };

    ghost fail_prone = { threshold_fail_prone };

    ghost lawful = { λ q. threshold_laws q.n q.f q.few q.low };

    fn servers(&self) -> u8 {
        self.n
    }

    fn is_quorum(&self, set: ServerSet) -> bool {
        set.count(self.n) >= self.needed()
    }

    fn is_fail_prone(&self, set: ServerSet) -> bool {
        set.count(self.n) <= self.f
    }
}
