// The listed system: quorums and fail-prone sets by a list of the largest fail-prone sets.
ghost use Rattle.std.specs.Prelude.{◌≡◌, ◌≤◌, length, take};
ghost use Rattle.std.specs.List.{list_any};
ghost use Rattle.quorums.specs.Sets.{members, either, all};
ghost use Rattle.quorums.specs.Lists.{contained, completed, covered, past};
ghost use Rattle.quorums.specs.ByList.{Opened, bad_list, sets_of, listed_size, listed_quorum, listed_fail_prone};
ghost use Rattle.quorums.specs.Listings.{listed_laws};

use crate::QuorumSystem;
use crate::listed::{Listed, MOST_SETS};
use crate::sets::{MOST_SERVERS, ServerSet, is_refused_size};
use calls::Refusal;

impl Listed {
    pub fn open(n: u8, sets: &[ServerSet]) -> Result<Listed, Refusal>
        ensures { Opened n sets.now result }
    {
        if is_refused_size(n) {
            return Err(Refusal::SystemSize);
        }
        if is_bad_list(sets, n) {
            return Err(Refusal::ListedSets);
        }
        if three_cover(sets, n) {
            return Err(Refusal::SetsCover);
        }
        Ok(Listed {
            n,
            count: sets.len(),
            sets: stored(sets),
        })
    }

    // The sets that are listed.
    fn listed(&self) -> &[ServerSet]
        ensures { result.now ≡ sets_of self.now }
    {
        &self.sets[..self.count]
    }
}

impl QuorumSystem for Listed {
    ghost size = { listed_size };

    ghost quorum = { listed_quorum };

    ghost fail_prone = { listed_fail_prone };

    ghost lawful = { λ q. listed_laws q.n (sets_of q) q.some q.few q.filled q.apart };

    fn servers(&self) -> u8 {
        self.n
    }

    fn is_quorum(&self, set: ServerSet) -> bool {
        some_completes(self.listed(), set, self.n)
    }

    fn is_fail_prone(&self, set: ServerSet) -> bool {
        some_contains(self.listed(), set, self.n)
    }
}

// The list in an array of fixed length.
fn stored(sets: &[ServerSet]) -> [ServerSet; MOST_SETS]
    requires { length sets.now ≤ 128 }
    ensures { take (length sets.now) result ≡ sets.now }
{
    let mut all = [ServerSet::empty(); MOST_SETS];
    all[..sets.len()].copy_from_slice(sets);
    all
}

// Whether the list is empty, too long, or has a set with a server from n on.
fn is_bad_list(sets: &[ServerSet], n: u8) -> bool
    ensures { result ≡ bad_list n sets.now }
{
    sets.is_empty() || sets.len() > MOST_SETS || some_past(sets, n)
}

// Whether some set has a server from n on.
fn some_past(sets: &[ServerSet], n: u8) -> bool
    ensures { result ≡ list_any (λ s. past n (members s)) sets.now }
{
    sets.iter().any(|set| is_past(*set, n))
}

// Whether the set has a server from n on.
fn is_past(set: ServerSet, n: u8) -> bool
    ensures { result ≡ past n (members set) }
{
    !set.is_part_of(ServerSet::first(n), MOST_SERVERS)
}

// Whether the set is a part of some listed set.
// Kept: a loop here and in the next, since `any` takes three times as long: of the two the compiler looks only at the loop's sets
// several at a time.
fn some_contains(sets: &[ServerSet], set: ServerSet, n: u8) -> bool
    ensures { result ≡ contained n sets.now (members set) }
{
    for listed in sets {
        if set.is_part_of(*listed, n) {
            return true;
        }
    }
    false
}

// Whether some listed set and this set have all n servers together.
fn some_completes(sets: &[ServerSet], set: ServerSet, n: u8) -> bool
    ensures { result ≡ completed n sets.now (members set) }
{
    for listed in sets {
        if completes(*listed, set, n) {
            return true;
        }
    }
    false
}

// Whether the two sets have all n servers together.
fn completes(listed: ServerSet, set: ServerSet, n: u8) -> bool
    ensures { result ≡ all n (either (members listed) (members set)) }
{
    listed.union(set).covers(n)
}

// Whether some three of the sets have all n servers together.
fn three_cover(sets: &[ServerSet], n: u8) -> bool
    ensures { result ≡ covered n sets.now }
{
    sets.iter().any(|set| two_cover_with(sets, *set, n))
}

// Whether some two of the sets and the given one have all n servers together.
fn two_cover_with(sets: &[ServerSet], given: ServerSet, n: u8) -> bool
    ensures { result ≡ list_any (λ s. completed n sets.now (either (members given) (members s))) sets.now }
{
    sets.iter()
        .any(|set| some_completes(sets, given.union(*set), n))
}
