// Sets of at most 16 servers.
ghost use Rattle.std.specs.Prelude.{◌≡◌, ℕ, ◌-◌, ◌^◌, ◌<◌, ◌≤◌, ◌&&◌, ◌||◌, ◌==◌, nat_lt, min};
ghost use Rattle.quorums.specs.Sets.{members, none, below, either, tally, all, part_of, refused_size};

// So many servers a system has at most.
pub const MOST_SERVERS: u8 = 16;

// Whether no system has so many servers: none, or more than are allowed.
pub fn is_refused_size(n: u8) -> bool
    ensures { result ≡ refused_size n }
{
    n == 0 || n > MOST_SERVERS
}

// Server i is in the set where digit i of the mask, from the lowest, is 1.
#[derive(Clone, Copy, PartialEq, Eq, Debug)]
pub struct ServerSet {
    pub mask: u16,
}

impl ServerSet {
    pub fn empty() -> ServerSet
        ensures mask { result.mask ≡ 0 }
        ensures members { members result ≡ none }
    {
        ServerSet::first(0)
    }

    // The set with the server in it too; a server from 16 on changes nothing.
    pub fn with(self, server: u8) -> ServerSet
        ensures { (i : ℕ) → members result i ≡ (members self i || (i == server && nat_lt server 16)) }
    {
        if server < MOST_SERVERS {
            self.union(ServerSet::only(server))
        } else {
            self
        }
    }

    #[tactic(auto, using(crate::proofs::Masks::bits_at, crate::proofs::Masks::bits_end))]
    pub fn contains(self, server: u8) -> bool
        ensures { result ≡ members self server }
    {
        self.mask
            .checked_shr(server.into())
            .is_some_and(|rest| rest % 2 == 1)
    }

    // The first n servers, or all 16 where n is more.
    pub(crate) fn first(n: u8) -> ServerSet
        ensures mask { result.mask ≡ 2 ^ min n 16 - 1 }
        ensures members { members result ≡ below (min n 16) }
    {
        ServerSet {
            mask: ((1u32 << n.min(MOST_SERVERS)) - 1) as u16,
        }
    }

    // The one server.
    fn only(server: u8) -> ServerSet
        requires { server < 16 }
        ensures { (i : ℕ) → members result i ≡ (i == server) }
    {
        ServerSet { mask: 1 << server }
    }

    pub(crate) fn union(self, other: ServerSet) -> ServerSet
        ensures each { (i : ℕ) → members result i ≡ (members self i || members other i) }
        ensures members { members result ≡ either (members self) (members other) }
    {
        ServerSet {
            mask: self.mask | other.mask,
        }
    }

    // How many of the first n servers are in the set.
    pub(crate) fn count(self, n: u8) -> u8
        ensures { result ≡ tally n (members self) }
    {
        (self.mask & ServerSet::first(n).mask).count_ones() as u8
    }

    // Whether all of the first n servers are in the set.
    #[tactic(auto, using(crate::specs::Counts::tally_all))]
    pub(crate) fn covers(self, n: u8) -> bool
        ensures { result ≡ all n (members self) }
    {
        self.count(n) == n
    }

    // Whether those of the first n servers that are in this set are all in the other.
    #[tactic(auto, using(crate::specs::Counts::tally_part_of))]
    pub(crate) fn is_part_of(self, other: ServerSet, n: u8) -> bool
        ensures { result ≡ part_of n (members self) (members other) }
    {
        self.union(other).count(n) == other.count(n)
    }
}
