// Timestamps of clients, in a strict total order.
#![tactic(auto)]

ghost use Rattle.std.specs.Prelude.{◌≡◌, ℕ, Bool, Option, not, ◌&&◌};
ghost use Rattle.timestamps.specs.Laws.{higher, Next, TimestampLaws};

pub mod packed;
pub mod packed_order;
pub mod paired;
pub mod paired_order;

pub trait Timestamp: Copy {
    // whether the first is above the second
    ghost above: { Self → Self → Bool };

    // the client that owns a timestamp
    ghost owner: { Self → ℕ };

    // the lowest, initial timestamp
    ghost lowest: { Self };

    // the lowest timestamp of a client above two others, if there is one
    ghost successor: { ℕ → Self → Self → Option Self };

    fn initial() -> Self
        ensures { result ≡ lowest };

    fn is_above(self, other: Self) -> bool
        ensures { result ≡ above self other };

    fn next(client: u8, a: Self, b: Self) -> Option<Self>
        ensures exact { result ≡ successor client a b }
        ensures least { Next above owner client a b result };

    ghost ordered: { TimestampLaws above owner lowest successor };
}

// The higher of two timestamps; of equals, the first.
pub fn higher_of<S: Timestamp>(a: S, b: S) -> S
    ensures { result ≡ higher S.above a b }
{
    if b.is_above(a) { b } else { a }
}

// Whether two timestamps are equal: neither is above the other.
pub fn is_level<S: Timestamp>(a: S, b: S) -> bool
    ensures { result ≡ (not (S.above a b) && not (S.above b a)) }
{
    !a.is_above(b) && !b.is_above(a)
}
