// The order of paired timestamps.
ghost use Rattle.std.specs.Prelude.{◌≡◌, ◌^◌};
ghost use Rattle.timestamps.specs.PairedOrder.{Made, paired_above, paired_owner, paired_lowest, paired_successor, next_count};
ghost use Rattle.timestamps.specs.Laws.{higher, fitting};
ghost use Rattle.timestamps.specs.PairedLaws.{paired_laws};

use crate::Timestamp;
use crate::paired::Paired;

impl Paired {
    // A count with its client; none for a client from 64 on.
    pub fn new(count: u32, client: u8) -> Option<Paired>
        ensures { Made count client result }
    {
        if client < 64 {
            Some(Paired { count, client })
        } else {
            None
        }
    }

    fn lowest() -> Paired
        ensures { (result.count ≡ 0) × (result.client ≡ 0) }
    {
        Paired {
            count: 0,
            client: 0,
        }
    }

    // The client's lowest count above this timestamp, if it fits.
    fn count_above(self, client: u8) -> Option<u32>
        ensures { result ≡ fitting (2 ^ 32) (next_count client self) }
    {
        if self.client < client {
            Some(self.count)
        } else {
            self.count.checked_add(1)
        }
    }
}

impl Timestamp for Paired {
    ghost above = { paired_above };

    ghost owner = { paired_owner };

    ghost lowest = { paired_lowest };

    ghost successor = { paired_successor };

    ghost ordered = { paired_laws };

    fn initial() -> Paired {
        Paired::lowest()
    }

    fn is_above(self, other: Paired) -> bool {
        self > other
    }

    fn next(client: u8, a: Paired, b: Paired) -> Option<Paired> {
        Paired::new(b.max(a).count_above(client)?, client)
    }
}
