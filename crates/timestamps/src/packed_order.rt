// The order of packed timestamps.
ghost use Rattle.std.specs.Prelude.{◌≡◌};
ghost use Rattle.timestamps.specs.Laws.{higher};
ghost use Rattle.timestamps.specs.PackedOrder.{packed_above, packed_owner, packed_lowest, packed_successor, next_number};
ghost use Rattle.timestamps.specs.PackedLaws.{packed_laws};

use crate::Timestamp;
use crate::packed::Packed;

impl Packed {
    pub fn new(number: u64) -> Packed
        ensures { result.number ≡ number }
    {
        Packed { number }
    }

    fn lowest() -> Packed
        ensures { result.number ≡ 0 }
    {
        Packed::new(0)
    }
}

// The client's lowest number above top: in the row of 64 numbers of top, or in the row after it.
fn number_above(client: u8, top: u64) -> Option<u64>
    ensures { result ≡ next_number client top }
{
    if client >= 64 {
        return None;
    }
    let number = top - top % 64 + u64::from(client);
    if top < number {
        Some(number)
    } else {
        number.checked_add(64)
    }
}

impl Timestamp for Packed {
    ghost above = { packed_above };

    ghost owner = { packed_owner };

    ghost lowest = { packed_lowest };

    ghost successor = { packed_successor };

    ghost ordered = { packed_laws };

    fn initial() -> Packed {
        Packed::lowest()
    }

    fn is_above(self, other: Packed) -> bool {
        self > other
    }

    fn next(client: u8, a: Packed, b: Packed) -> Option<Packed> {
        // Kept: with map(Packed::new) the proof of the exact clause did not close.
        let number = number_above(client, b.max(a).number)?;
        Some(Packed::new(number))
    }
}
