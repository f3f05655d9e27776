// Totals as values.
ghost use Rattle.std.specs.Prelude.{◌≡◌};
ghost use Rattle.values.specs.TotalValues.{no_pence, same_total};
ghost use Rattle.values.specs.TotalLaws.{total_laws};

use crate::Value;
use crate::total::Total;

impl Total {
    pub fn new(pence: u64) -> Total
        ensures { result.pence ≡ pence }
    {
        Total { pence }
    }

    fn zero() -> Total
        ensures { result.pence ≡ 0 }
    {
        Total::new(0)
    }
}

impl Value for Total {
    ghost initial_value = { no_pence };

    ghost same = { same_total };

    ghost exact = { total_laws };

    fn initial() -> Total {
        Total::zero()
    }

    fn is_same(self, other: Total) -> bool {
        self == other
    }
}
