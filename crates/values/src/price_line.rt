// Price lines as values.
ghost use Rattle.std.specs.Prelude.{◌≡◌};
ghost use Rattle.values.specs.Prices.{same_float, same_bits, same_line};
ghost use Rattle.values.specs.declared.price_line.PriceLine.TheVariants.{Absent};
ghost use Rattle.values.specs.PriceLaws.{line_laws};

use crate::Value;

// What is known of a price.
#[derive(Clone, Copy, Debug)]
pub enum PriceLine {
    // no line yet
    Absent,
    // a price, which may be any float
    Quoted(f64),
    // the line is withdrawn
    Scratched,
}

fn bits_agree(x: f64, y: f64) -> bool
    ensures { result ≡ same_bits x y }
{
    match (x.is_nan(), y.is_nan()) {
        (true, true) => true,
        (false, false) => x.to_bits() == y.to_bits(),
        _ => false,
    }
}

// Whether two prices are equal: all that are not numbers are, and 0.0 and -0.0 are not.
pub fn same_price(x: f64, y: f64) -> bool
    ensures structural { result ≡ same_float x y }
    ensures by_bits { result ≡ same_bits x y }
{
    bits_agree(x, y)
}

// Kept: a derived == would go by the floats' own, which is not exact for 0.0 and for not a number.
impl Value for PriceLine {
    ghost initial_value = { Absent };

    ghost same = { same_line };

    ghost exact = { line_laws };

    fn initial() -> PriceLine {
        Self::Absent
    }

    fn is_same(self, other: PriceLine) -> bool {
        match (self, other) {
            (PriceLine::Absent, PriceLine::Absent) | (PriceLine::Scratched, PriceLine::Scratched) =>
                true,
            (PriceLine::Quoted(x), PriceLine::Quoted(y)) => same_price(x, y),
            _ => false,
        }
    }
}
