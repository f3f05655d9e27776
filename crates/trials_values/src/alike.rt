// Values: which totals and which price lines are the same.
use std::num::f64_from_bits_with_nan;
use values::Value;
use values::price_line::{PriceLine, same_price};
use values::total::Total;

#[test]
fn totals_are_the_same_if_equal(rt: HostRuntime) {
    let last = 18446744073709551615;
    let pairs = [
        (0, 0, true),
        (1, 0, false),
        (0, 1, false),
        (1250, 1250, true),
        (1250, 1251, false),
        (last, last, true),
        (last, last - 1, false),
        (last, 0, false),
    ];
    for (a, b, same) in pairs {
        assert_eq!(rt; Total::new(a).is_same(Total::new(b)), same);
    }
    assert!(rt; Total::initial().is_same(Total::new(0)));
}

#[test]
fn all_that_is_not_a_number_is_the_same(rt: HostRuntime) {
    let zero = 0.0;
    let prices = [
        f64::NAN,
        -f64::NAN,
        zero / zero,
        f64::INFINITY - f64::INFINITY,
        f64::INFINITY * zero,
        f64_from_bits_with_nan(0x7ff0000000000001),
        f64_from_bits_with_nan(0xfff8000000000123),
        f64_from_bits_with_nan(0xffffffffffffffff),
    ];
    for a in prices {
        for b in prices {
            assert!(rt; same_price(a, b));
            assert!(rt; PriceLine::Quoted(a).is_same(PriceLine::Quoted(b)));
        }
        for b in [0.0, -0.0, 1.5, f64::INFINITY, f64::NEG_INFINITY] {
            assert!(rt; !same_price(a, b));
            assert!(rt; !same_price(b, a));
        }
    }
}

#[test]
fn prices_are_the_same_by_their_bits(rt: HostRuntime) {
    let prices = [
        (0.0, 0.0, true),
        (-0.0, -0.0, true),
        (0.0, -0.0, false),
        (-0.0, 0.0, false),
        (1.5, 1.5, true),
        (1.5, -1.5, false),
        (1.5, 1.25, false),
        (0.1 + 0.2, 0.3, false),
        (5e-324, 5e-324, true),
        (5e-324, 0.0, false),
        (f64::INFINITY, f64::INFINITY, true),
        (f64::NEG_INFINITY, f64::NEG_INFINITY, true),
        (f64::INFINITY, f64::NEG_INFINITY, false),
        (f64::INFINITY, 1.7976931348623157e308, false),
    ];
    for (a, b, same) in prices {
        assert_eq!(rt; PriceLine::Quoted(a).is_same(PriceLine::Quoted(b)), same);
        assert_eq!(rt; same_price(a, b), same);
    }
}

#[test]
fn price_lines_of_two_cases_differ(rt: HostRuntime) {
    let absent = PriceLine::Absent;
    let quoted = PriceLine::Quoted(1.5);
    let scratched = PriceLine::Scratched;
    let pairs = [
        (absent, absent, true),
        (absent, quoted, false),
        (absent, scratched, false),
        (quoted, absent, false),
        (quoted, quoted, true),
        (quoted, scratched, false),
        (scratched, absent, false),
        (scratched, quoted, false),
        (scratched, scratched, true),
        (PriceLine::initial(), absent, true),
        (PriceLine::initial(), scratched, false),
    ];
    for (a, b, same) in pairs {
        assert_eq!(rt; a.is_same(b), same);
    }
}
