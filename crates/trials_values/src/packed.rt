// Packed timestamps: their order, and the next of a client.
use timestamps::packed::Packed;
use timestamps::{Timestamp, higher_of, is_level};

const LAST: u64 = 18446744073709551615;

#[test]
fn initial_is_zero(rt: HostRuntime) {
    assert_eq!(rt; Packed::initial().number, 0);
}

#[test]
fn order_is_that_of_numbers(rt: HostRuntime) {
    let pairs = [
        (0, 0, false),
        (1, 0, true),
        (0, 1, false),
        (69, 69, false),
        (70, 69, true),
        (68, 69, false),
        (LAST, LAST, false),
        (LAST, LAST - 1, true),
        (LAST - 1, LAST, false),
        (LAST, 0, true),
        (0, LAST, false),
    ];
    for (a, b, above) in pairs {
        assert_eq!(rt; Packed::new(a).is_above(Packed::new(b)), above);
    }
}

// The number of the client's next timestamp above two numbers.
fn next(client: u8, a: u64, b: u64) -> Option<u64> {
    Packed::next(client, Packed::new(a), Packed::new(b)).map(|timestamp| timestamp.number)
}

#[test]
fn next_is_the_lowest_of_the_client_above_both(rt: HostRuntime) {
    let choices = [
        (5, 0, 0, Some(5)),
        (0, 0, 0, Some(64)),
        (63, 0, 0, Some(63)),
        (63, 63, 63, Some(127)),
        (5, 64, 0, Some(69)),
        (5, 0, 64, Some(69)),
        (5, 68, 5, Some(69)),
        (5, 69, 69, Some(133)),
        (5, 5, 70, Some(133)),
    ];
    for (client, a, b, chosen) in choices {
        assert_eq!(rt; next(client, a, b), chosen);
    }
}

#[test]
fn next_runs_out_at_the_last_number(rt: HostRuntime) {
    let choices = [
        (62, LAST - 2, 0, Some(LAST - 1)),
        (62, LAST - 1, 0, None),
        (62, 0, LAST - 1, None),
        (63, LAST - 1, 0, Some(LAST)),
        (63, LAST, 0, None),
        (0, LAST, LAST, None),
        (0, LAST - 64, 0, Some(LAST - 63)),
        (0, LAST - 63, 0, None),
    ];
    for (client, a, b, chosen) in choices {
        assert_eq!(rt; next(client, a, b), chosen);
    }
}

#[test]
fn clients_from_64_on_have_no_timestamp(rt: HostRuntime) {
    for client in [64, 65, 128, 255] {
        assert_eq!(rt; next(client, 0, 0), None);
        assert_eq!(rt; next(client, LAST, 0), None);
    }
}

#[test]
fn the_higher_of_two_has_the_higher_number(rt: HostRuntime) {
    for (a, b, higher) in [(0, 0, 0), (69, 70, 70), (LAST, 5, LAST)] {
        assert_eq!(rt;
            higher_of(Packed::new(a), Packed::new(b)),
            Packed::new(higher)
        );
        assert_eq!(rt; is_level(Packed::new(a), Packed::new(b)), a == b);
    }
}
