// Paired timestamps: their order, and the next of a client.
use std::test::Fail;
use timestamps::paired::Paired;
use timestamps::{Timestamp, higher_of, is_level};

const LAST: u32 = 4294967295;

fn parts(timestamp: Option<Paired>) -> Option<(u32, u8)> {
    timestamp.map(|timestamp| (timestamp.count, timestamp.client))
}

fn paired(parts: (u32, u8)) -> Result<Paired, Fail> {
    Paired::new(parts.0, parts.1).ok_or_else(|| Fail::new("no such client"))
}

#[test]
fn clients_are_0_to_63(rt: HostRuntime) {
    assert_eq!(rt; parts(Some(Paired::initial())), Some((0, 0)));
    for (count, client) in [(0, 0), (0, 63), (7, 5), (LAST, 63)] {
        assert_eq!(rt; parts(Paired::new(count, client)), Some((count, client)));
    }
    for (count, client) in [(0, 64), (7, 65), (LAST, 64), (LAST, 255)] {
        assert_eq!(rt; parts(Paired::new(count, client)), None);
    }
}

#[test]
fn order_is_by_count_then_client(rt: HostRuntime) -> Result<(), Fail> {
    let pairs = [
        ((0, 0), (0, 0), false),
        ((3, 5), (3, 5), false),
        ((3, 6), (3, 5), true),
        ((3, 4), (3, 5), false),
        ((4, 0), (3, 63), true),
        ((3, 63), (4, 0), false),
        ((LAST, 63), (LAST, 63), false),
        ((LAST, 63), (LAST, 62), true),
        ((LAST, 62), (LAST, 63), false),
        ((LAST, 63), (0, 0), true),
        ((0, 0), (LAST, 63), false),
    ];
    for (a, b, above) in pairs {
        assert_eq!(rt; paired(a)?.is_above(paired(b)?), above);
    }
    Ok(())
}

// The parts of the client's next timestamp above two others.
fn next(client: u8, a: (u32, u8), b: (u32, u8)) -> Result<Option<(u32, u8)>, Fail> {
    Ok(parts(Paired::next(client, paired(a)?, paired(b)?)))
}

#[test]
fn next_is_the_lowest_of_the_client_above_both(rt: HostRuntime) -> Result<(), Fail> {
    let choices = [
        (5, (0, 7), (0, 0), Some((1, 5))),
        (5, (0, 0), (0, 7), Some((1, 5))),
        (5, (0, 4), (0, 0), Some((0, 5))),
        (5, (0, 5), (0, 0), Some((1, 5))),
        (5, (0, 63), (3, 7), Some((4, 5))),
        (0, (0, 0), (0, 0), Some((1, 0))),
        (63, (0, 0), (0, 0), Some((0, 63))),
    ];
    for (client, a, b, chosen) in choices {
        assert_eq!(rt; next(client, a, b)?, chosen);
    }
    Ok(())
}

#[test]
fn next_runs_out_at_the_last_count(rt: HostRuntime) -> Result<(), Fail> {
    let choices = [
        (5, (LAST, 4), (0, 0), Some((LAST, 5))),
        (5, (LAST, 5), (0, 0), None),
        (5, (0, 0), (LAST, 6), None),
        (63, (LAST, 62), (LAST, 0), Some((LAST, 63))),
        (63, (LAST, 63), (0, 0), None),
        (0, (LAST - 1, 63), (0, 0), Some((LAST, 0))),
        (64, (0, 0), (0, 0), None),
        (64, (0, 63), (0, 0), None),
        (255, (0, 0), (0, 0), None),
        (255, (LAST, 63), (0, 0), None),
    ];
    for (client, a, b, chosen) in choices {
        assert_eq!(rt; next(client, a, b)?, chosen);
    }
    Ok(())
}

#[test]
fn the_higher_of_two_is_above_the_other(rt: HostRuntime) -> Result<(), Fail> {
    let pairs = [
        ((3, 5), (3, 5), (3, 5)),
        ((3, 6), (3, 5), (3, 6)),
        ((3, 63), (4, 0), (4, 0)),
        ((LAST, 0), (0, 63), (LAST, 0)),
    ];
    for (a, b, higher) in pairs {
        assert_eq!(rt; higher_of(paired(a)?, paired(b)?), paired(higher)?);
        assert_eq!(rt; is_level(paired(a)?, paired(b)?), a == b);
    }
    Ok(())
}
