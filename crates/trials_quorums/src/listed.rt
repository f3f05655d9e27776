// The listed system: which lists are refused, and what is answered by one that is not.
use crate::opening::refusal_of;
use quorums::QuorumSystem;
use quorums::listed::Listed;
use quorums::sets::ServerSet;
use std::process::Abort;
use std::test::Fail;

fn set(mask: u16) -> ServerSet {
    ServerSet { mask }
}

// The refusal of opening a system of these sets.
fn opening(rt: &impl Abort, n: u8, sets: &[ServerSet]) -> Result<u8, Fail> {
    refusal_of(rt, Listed::open(n, sets), n)
}

// The refusal of opening a system with so many sets, each server 0 alone.
fn opening_many(rt: &impl Abort, n: u8, count: usize) -> Result<u8, Fail> {
    let sets = [set(1); 130];
    assert!(rt; count <= 130);
    opening(rt, n, &sets[0..count])
}

#[test]
fn opens_with_1_to_128_sets(rt: HostRuntime) -> Result<(), Fail> {
    for (count, refused) in [(0, 2), (1, 0), (127, 0), (128, 0), (129, 2), (130, 2)] {
        assert_eq!(rt; opening_many(&rt, 4, count)?, refused);
    }
    Ok(())
}

#[test]
fn opens_1_to_16_servers(rt: HostRuntime) -> Result<(), Fail> {
    // the number of servers is looked at before the list, and the list before what it covers
    for (n, refused) in [(0, 1), (1, 3), (2, 0), (16, 0), (17, 1), (255, 1)] {
        assert_eq!(rt; opening_many(&rt, n, 2)?, refused);
    }
    for (n, refused) in [(0, 1), (1, 2), (16, 2), (17, 1), (255, 1)] {
        assert_eq!(rt; opening_many(&rt, n, 0)?, refused);
        assert_eq!(rt; opening_many(&rt, n, 129)?, refused);
    }
    Ok(())
}

#[test]
fn sets_name_servers_that_are_there(rt: HostRuntime) -> Result<(), Fail> {
    let lists = [
        (4, 8, 0),
        (4, 16, 2),
        (4, 0x8000, 2),
        (4, 31, 2),
        (4, 0xffff, 2),
        (15, 0x4000, 0),
        (15, 0x8000, 2),
        (16, 0x8000, 0),
        (1, 0, 0),
        (1, 2, 2),
        (0, 16, 1),
        (17, 16, 1),
    ];
    for (n, mask, refused) in lists {
        assert_eq!(rt; opening(&rt, n, &[set(mask)])?, refused);
    }
    for (n, last, refused) in [(4, 4, 0), (4, 16, 2), (4, 15, 3), (0, 15, 1)] {
        assert_eq!(rt; opening(&rt, n, &[set(1), set(2), set(last)])?, refused);
    }
    Ok(())
}

#[test]
fn no_three_sets_cover_all_servers(rt: HostRuntime) -> Result<(), Fail> {
    let lists = [
        (4, [3, 4, 3], 0),
        (4, [3, 4, 8], 3),
        (4, [8, 3, 4], 3),
        (4, [3, 12, 0], 3),
        (4, [0, 15, 0], 3),
        (4, [14, 14, 14], 0),
        (4, [7, 7, 8], 3),
        (5, [3, 12, 0], 0),
        (5, [3, 12, 16], 3),
        (16, [0x00ff, 0x0f00, 0x7000], 0),
        (16, [0x00ff, 0x0f00, 0xf000], 3),
        (1, [0, 0, 0], 0),
        (1, [0, 1, 0], 3),
    ];
    for (n, masks, refused) in lists {
        let sets = [set(masks[0]), set(masks[1]), set(masks[2])];
        assert_eq!(rt; opening(&rt, n, &sets)?, refused);
    }
    assert_eq!(rt; opening(&rt, 4, &[set(15), set(16)])?, 2);
    assert_eq!(rt; opening(&rt, 4, &[set(1), set(2), set(4), set(8)])?, 0);
    assert_eq!(rt; opening(&rt, 4, &[set(0), set(1), set(2), set(12)])?, 3);
    Ok(())
}

#[test]
fn answers_for_two_servers_or_one(rt: HostRuntime) -> Result<(), Fail> {
    let system = Listed::open(4, &[set(3), set(4)])?;
    // of the masks 0 to 15: those with servers 2 and 3, or with 0, 1 and 3, are quorums
    let quorums = [
        false, false, false, false, false, false, false, false, false, false, false, true, true,
        true, true, true,
    ];
    for (servers, is_quorum) in (0..16u16).zip(quorums) {
        assert_eq!(rt; system.is_quorum(set(servers)), is_quorum);
        assert_eq!(rt; system.is_quorum(set(0xfff0 | servers)), is_quorum);
        // those with 0 and 1 only, or with 2 only, are fail-prone
        assert_eq!(rt; system.is_fail_prone(set(servers)), servers <= 4);
        assert_eq!(rt; system.is_fail_prone(set(0xfff0 | servers)), servers <= 4);
    }
    Ok(())
}
