// The threshold system: its limits, and how many servers are a quorum or fail-prone.
use crate::opening::refusal_of;
use quorums::QuorumSystem;
use quorums::sets::ServerSet;
use quorums::threshold::Threshold;
use std::process::Abort;
use std::test::Fail;

// The refusal of opening a system, which has so many faults where it is opened.
fn opening(rt: &impl Abort, n: u8, f: u8) -> Result<u8, Fail> {
    let opened = Threshold::open(n, f);
    if let Ok(system) = &opened {
        assert_eq!(rt; system.f, f);
    }
    refusal_of(rt, opened, n)
}

#[test]
fn opens_1_to_16_servers(rt: HostRuntime) -> Result<(), Fail> {
    let openings = [
        (0, 0, 1),
        (1, 0, 0),
        (1, 1, 1),
        (16, 0, 0),
        (17, 0, 1),
        (255, 0, 1),
        (16, 5, 0),
        (16, 6, 1),
        (17, 5, 1),
        (19, 6, 1),
        (255, 255, 1),
    ];
    for (n, f, refused) in openings {
        assert_eq!(rt; opening(&rt, n, f)?, refused);
    }
    Ok(())
}

#[test]
fn opens_from_three_times_the_faults_and_one_on(rt: HostRuntime) -> Result<(), Fail> {
    for (n, f) in [(4, 1), (7, 2), (10, 3), (13, 4), (16, 5)] {
        assert_eq!(rt; opening(&rt, n, f)?, 0);
    }
    for (n, f) in [(3, 1), (6, 2), (9, 3), (12, 4), (15, 5)] {
        assert_eq!(rt; opening(&rt, n, f)?, 1);
    }
    for (n, f) in [(5, 1), (8, 2), (11, 3), (14, 4)] {
        assert_eq!(rt; opening(&rt, n, f)?, 0);
    }
    Ok(())
}

#[test]
fn needs_half_of_all_and_the_faults_and_one(rt: HostRuntime) -> Result<(), Fail> {
    let systems = [
        (1, 0, 1),
        (4, 1, 3),
        (5, 1, 4),
        (6, 1, 4),
        (7, 2, 5),
        (16, 0, 9),
        (16, 5, 11),
    ];
    for (n, f, needed) in systems {
        assert_eq!(rt; Threshold::open(n, f)?.needed(), needed);
    }
    Ok(())
}

#[test]
fn quorum_has_the_needed_number(rt: HostRuntime) -> Result<(), Fail> {
    let questions = [
        (4, 1, 0b0111, true),
        (4, 1, 0b1110, true),
        (4, 1, 0b1100, false),
        (5, 1, 0b01111, true),
        (5, 1, 0b11101, true),
        (5, 1, 0b10110, false),
        (6, 1, 0b101101, true),
        (6, 1, 0b100110, false),
        (7, 2, 0b1011101, true),
        (7, 2, 0b1011001, false),
        (16, 5, 0x07ff, true),
        (16, 5, 0xffe0, true),
        (16, 5, 0x03ff, false),
        (16, 5, 0xffc0, false),
        (1, 0, 1, true),
        (1, 0, 0, false),
    ];
    for (n, f, mask, is_quorum) in questions {
        let system = Threshold::open(n, f)?;
        assert_eq!(rt; system.is_quorum(ServerSet { mask }), is_quorum);
    }
    Ok(())
}

#[test]
fn as_many_as_the_faults_are_fail_prone(rt: HostRuntime) -> Result<(), Fail> {
    let questions = [
        (1, 0, 0, true),
        (1, 0, 1, false),
        (4, 1, 0, true),
        (4, 1, 0b0100, true),
        (4, 1, 0b0101, false),
        (7, 2, 0b1000001, true),
        (7, 2, 0b1000011, false),
        (16, 5, 0xf800, true),
        (16, 5, 0xfc00, false),
    ];
    for (n, f, mask, is_fail_prone) in questions {
        let system = Threshold::open(n, f)?;
        assert_eq!(rt; system.is_fail_prone(ServerSet { mask }), is_fail_prone);
    }
    Ok(())
}

#[test]
fn servers_past_the_last_do_not_count(rt: HostRuntime) -> Result<(), Fail> {
    let questions = [
        (0xfff0, false, true),
        (0xfff1, false, true),
        (0xfff3, false, false),
        (0xfff7, true, false),
        (0xffff, true, false),
    ];
    let system = Threshold::open(4, 1)?;
    for (mask, is_quorum, is_fail_prone) in questions {
        assert_eq!(rt; system.is_quorum(ServerSet { mask }), is_quorum);
        assert_eq!(rt; system.is_fail_prone(ServerSet { mask }), is_fail_prone);
    }
    Ok(())
}
