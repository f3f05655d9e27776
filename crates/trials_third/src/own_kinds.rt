// The unanimous system, versions and lights.
use quorums::QuorumSystem;
use quorums::sets::ServerSet;
use std::process::Abort;
use std::test::Fail;
use third::light::Light;
use third::unanimous::Unanimous;
use third::version::Version;
use timestamps::Timestamp;
use values::Value;

// The refusal's number on opening a system; 0 where it is opened, with so many servers.
// Kept: the tests' table has the numbers that the rules give.
fn opening(rt: &impl Abort, n: u8) -> Result<u8, Fail> {
    match Unanimous::open(n) {
        Ok(system) => {
            assert_eq!(rt; system.servers(), n);
            Ok(0)
        }
        Err(refusal) => Ok(u8::from(refusal)),
    }
}

#[test]
fn unanimous_system_has_1_to_16_servers(rt: HostRuntime) -> Result<(), Fail> {
    for (n, refused) in [(0, 1), (1, 0), (16, 0), (17, 1), (255, 1)] {
        assert_eq!(rt; opening(&rt, n)?, refused);
    }
    Ok(())
}

#[test]
fn all_servers_are_a_quorum_and_none_are_fail_prone(rt: HostRuntime) -> Result<(), Fail> {
    let questions = [
        (3, 0b111, (true, false)),
        (3, 0b011, (false, false)),
        (3, 0b110, (false, false)),
        (3, 0b101, (false, false)),
        (3, 0, (false, true)),
        (3, 0xfff8, (false, true)),
        (3, 0xffff, (true, false)),
        (16, 0xffff, (true, false)),
        (16, 0x7fff, (false, false)),
        (16, 0x8000, (false, false)),
        (16, 0, (false, true)),
        (1, 1, (true, false)),
        (1, 2, (false, true)),
    ];
    for (n, mask, answer) in questions {
        let system = Unanimous::open(n)?;
        let set = ServerSet { mask };
        assert_eq!(rt; (system.is_quorum(set), system.is_fail_prone(set)), answer);
    }
    Ok(())
}

fn next(client: u8, a: u8, b: u8) -> Option<u8> {
    Version::next(client, Version::new(a), Version::new(b)).map(|version| version.number)
}

#[test]
fn only_client_0_has_versions_and_they_run_out(rt: HostRuntime) {
    let choices = [
        (0, 0, 0, Some(1)),
        (0, 7, 3, Some(8)),
        (0, 3, 7, Some(8)),
        (0, 254, 0, Some(255)),
        (0, 255, 0, None),
        (0, 0, 255, None),
        (1, 0, 0, None),
        (255, 0, 0, None),
    ];
    for (client, a, b, chosen) in choices {
        assert_eq!(rt; next(client, a, b), chosen);
    }
    assert_eq!(rt; Version::initial().number, 0);
}

#[test]
fn versions_are_ordered_by_number(rt: HostRuntime) {
    for (a, b, above) in [
        (0, 0, false),
        (1, 0, true),
        (0, 1, false),
        (255, 254, true),
        (255, 255, false),
    ] {
        assert_eq!(rt; Version::new(a).is_above(Version::new(b)), above);
    }
}

#[test]
fn lights_are_the_same_in_one_case(rt: HostRuntime) {
    let lights = [(Light::Off, 0), (Light::On, 1), (Light::Broken, 2)];
    for (a, case) in lights {
        for (b, other) in lights {
            assert_eq!(rt; a.is_same(b), case == other);
        }
    }
    assert!(rt; Light::initial().is_same(Light::Off));
}
