// Sets of servers: servers 0 to 15 can be in one.
use quorums::sets::ServerSet;

#[test]
fn set_is_empty_at_first(rt: HostRuntime) {
    assert_eq!(rt; ServerSet::empty().mask, 0);
}

#[test]
fn server_from_16_on_changes_nothing(rt: HostRuntime) {
    let additions = [
        (0, 0, 1),
        (0, 15, 0x8000),
        (0, 16, 0),
        (0, 255, 0),
        (5, 2, 5),
        (5, 1, 7),
        (0x7fff, 15, 0xffff),
        (0x7fff, 16, 0x7fff),
    ];
    for (mask, server, after) in additions {
        let set = ServerSet { mask };
        assert_eq!(rt; set.with(server).mask, after);
    }
}

#[test]
fn set_contains_the_servers_of_its_mask(rt: HostRuntime) {
    let questions = [
        (5, 0, true),
        (5, 1, false),
        (5, 2, true),
        (5, 3, false),
        (0x8000, 15, true),
        (0x8000, 14, false),
        (0x7fff, 15, false),
        (0xffff, 15, true),
        (0xffff, 16, false),
        (0xffff, 255, false),
        (0, 0, false),
    ];
    for (mask, server, contained) in questions {
        let set = ServerSet { mask };
        assert_eq!(rt; set.contains(server), contained);
    }
}
