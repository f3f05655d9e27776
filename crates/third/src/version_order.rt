// The order of versions.
ghost use Rattle.std.specs.Prelude.{◌≡◌};
ghost use Rattle.third.specs.VersionOrder.{version_above, version_owner, version_lowest, version_successor, next_number};
ghost use Rattle.third.specs.VersionLaws.{version_laws};

use crate::version::Version;
use timestamps::Timestamp;

impl Version {
    pub fn new(number: u8) -> Version
        ensures { result.number ≡ number }
    {
        Version { number }
    }
}

// The number after top, if it fits; only client 0 has one.
fn number_after(client: u8, top: u8) -> Option<u8>
    ensures { result ≡ next_number client top }
{
    if client == 0 {
        top.checked_add(1)
    } else {
        None
    }
}

impl Timestamp for Version {
    ghost above = { version_above };

    ghost owner = { version_owner };

    ghost lowest = { version_lowest };

    ghost successor = { version_successor };

    ghost ordered = { version_laws };

    fn initial() -> Version {
        Version::new(0)
    }

    fn is_above(self, other: Version) -> bool {
        self > other
    }

    fn next(client: u8, a: Version, b: Version) -> Option<Version> {
        number_after(client, b.max(a).number).map(Version::new)
    }
}
