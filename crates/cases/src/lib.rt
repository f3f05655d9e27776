// Worked cases of the rules, stated over the definitions that the contracts cite.
#![tactic(auto)]

ghost use Rattle.std.specs.Prelude.{◌≡◌};
ghost use Rattle.cases.specs.Worked.{Cases};

fn count() -> u8
    ensures { result ≡ 17 }
{
    17
}

// How many cases there are. All of them hold.
pub fn cases_hold() -> u8
    ensures count { result ≡ 17 }
    ensures hold { Cases }
{
    count()
}
