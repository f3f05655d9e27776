// Values that a register holds, with an equality that is exact.
#![tactic(auto)]

ghost use Rattle.std.specs.Prelude.{◌≡◌, Bool};
ghost use Rattle.values.specs.Laws.{ValueLaws};

pub mod price_line;
pub mod total;
pub mod total_value;

pub trait Value: Copy {
    // what a register holds before the first write
    ghost initial_value: { Self };

    // whether two values are equal
    ghost same: { Self → Self → Bool };

    fn initial() -> Self
        ensures { result ≡ initial_value };

    fn is_same(self, other: Self) -> bool
        ensures { result ≡ same self other };

    ghost exact: { ValueLaws same };
}
