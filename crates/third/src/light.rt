// Lights as values.
ghost use Rattle.third.specs.Lights.{same_light};
ghost use Rattle.third.specs.declared.light.Light.TheVariants.{Off};
ghost use Rattle.std.proofs.Common.{rules};

use values::Value;

#[derive(Clone, Copy, PartialEq, Eq, Debug)]
pub enum Light {
    Off,
    On,
    Broken,
}

impl Value for Light {
    ghost initial_value = { Off };

    ghost same = { same_light };

    ghost exact = { Prim.search rules };

    fn initial() -> Light {
        Self::Off
    }

    fn is_same(self, other: Light) -> bool {
        self == other
    }
}
