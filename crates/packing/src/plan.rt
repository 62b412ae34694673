// For which sizes a register is built, and where its slots lie: the layout is that of the sizes, which no contract repeats.
ghost use Rattle.std.specs.Prelude.{◌≡◌};
ghost use Rattle.measures.specs.Layout.{LaidOut};
ghost use Rattle.measures.specs.Sizes.{ValidSizes};

use measures::sizes::{Layout, Sizes, layout_of};

#[derive(Clone, Copy)]
pub struct Plan {
    pub sizes: Sizes,
    pub layout: Layout,
    ghost valid: { ValidSizes sizes },
    ghost laid: { LaidOut sizes layout },
}

impl Plan {
    pub fn of(sizes: Sizes) -> Plan
        requires { ValidSizes sizes }
        ensures { result.sizes ≡ sizes }
    {
        Plan {
            sizes,
            layout: layout_of(sizes),
        }
    }
}
