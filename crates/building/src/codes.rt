// Codes from whatever gives them, in a slice or in an image: each is appended, and the root takes what is left.
ghost use Rattle.std.specs.Iterator.{IsFinite};
ghost use Rattle.building.specs.Given.{AppendAllDue, AllAppended, BuildWithDue, BuiltWith};

use crate::finish::finish;
use packing::plan::Plan;
use packing::{Build, append, empty_build};

fn append_all<I: Iterator<Item = u32> + Drop>(
    store: &mut [u32],
    plan: Plan,
    stack: &mut [u32],
    codes: I,
) -> Build
    requires can { I.can_next codes }
    requires ends { IsFinite (I.remaining codes) }
    requires due { AppendAllDue I.next_gives codes plan store.old stack.old }
    ensures { AllAppended I.next_gives codes plan store.old store.new stack.old stack.new result }
{
    let mut build = empty_build();
    for code in codes {
        build = append(store, plan, stack, build, code);
    }
    build
}

// The register of these codes, of which there are so many.
pub fn build_with<I: Iterator<Item = u32> + Drop>(
    store: &mut [u32],
    plan: Plan,
    stack: &mut [u32],
    codes: I,
    number: u32,
)
    requires can { I.can_next codes }
    requires ends { IsFinite (I.remaining codes) }
    requires due { BuildWithDue I.next_gives codes plan store.old stack.old number }
    ensures { BuiltWith I.next_gives codes plan number store.old store.new stack.old }
{
    let build = append_all(store, plan, stack, codes);
    finish(store, plan, stack, build, number);
}
