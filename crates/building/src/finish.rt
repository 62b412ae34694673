ghost use Rattle.building.specs.Finish.{FinishDue, Finished};

use freeslots::free_from;
use laying::lay_block;
use packing::plan::Plan;
use packing::{Build, pack_complete};

// All codes are appended: what is left on the stack are the root's elements.
pub fn finish(store: &mut [u32], plan: Plan, stack: &mut [u32], build: Build, number: u32)
    requires { FinishDue plan store.old stack.old build number }
    ensures { Finished plan build number store.old store.new stack.old }
{
    let order = plan.sizes.order;
    let root = pack_complete(store, plan, stack, build, order);
    let elements = &stack[..2 * root.count];
    lay_block(store, plan.layout, 0, order, 0, elements, number);
    free_from(store, plan.layout, root.fresh);
}
