// What the walks of count and of list carry, and how they open a block.
ghost use Rattle.query.specs.Opened.{OpenedNext};
ghost use Rattle.windows.specs.declared.Corners.{Corners};
ghost use Rattle.query.specs.Counting.{SumWithin};

use answers::{Found, Refusal};
use elements::Block;
use measures::lent::Slots;
use measures::sizes::Layout;
use measures::slots::wide;
use store::Damaged;
use walks::enter;

// What a walk comes to: the pixels found, the blocks opened, and the elements tested singly (02, P4).
#[derive(Clone, Copy)]
pub struct Sum {
    pub found: u32,
    pub opened: u32,
    pub tested: u32,
}

// One more block is opened. As many opened already as there are slots: the words are damaged.
pub fn open_next(slots: &Slots, above: u32, block: Block, opened: u32) -> Result<usize, Damaged>
    ensures { OpenedNext slots.now.layout slots.now.words.now above block.slot block.level block.code opened result }
{
    if slots.layout.slots <= wide(opened) {
        return Err(Damaged);
    }
    enter(slots, above, block)
}

// Never more pixels than 01's N, nor more blocks than there are slots, but on damaged words.
pub fn within(layout: Layout, most: u32, sum: Sum) -> Result<Found, Refusal>
    ensures { (corners : Corners) → SumWithin (record { layout = layout; corners = corners; most = most }) sum result }
{
    if most < sum.found {
        return Err(Refusal::StoreDamaged);
    }
    if layout.slots < wide(sum.opened) {
        return Err(Refusal::StoreDamaged);
    }
    Ok(Found {
        found: sum.found,
        opened: sum.opened,
    })
}
