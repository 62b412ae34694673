// What every walk over the blocks of a store begins with: the slot that an element names is entered.
#![tactic(auto)]

ghost use Rattle.walks.specs.Entered.{Entered};

use elements::Block;
use measures::lent::Slots;
use measures::slots::wide;
use store::Damaged;
use store::opening::open_part;

// The block that an element of a block of level `above` names: of a lower level, in a slot that there is, which says of itself what the element says.
pub fn enter(slots: &Slots, above: u32, block: Block) -> Result<usize, Damaged>
    ensures { Entered slots.now.layout slots.now.words.now above block.slot block.level block.code result }
{
    if above <= block.level {
        return Err(Damaged);
    }
    let at = wide(block.slot);
    if slots.layout.slots <= at {
        return Err(Damaged);
    }
    let part = slots.part(at);
    open_part(part, block.level, block.code)
}
