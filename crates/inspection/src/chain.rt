ghost use Rattle.inspection.specs.Chain.{ChainMeets};

use freeslots::NO_SLOT;
use measures::lent::Slots;
use measures::slots::{LEVEL, NEXT, wide};
use measures::words::FIRST_FREE;
use store::Damaged;

// How many slots the chain of free slots has, if it ends: it is followed no further than there are slots.
pub fn count_free(slots: &Slots) -> Result<usize, Damaged>
    ensures { ChainMeets slots.now.layout slots.now.words.now result }
{
    let layout = slots.layout;
    let mut next = slots.words[FIRST_FREE];
    for count in 0..=layout.slots {
        if next == NO_SLOT {
            return Ok(count);
        }
        let slot = wide(next);
        if layout.slots <= slot {
            return Err(Damaged);
        }
        let part = slots.part(slot);
        if part[LEVEL] != 0 {
            return Err(Damaged);
        }
        next = part[NEXT];
    }
    Err(Damaged)
}
