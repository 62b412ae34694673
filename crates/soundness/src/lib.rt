// Whether a store is sound: the core of 01's check. It only reads, looks at no more blocks than there are slots, and keeps no scratch memory.
#![tactic(auto)]

ghost use Rattle.measures.specs.Decides.{Decides};
ghost use Rattle.store.specs.Sound.{IsSound};

use elements::Block;
use inspection::chain::count_free;
use measures::lent::Register;
use measures::slots::wide;
use measures::words::BLOCKS;
use traversal::{Claim, Seen, Walk};

// 01's check, where refusal 3 does not apply: is the store sound?
pub fn is_sound(register: &Register) -> bool
    ensures { Decides result (IsSound register.now.words.now) }
{
    let sizes = register.sizes;
    let slots = register.slots();
    let walk = Walk {
        slots,
        k: sizes.k,
        most: sizes.most,
    };
    let root = Claim {
        block: Block {
            slot: 0,
            level: sizes.order,
            code: 0,
        },
        least: 0,
    };
    let Ok(seen) = walk.walk_block(root, Seen::default()) else {
        return false;
    };
    let Ok(free) = count_free(&slots) else {
        return false;
    };
    if wide(seen.blocks) + free != slots.layout.slots {
        return false;
    }
    register.words[BLOCKS] == seen.blocks
}
