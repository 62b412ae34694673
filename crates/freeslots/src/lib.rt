// The chain of free slots: a slot taken out of it, a slot given back, the slots from one on put into it.
#![tactic(auto)]

ghost use Rattle.std.specs.Prelude.{◌+◌, ◌≤◌, ◌<◌};
ghost use Rattle.measures.specs.Layout.{LayoutFits};
ghost use Rattle.freeslots.specs.FreeSlots.{TookFree, Released, FreeFrom};

use measures::sizes::Layout;
use measures::slots::{NEXT, offset, wide};
use measures::words::{BLOCKS, FIRST_FREE};

// The end of the chain of free slots.
pub const NO_SLOT: u32 = 0xFFFFFFFF;

// The first free slot, taken out of the chain: none, where no slot is free or the words are damaged.
pub fn take_free(store: &mut [u32], layout: Layout) -> Option<u32>
    requires { LayoutFits layout store.old }
    ensures { TookFree layout store.old store.new result }
{
    let first = store[FIRST_FREE];
    if layout.slots <= wide(first) {
        return None;
    }
    let held = store[BLOCKS];
    if layout.slots <= wide(held) {
        return None;
    }
    let at = offset(layout, wide(first));
    // The level is a slot's first word.
    if store[at] != 0 {
        return None;
    }
    store[FIRST_FREE] = store[at + NEXT];
    store[BLOCKS] = held + 1;
    Some(first)
}

// A slot given back: it becomes the first of the chain, and so many blocks are held then.
pub fn release(store: &mut [u32], layout: Layout, slot: usize, held: u32)
    requires { LayoutFits layout store.old × (slot < layout.slots) }
    ensures { Released layout.width slot held store.old store.new }
{
    let at = offset(layout, slot);
    store[at] = 0;
    store[at + NEXT] = store[FIRST_FREE];
    store[FIRST_FREE] = slot as u32;
    store[BLOCKS] = held;
}

// The slots from `first` on are put into a chain of their own, the lowest first.
pub fn free_from(store: &mut [u32], layout: Layout, first: usize)
    requires { LayoutFits layout store.old × (first ≤ layout.slots) }
    ensures { FreeFrom layout first store.old store.new }
{
    store[FIRST_FREE] = NO_SLOT;
    store[BLOCKS] = layout.slots as u32;
    for slot in (first..layout.slots).rev() {
        release(store, layout, slot, slot as u32);
    }
}
