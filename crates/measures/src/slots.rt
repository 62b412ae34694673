ghost use Rattle.std.specs.Prelude.{◌+◌, ◌*◌, ◌<◌, ◌≡◌};
ghost use Rattle.measures.specs.Layout.{LayoutWithin, LayoutFits, SlotOffset};
ghost use Rattle.measures.specs.Slot.{slot_part};

use crate::sizes::Layout;
use crate::words::HEAD_WORDS;

// The indices of the words of a slot.
pub const LEVEL: usize = 0;

pub const CODE: usize = 1;

pub const COUNT: usize = 2;

pub const NEXT: usize = 3;

pub const NUMBER: usize = 4;

// So many come before its elements, which have two words each.
pub const SLOT_HEAD: usize = 8;

// The words that the elements of a slot have where k is 16, the most.
pub const MOST_ELEMENT_WORDS: usize = 10 * (16 - 1);

// And so many elements, of two words each.
pub const MOST_ELEMENTS: usize = 75;

// A level above every root's: 01's m is at most 16.
pub const LEVEL_ABOVE_ROOT: u32 = 17;

// A word as a size: the cast is proved here once.
pub fn wide(x: u32) -> usize
    ensures { result ≡ x }
{
    x as usize
}

// Where a slot begins.
pub fn offset(layout: Layout, slot: usize) -> usize
    requires { LayoutWithin layout × (slot < layout.slots) }
    ensures { SlotOffset layout slot result }
{
    HEAD_WORDS + slot * layout.width
}

// 01: the words of one slot are handed on as a part of the store.
pub fn slot_part(store: &[u32], layout: Layout, slot: usize) -> &[u32]
    requires { LayoutFits layout store.now × (slot < layout.slots) }
    ensures { result.now ≡ slot_part layout.width store.now slot }
{
    let at = offset(layout, slot);
    let width = layout.width;
    &store[at..at + width]
}
