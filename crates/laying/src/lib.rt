// A block laid into a slot: its header, its elements and the number of its pixels.
#![tactic(auto)]

ghost use Rattle.std.specs.Prelude.{◌+◌, ◌%◌, ◌≤◌, ◌≡◌, length};
ghost use Rattle.measures.specs.Layout.{most_element_words};
ghost use Rattle.measures.specs.Slot.{slot_head};
ghost use Rattle.laying.specs.Blocks.{LayDue, PartLaid, BlockLaid};

use elements::{copy_words, write_header};
use measures::sizes::Layout;
use measures::slots::{SLOT_HEAD, offset};

// The elements of a slot, and the header that says how many they are and how many pixels they stand for.
fn lay_part(part: &mut [u32], level: u32, code: u32, elements: &[u32], number: u32)
    requires { (slot_head + length elements.now ≤ length part.old) × ((length elements.now % 2 ≡ 0) × (length elements.now ≤ most_element_words)) }
    ensures { PartLaid part.new level code number elements.now }
{
    copy_words(part, SLOT_HEAD, elements, elements.len());
    let count = (elements.len() / 2) as u32;
    write_header(part, level, code, count, number);
}

// A block with its elements and the number of its pixels, written to a slot.
pub fn lay_block(
    store: &mut [u32],
    layout: Layout,
    slot: usize,
    level: u32,
    code: u32,
    elements: &[u32],
    number: u32,
)
    requires { LayDue layout store.old slot elements.now }
    ensures { BlockLaid layout.width slot level code number elements.now store.old store.new }
{
    let at = offset(layout, slot);
    let part = &mut store[at..at + layout.width];
    lay_part(part, level, code, elements, number);
}
