// Rewriting slots: each is lent on for writing as a part of the store.
#![tactic(auto)]

ghost use Rattle.std.specs.Prelude.{◌+◌, ◌*◌, ◌≤◌, ◌<◌, ◌≡◌, length};
ghost use Rattle.std.proofs.Math.Seq.{paste};
ghost use Rattle.measures.specs.Layout.{LayoutFits, most_elements};
ghost use Rattle.measures.specs.Slot.{slot_part, element_index, slot_head};
ghost use Rattle.sums.specs.Sum.{number_of_elements};
ghost use Rattle.elements.specs.Splice.{elements_in, CanSplice, with_header};
ghost use Rattle.measures.proofs.SlotWrites.{SlotWritten};
ghost use Rattle.rewrite.specs.Rewrite.{RunWithin, CanCut, CanLayBeside, CanHandUp, run_words, SplicedSlot, RunMoved, LaidBeside, FormMeets, HandedUpBlock, HandedUpAll};

use elements::{block_tag, copy_words, splice, write_header};
use freeslots::{release, take_free};
use measures::sizes::Layout;
use measures::slots::{COUNT, MOST_ELEMENT_WORDS, SLOT_HEAD, offset, slot_part, wide};
use measures::words::BLOCKS;
use store::Damaged;
use sums::number_of_elements;

// The elements of a slot written anew; its header is left to `head_slot`.
fn lay_elements(store: &mut [u32], layout: Layout, slot: usize, source: &[u32], count: usize)
    requires layout_fits { LayoutFits layout store.old × (slot < layout.slots) }
    requires count_bound { (element_index count ≤ layout.width) × (2 * count ≤ length source.now) }
    ensures { SlotWritten layout.width slot store.old (paste (slot_part layout.width store.old slot) slot_head source.now (2 * count)) store.new }
{
    let at = offset(layout, slot);
    let width = layout.width;
    copy_words(&mut store[at..at + width], SLOT_HEAD, source, 2 * count);
}

// The header of a slot written anew.
fn head_slot(
    store: &mut [u32],
    layout: Layout,
    slot: usize,
    level: u32,
    code: u32,
    count: usize,
    number: u32,
)
    requires { (LayoutFits layout store.old × (slot < layout.slots)) × (count ≤ most_elements) }
    ensures { SlotWritten layout.width slot store.old (with_header (slot_part layout.width store.old slot) level code count number) store.new }
{
    let at = offset(layout, slot);
    let width = layout.width;
    let elements = count as u32;
    write_header(&mut store[at..at + width], level, code, elements, number);
}

// 01: a slot being rewritten is lent on for writing as a part of the store.
pub fn splice_slot(
    store: &mut [u32],
    layout: Layout,
    slot: usize,
    place: usize,
    removed: usize,
    source: &[u32],
    inserted: usize,
)
    requires layout_fits { LayoutFits layout store.old × (slot < layout.slots) }
    requires can_splice { CanSplice (slot_part layout.width store.old slot) source.now place removed inserted }
    ensures { SplicedSlot layout.width slot place removed inserted source.now store.old store.new }
{
    let at = offset(layout, slot);
    let width = layout.width;
    splice(&mut store[at..at + width], place, removed, source, inserted);
}

// The words of a run of a slot's elements, copied out.
fn copy_run(target: &mut [u32], at: usize, part: &[u32], first: usize, size: usize)
    requires { RunWithin part.now first size × (at + 2 * size ≤ length target.old) }
    ensures { target.new ≡ paste target.old at (run_words (elements_in part.now) first size) (2 * size) }
{
    let from = SLOT_HEAD + 2 * first;
    copy_words(target, at, &part[from..], 2 * size);
}

// A run of a slot's elements laid as the first elements of another slot, or of the same.
fn move_run(store: &mut [u32], layout: Layout, slot: usize, first: usize, size: usize, other: usize)
    requires layout_fits { LayoutFits layout store.old × ((slot < layout.slots) × (other < layout.slots)) }
    requires run_within { RunWithin (slot_part layout.width store.old slot) first size }
    ensures { RunMoved layout.width slot first size other store.old store.new }
{
    let mut moved = [0u32; MOST_ELEMENT_WORDS];
    copy_run(&mut moved, 0, slot_part(store, layout, slot), first, size);
    lay_elements(store, layout, other, &moved, size);
}

// How many pixels a run of a slot's elements stands for.
fn number_of_run(store: &[u32], layout: Layout, part: &[u32], first: usize, size: usize) -> u32
    requires { LayoutFits layout store.now × (RunWithin part.now first size × (size ≤ most_elements)) }
    ensures { result ≡ number_of_elements layout store.now size (run_words (elements_in part.now) first size) }
{
    let at = SLOT_HEAD + 2 * first;
    number_of_elements(store, layout, &part[at..], size)
}

// A block that a run of a slot's elements is to become: its level and its code, and the run's first element and size.
#[derive(Clone, Copy)]
pub struct NewBlock {
    pub level: u32,
    pub code: u32,
    pub first: usize,
    pub size: usize,
}

// A run of a slot's elements becomes a block of its own, in a free slot, and one element in their place. The header of the free slot
// comes last: in damaged words it may be the same slot, and the splice reads the number of its elements.
pub fn form_block(
    store: &mut [u32],
    layout: Layout,
    slot: usize,
    block: NewBlock,
) -> Result<(), Damaged>
    requires { CanCut layout store.old slot block.level block.first block.size × (1 ≤ block.size) }
    ensures { FormMeets layout slot block.level block.code block.first block.size store.old store.new result }
{
    let NewBlock {
        level,
        code,
        first,
        size,
    } = block;
    let Some(fresh) = take_free(store, layout) else {
        return Err(Damaged);
    };
    let number = number_of_run(store, layout, slot_part(store, layout, slot), first, size);
    move_run(store, layout, slot, first, size, wide(fresh));
    let one = [code, block_tag(fresh, level)];
    splice_slot(store, layout, slot, first, size, &one, 1);
    head_slot(store, layout, wide(fresh), level, code, size, number);
    Ok(())
}

// The elements beside a run, with the run as a block in this slot between them, laid in the scratch.
fn lay_beside(part: &[u32], slot: usize, block: NewBlock, scratch: &mut [u32]) -> usize
    requires { CanLayBeside part.now slot block.level block.first block.size scratch.old }
    ensures { LaidBeside part.now slot block.level block.code block.first block.size scratch.old scratch.new result }
{
    let NewBlock {
        level,
        code,
        first,
        size,
    } = block;
    let left = wide(part[COUNT]) - first - size;
    copy_run(scratch, 0, part, 0, first);
    scratch[2 * first] = code;
    scratch[2 * first + 1] = block_tag(slot as u32, level);
    copy_run(scratch, 2 * first + 2, part, first + size, left);
    first + 1 + left
}

// A block that has turned underfull hands its elements to the block around it: those beside the run, and the run as a block,
// which takes over the slot, so that no slot is needed for it.
pub fn hand_up_block(
    store: &mut [u32],
    layout: Layout,
    slot: usize,
    block: NewBlock,
    scratch: &mut [u32],
) -> usize
    requires { CanHandUp layout store.old slot block.level block.first block.size scratch.old }
    ensures { HandedUpBlock layout slot block.level block.code block.first block.size store.old store.new scratch.old scratch.new result }
{
    let NewBlock {
        level,
        code,
        first,
        size,
    } = block;
    let rest = lay_beside(slot_part(store, layout, slot), slot, block, scratch);
    let number = number_of_run(store, layout, slot_part(store, layout, slot), first, size);
    move_run(store, layout, slot, first, size, slot);
    head_slot(store, layout, slot, level, code, size, number);
    rest
}

// An underfull block that forms none hands all its elements up, and its slot is free again.
pub fn hand_up_all(store: &mut [u32], layout: Layout, slot: usize, scratch: &mut [u32]) -> usize
    requires { CanHandUp layout store.old slot 0 0 0 scratch.old }
    ensures { HandedUpAll layout slot store.old store.new scratch.old scratch.new result }
{
    let part = slot_part(store, layout, slot);
    let count = wide(part[COUNT]);
    copy_run(scratch, 0, part, 0, count);
    let held = store[BLOCKS];
    // Damaged words may count no block where there is one.
    release(store, layout, slot, held.saturating_sub(1));
    count
}
