// One block of the path of a change: its elements change, a block is formed in it, or its elements go up.
#![tactic(auto)]

ghost use Rattle.std.specs.Prelude.{◌≤◌, ◌<◌};
ghost use Rattle.rewrite.specs.Rewrite.{CanHandUp};
ghost use Rattle.step.specs.Step.{CanPut, PutMeets, CanRegroup, RegroupMeets, UnderfullMeets, StepMeets};

use measures::sizes::Layout;
use measures::slots::{COUNT, LEVEL, offset, slot_part, wide};
use rewrite::{NewBlock, form_block, hand_up_all, hand_up_block, splice_slot};
use runs::{RunFound, find_run};
use store::Damaged;

// Where the slots lie, k, and the code at which the set changes.
#[derive(Clone, Copy)]
pub struct Change {
    pub layout: Layout,
    pub k: usize,
    pub code: u32,
}

// In a slot, elements give way to those of the scratch words; answers how many there are then.
fn put(
    store: &mut [u32],
    layout: Layout,
    slot: usize,
    place: usize,
    removed: usize,
    scratch: &[u32],
    inserted: usize,
) -> Result<usize, Damaged>
    requires { CanPut layout store.old slot place removed inserted scratch.now }
    ensures { PutMeets layout slot place removed inserted scratch.now store.old store.new result }
{
    let at = offset(layout, slot);
    let room = (layout.width - 8) / 2;
    let count = wide(store[at + COUNT]);
    if room < count {
        return Err(Damaged);
    }
    if count < place + removed {
        return Err(Damaged);
    }
    let after = count - removed + inserted;
    if room < after {
        return Err(Damaged);
    }
    splice_slot(store, layout, slot, place, removed, scratch, inserted);
    Ok(after)
}

// A run becomes a block: in a free slot where the block around it stays, else in the slot of the underfull block, which hands the rest up.
fn regroup(
    store: &mut [u32],
    change: Change,
    root: bool,
    slot: usize,
    run: RunFound,
    scratch: &mut [u32],
) -> Result<Option<usize>, Damaged>
    requires { CanRegroup change store.old slot run.level run.first run.length scratch.old }
    ensures { RegroupMeets change root slot run.level run.first run.length store.old store.new scratch.old scratch.new result }
{
    let layout = change.layout;
    let block = NewBlock {
        level: run.level,
        code: morton::block_around(change.code, run.level),
        first: run.first,
        size: run.length,
    };
    let at = offset(layout, slot);
    let rest = wide(store[at + COUNT]) - run.length + 1;
    if !root {
        if rest < change.k {
            return Ok(Some(hand_up_block(store, layout, slot, block, scratch)));
        }
    }
    form_block(store, layout, slot, block)?;
    Ok(None)
}

// No block is to be formed: an underfull block is deinstantiated, its elements go up; else the change is at rest.
fn deinstantiate_underfull(
    store: &mut [u32],
    change: Change,
    root: bool,
    slot: usize,
    count: usize,
    scratch: &mut [u32],
) -> Option<usize>
    requires { count < change.k → CanHandUp change.layout store.old slot 0 0 0 scratch.old }
    ensures { UnderfullMeets change root slot count store.old store.new scratch.old scratch.new result }
{
    if root {
        return None;
    }
    if change.k <= count {
        return None;
    }
    Some(hand_up_all(store, change.layout, slot, scratch))
}

// One block of the path: its elements change, a block is formed in it where one must be, and an underfull block hands its elements up,
// of which there are then so many. Where nothing comes, as in a block that loses a pixel, none is formed.
pub fn step(
    store: &mut [u32],
    change: Change,
    root: bool,
    slot: usize,
    place: usize,
    removed: usize,
    scratch: &mut [u32],
    inserted: usize,
) -> Result<Option<usize>, Damaged>
    requires { CanPut change.layout store.old slot place removed inserted scratch.old × ((2 ≤ change.k) × (change.k ≤ 16)) }
    ensures { StepMeets change root slot place removed inserted store.old store.new scratch.old scratch.new result }
{
    let layout = change.layout;
    let count = put(store, layout, slot, place, removed, scratch, inserted)?;
    if inserted == 0 {
        return Ok(deinstantiate_underfull(store, change, root, slot, count, scratch));
    }
    let part = slot_part(store, layout, slot);
    let level = part[LEVEL];
    if 16 < level {
        return Err(Damaged);
    }
    let near = place + inserted;
    let Some(run) = find_run(part, count, near, level, change.k, change.code) else {
        return Ok(deinstantiate_underfull(store, change, root, slot, count, scratch));
    };
    regroup(store, change, root, slot, run, scratch)
}
