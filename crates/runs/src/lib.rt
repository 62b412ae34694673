// Where a block is to be formed: the run of elements that it takes. It only reads.
#![tactic(auto)]

ghost use Rattle.std.specs.Prelude.{◌≤◌};
ghost use Rattle.elements.specs.Splice.{PlaceOf};
ghost use Rattle.runs.specs.Run.{ElementsLaid, LevelAt, LevelBefore, ReachedLeft, ReachedRight, RunMeets};

use elements::{find_place, run_start};
use measures::slots::{LEVEL_ABOVE_ROOT, SLOT_HEAD};

// The elements that a new block of this level is to take.
#[derive(Clone, Copy)]
pub struct RunFound {
    pub level: u32,
    pub first: usize,
    pub length: usize,
}

// The level of the smallest block that holds the code and the code of element i; above every level, where there is no such element.
fn level_at(part: &[u32], count: usize, i: usize, code: u32) -> u32
    requires { ElementsLaid part.now count }
    ensures { LevelAt part.now count i code result }
{
    if count <= i {
        return LEVEL_ABOVE_ROOT;
    }
    morton::common_level(part[SLOT_HEAD + 2 * i], code)
}

// The same of the element before place i; above every level, where there is none.
fn level_before(part: &[u32], count: usize, i: usize, code: u32) -> u32
    requires { ElementsLaid part.now count × (i ≤ count) }
    ensures { LevelBefore part.now i code result }
{
    if i == 0 {
        return LEVEL_ABOVE_ROOT;
    }
    level_at(part, count, i - 1, code)
}

// How far to the left of `from` the elements in the block of this level around the code reach.
fn reach_left(part: &[u32], count: usize, from: usize, code: u32, level: u32) -> usize
    requires { (ElementsLaid part.now count × (from ≤ count)) × (level ≤ 15) }
    ensures { ReachedLeft part.now from code level result }
{
    run_start(&part[SLOT_HEAD..], from, code, level)
}

fn reach_right(part: &[u32], count: usize, from: usize, code: u32, level: u32) -> usize
    requires { (ElementsLaid part.now count × (from ≤ count)) × (level ≤ 15) }
    ensures { ReachedRight part.now count from code level result }
{
    let block = morton::block_index(code, level);
    for i in from..count {
        if morton::block_index(part[SLOT_HEAD + 2 * i], level) != block {
            return i;
        }
    }
    count
}

// The place of the code among the elements: mostly where the caller looks for it, else searched.
fn place_of(part: &[u32], count: usize, near: usize, code: u32) -> usize
    requires { ElementsLaid part.now count × (near ≤ count) }
    ensures { PlaceOf part.now count code result }
{
    if 0 < near && code < part[SLOT_HEAD + 2 * (near - 1)]
        || near < count && part[SLOT_HEAD + 2 * near] <= code
    {
        return find_place(part, count, code);
    }
    near
}

// The least level below the block's own at which the block around the code holds k of the elements; these are one run, found going
// outwards from the code's place by the levels of common blocks.
fn least_run(
    part: &[u32],
    count: usize,
    place: usize,
    level: u32,
    k: usize,
    code: u32,
) -> Option<RunFound>
    requires { (ElementsLaid part.now count × PlaceOf part.now count code place) × ((level ≤ 16) × ((2 ≤ k) × (k ≤ 16))) }
    ensures { RunMeets part.now count level k code result }
{
    let mut left = place;
    let mut right = place;
    let mut below = level_before(part, count, place, code);
    let mut above = level_at(part, count, place, code);
    let mut reached = 0;
    while right - left < k {
        reached = below.min(above);
        if level <= reached {
            return None;
        }
        if below <= above {
            left -= 1;
            below = level_before(part, count, left, code);
        } else {
            right += 1;
            above = level_at(part, count, right, code);
        }
    }
    let first = reach_left(part, count, left, code, reached);
    let end = reach_right(part, count, right, code, reached);
    Some(RunFound {
        level: reached,
        first,
        length: end - first,
    })
}

// The run that is to be a block. Mostly there is none, as the quarter of the block around the code holds fewer than k elements.
pub fn find_run(
    part: &[u32],
    count: usize,
    near: usize,
    level: u32,
    k: usize,
    code: u32,
) -> Option<RunFound>
    requires { (ElementsLaid part.now count × (near ≤ count)) × ((level ≤ 16) × ((2 ≤ k) × (k ≤ 16))) }
    ensures { RunMeets part.now count level k code result }
{
    if level < 1 {
        return None;
    }
    let place = place_of(part, count, near, code);
    let left = reach_left(part, count, place, code, level - 1);
    let right = reach_right(part, count, place, code, level - 1);
    if right - left < k {
        return None;
    }
    least_run(part, count, place, level, k, code)
}
