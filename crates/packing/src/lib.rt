// Packing: strictly ascending codes, appended one by one. The elements that no complete block has taken yet lie on a stack; a
// block is packed into the next slot as soon as a code beyond it comes.
#![tactic(auto)]

ghost use Rattle.std.specs.Prelude.{◌*◌, ◌+◌, ◌≤◌, ◌<◌, ◌≡◌, length};
ghost use Rattle.packing.specs.Growing.{stack_words};
ghost use Rattle.packing.specs.Build.{empty_build, NoneComplete, PackDue, PackedRun, PushDue, PushedCode, PackCompleteDue, PackCompleteDone, AppendDue, AppendDone};

pub mod plan;

use crate::plan::Plan;
use elements::{block_tag, run_start};
use laying::lay_block;
use measures::sizes::Layout;
use measures::slots::wide;
use morton::{block_around, common_level};
use sums::number_of_elements;

// What is built so far: the elements on the stack, the next slot, and the last code.
#[derive(Clone, Copy)]
pub struct Build {
    pub count: usize,
    pub fresh: usize,
    pub last: u32,
}

// The most elements that wait for their block: on each of 16 levels those of three quarters, fewer than 16 in each.
const MOST_OPEN: usize = 16 * 3 * 15;

// Two words for each of them, and for the code that comes.
pub const STACK_WORDS: usize = 2 * (MOST_OPEN + 1);

pub fn empty_stack() -> [u32; STACK_WORDS]
    ensures { length result ≡ stack_words }
{
    [0u32; STACK_WORDS]
}

pub fn empty_build() -> Build
    ensures { result ≡ empty_build }
{
    Build {
        count: 0,
        fresh: 1,
        last: 0,
    }
}

// The elements from `first` on go to the next slot, as one block with the number of their pixels, which stands on the stack in their place.
fn pack(
    store: &mut [u32],
    layout: Layout,
    stack: &mut [u32],
    build: Build,
    first: usize,
    level: u32,
) -> Build
    requires { PackDue layout store.old stack.old build first level }
    ensures { PackedRun layout build first level store.old store.new stack.old stack.new result }
{
    let count = build.count;
    let fresh = build.fresh;
    let last = build.last;
    let code = block_around(last, level);
    let from = 2 * first;
    let run = &stack[from..2 * count];
    let number = number_of_elements(store, layout, run, count - first);
    lay_block(store, layout, fresh, level, code, run, number);
    stack[from] = code;
    stack[from + 1] = block_tag(fresh as u32, level);
    Build {
        count: first + 1,
        fresh: fresh + 1,
        last,
    }
}

// Every block around the last code, of a level below the limit, that has k elements is packed: the lowest first.
pub fn pack_complete(
    store: &mut [u32],
    plan: Plan,
    stack: &mut [u32],
    build: Build,
    limit: u32,
) -> Build
    requires { PackCompleteDue plan store.old stack.old build limit }
    ensures { PackCompleteDone plan build limit store.old store.new stack.old stack.new result }
{
    let k = wide(plan.sizes.k);
    let mut packed = build;
    while k <= packed.count {
        let from = packed.count - k;
        let level = common_level(stack[2 * from], packed.last);
        if limit <= level {
            return packed;
        }
        let first = run_start(stack, from, packed.last, level);
        packed = pack(store, plan.layout, stack, packed, first, level);
    }
    packed
}

fn push(stack: &mut [u32], build: Build, code: u32) -> Build
    requires { PushDue stack.old build }
    ensures { PushedCode build code stack.old stack.new result }
{
    let count = build.count;
    let fresh = build.fresh;
    let at = 2 * count;
    stack[at] = code;
    stack[at + 1] = 0;
    Build {
        count: count + 1,
        fresh,
        last: code,
    }
}

// Whether no block around the last code, of a level below the limit, has k elements: so it is with most codes, and nothing is to be packed.
fn none_complete(stack: &[u32], k: usize, build: Build, limit: u32) -> bool
    requires { (2 * build.count ≤ length stack.now) × (1 ≤ k) }
    ensures { NoneComplete k stack.now build limit result }
{
    let count = build.count;
    if count < k {
        return true;
    }
    limit <= common_level(stack[2 * (count - k)], build.last)
}

// The next code: the blocks that it lies beyond are complete.
pub fn append(store: &mut [u32], plan: Plan, stack: &mut [u32], build: Build, code: u32) -> Build
    requires { AppendDue plan store.old stack.old build code }
    ensures { AppendDone plan build code store.old store.new stack.old stack.new result }
{
    let limit = common_level(build.last, code);
    if none_complete(stack, wide(plan.sizes.k), build, limit) {
        return push(stack, build, code);
    }
    let packed = pack_complete(store, plan, stack, build, limit);
    push(stack, packed, code)
}
