// Collecting: the walks of a list, over the blocks that share a pixel with the window. Each code found is written behind the one before it.
#![tactic(auto)]

ghost use Rattle.std.specs.Prelude.{◌≤◌, length};
ghost use Rattle.query.specs.WindowRange.{range_of};
ghost use Rattle.query.specs.Counting.{numbers_of};
ghost use Rattle.collecting.specs.Listing.{CodeWritten, PixelListed, InsideListed, BlockListed, RootListed};

use elements::{Block, Element, element_at};
use measures::lent::Slots;
use measures::slots::{LEVEL_ABOVE_ROOT, wide};
use query::range::RangeQuery;
use query::walk::{Sum, open_next};
use std::num::wrapping_add_u32;
use store::Damaged;
use windows::{Corners, has_pixel, lies_inside, meets};

// A found code is written at the index of its turn; the output has room for it unless words are damaged.
fn write_code(code: u32, output: &mut [u32], found: u32) -> u32
    ensures { CodeWritten code found output.old output.new result }
{
    let at = wide(found);
    if output.len() <= at {
        return wrapping_add_u32(found, 1);
    }
    output[at] = code;
    wrapping_add_u32(found, 1)
}

fn list_pixel(corners: Corners, code: u32, output: &mut [u32], found: u32) -> u32
    ensures { PixelListed corners code found output.old output.new result }
{
    if !has_pixel(corners, code) {
        return found;
    }
    write_code(code, output, found)
}

// A block wholly inside the window: nothing in it is tested, and each code is written to `out`, the part of the output that is lent.
fn list_inside(
    slots: &Slots,
    above: u32,
    slot: u32,
    level: u32,
    code: u32,
    out: &mut [u32],
    sum: &mut Sum,
) -> Result<(), Damaged>
    ensures { InsideListed slots.now.layout slots.now.words.now above slot level code out.old out.new (numbers_of sum.old) (numbers_of sum.new) result }
{
    let block = Block { slot, level, code };
    let count = open_next(slots, above, block, sum.opened)?;
    let part = slots.part(wide(slot));
    sum.opened += 1;
    for i in 0..count {
        match element_at(part, i) {
            Element::Pixel(c) => sum.found = write_code(c, out, sum.found),
            Element::Block(b) => { list_inside(slots, level, b.slot, b.level, b.code, out, sum)? },
        }
    }
    Ok(())
}

// As count_block, and each found code is written once, in ascending order, since a block's elements ascend.
fn list_block(
    range: &RangeQuery,
    above: u32,
    slot: u32,
    level: u32,
    code: u32,
    out: &mut [u32],
    sum: &mut Sum,
) -> Result<(), Damaged>
    ensures { BlockListed (range_of range.now) range.now.slots.words.now above slot level code out.old out.new (numbers_of sum.old) (numbers_of sum.new) result }
{
    let corners = range.corners;
    if lies_inside(corners, level, code) {
        return list_inside(&range.slots, above, slot, level, code, out, sum);
    }
    let block = Block { slot, level, code };
    let count = open_next(&range.slots, above, block, sum.opened)?;
    let part = range.slots.part(wide(slot));
    sum.opened += 1;
    for i in 0..count {
        sum.tested = wrapping_add_u32(sum.tested, 1);
        match element_at(part, i) {
            Element::Pixel(c) => sum.found = list_pixel(corners, c, out, sum.found),
            Element::Block(b) => {
                if meets(corners, b.level, b.code) {
                    list_block(range, level, b.slot, b.level, b.code, out, sum)?;
                }
            }
        }
    }
    Ok(())
}

// The walk from the root into the first n words; those past them are not lent.
pub fn list_root(
    range: &RangeQuery,
    order: u32,
    output: &mut [u32],
    n: usize,
) -> Result<Sum, Damaged>
    requires { n ≤ length output.old }
    ensures { RootListed (range_of range.now) range.now.slots.words.now order n output.old output.new result }
{
    let mut sum = Sum {
        found: 0,
        opened: 0,
        tested: 0,
    };
    list_block(
        range,
        LEVEL_ABOVE_ROOT,
        0,
        order,
        0,
        &mut output[..n],
        &mut sum,
    )?;
    Ok(sum)
}
