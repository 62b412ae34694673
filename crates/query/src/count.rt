ghost use Rattle.std.specs.Prelude.{false};
ghost use Rattle.pktree.specs.Window.{crossed_by_window};
ghost use Rattle.measures.specs.Sizes.{panel_of};
ghost use Rattle.promises.specs.Effect.{effect};
ghost use Rattle.promises.specs.Calls as calls;
ghost use Rattle.answers.specs.Answer.{count_answer};
ghost use Rattle.windows.specs.Corners.{window_of, window_between, PartCorners, InsideTested};
ghost use Rattle.query.specs.WindowRange.{range_of};
ghost use Rattle.query.specs.Counting.{PixelCounted, NumberTaken, EdgeCounted, RootCounted, WholeCounted, numbers_of};

use crate::range::RangeQuery;
use crate::walk::{Sum, open_next, within};
use answers::{Found, Refusal};
use elements::{Block, Element, element_at};
use measures::lent::Register;
use measures::slots::{LEVEL_ABOVE_ROOT, NUMBER, wide};
use std::num::wrapping_add_u32;
use store::Damaged;
use store::opening::open_part;
use walks::enter;
use windows::{Corners, Lying, Window, has_panel, has_pixel, lies, lies_inside, part_on};

// More pixels than a word counts are met on damaged words only.
fn count_pixel(corners: Corners, code: u32, found: u32) -> u32
    ensures { PixelCounted corners code found result }
{
    if has_pixel(corners, code) {
        return wrapping_add_u32(found, 1);
    }
    found
}

// 02, P6: a block wholly inside the window is not opened: its slot says how many pixels it has. Past 01's N they are no register's.
fn take_number(range: &RangeQuery, above: u32, block: Block, found: &mut u32) -> Result<(), Damaged>
    ensures { NumberTaken (range_of range.now) range.now.slots.words.now above block.slot block.level block.code found.old found.new result }
{
    enter(&range.slots, above, block)?;
    let part = range.slots.part(wide(block.slot));
    let number = part[NUMBER];
    if range.most < number {
        return Err(Damaged);
    }
    if range.most - number < *found {
        return Err(Damaged);
    }
    *found += number;
    Ok(())
}

// A block over the window's edge: each of its elements is tested. A block among them that lies wholly inside is taken by its number.
fn count_block(
    range: &RangeQuery,
    above: u32,
    slot: u32,
    level: u32,
    code: u32,
    sum: &mut Sum,
) -> Result<(), Damaged>
    ensures { EdgeCounted (range_of range.now) range.now.slots.words.now above slot level code (numbers_of sum.old) (numbers_of sum.new) result }
{
    let corners = range.corners;
    let block = Block { slot, level, code };
    let count = open_next(&range.slots, above, block, sum.opened)?;
    let part = range.slots.part(wide(slot));
    sum.opened += 1;
    for i in 0..count {
        sum.tested = wrapping_add_u32(sum.tested, 1);
        match element_at(part, i) {
            Element::Pixel(c) => sum.found = count_pixel(corners, c, sum.found),
            Element::Block(b) => match lies(corners, b.level, b.code) {
                Lying::Apart => {}
                Lying::Inside => take_number(range, level, b, &mut sum.found)?,
                Lying::OverEdge => count_block(range, level, b.slot, b.level, b.code, sum)?,
            },
        }
    }
    Ok(())
}

fn count_root(range: &RangeQuery, order: u32) -> Result<Sum, Damaged>
    requires { InsideTested range.now.corners order 0 false }
    ensures { RootCounted crossed_by_window (range_of range.now) range.now.slots.words.now order result }
{
    let mut sum = Sum {
        found: 0,
        opened: 0,
        tested: 0,
    };
    count_block(range, LEVEL_ABOVE_ROOT, 0, order, 0, &mut sum)?;
    Ok(sum)
}

// 02, P6: the whole panel is the root's number, and no block is opened.
fn count_whole(register: &Register) -> Result<Found, Refusal>
    ensures { WholeCounted register.now.words.now result }
{
    let sizes = register.sizes;
    let root = register.slots().part(0);
    open_part(root, sizes.order, 0)?;
    let number = root[NUMBER];
    if sizes.most < number {
        return Err(Refusal::StoreDamaged);
    }
    Ok(Found {
        found: number,
        opened: 0,
    })
}

// The count of a part of the panel, by its corners.
pub fn count_part(register: &Register, corners: Corners) -> Result<Found, Refusal>
    requires { PartCorners (panel_of register.now.sizes) corners }
    ensures { calls.CountsIn register.now.words.now (window_between corners) (effect (count_answer result) register.now.words.now register.now.words.now) }
{
    let sizes = register.sizes;
    if lies_inside(corners, sizes.order, 0) {
        return count_whole(register);
    }
    let range = RangeQuery {
        slots: register.slots(),
        corners,
        most: sizes.most,
    };
    let sum = count_root(&range, sizes.order)?;
    within(range.slots.layout, range.most, sum)
}

// 01's count of the window's part on the panel, where refusal 3 does not apply. A window that has the whole panel needs no codes of its corners.
pub fn count(register: &Register, window: Window) -> Result<Found, Refusal>
    ensures { calls.Counts register.now.words.now (window_of window) (effect (count_answer result) register.now.words.now register.now.words.now) }
{
    let sizes = register.sizes;
    if has_panel(sizes, window) {
        return count_whole(register);
    }
    let Some(corners) = part_on(sizes, window) else {
        return Ok(Found {
            found: 0,
            opened: 0,
        });
    };
    count_part(register, corners)
}
