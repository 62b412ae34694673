ghost use Rattle.std.specs.Prelude.{◌+◌, ◌≤◌, ◌<◌, length};
ghost use Rattle.measures.specs.Slot.{element_index};
ghost use Rattle.elements.specs.Element.{tag_slots};
ghost use Rattle.meeting.specs.Place.{beyond};
ghost use Rattle.meeting.specs.Meeting.{KeyIs, TagIs, MetElement, MetBlocks};

use crate::distance::block_distance;
use crate::place::Place;
use elements::{Element, TAG_SLOTS, element_at};
use frontier::{Entry, Frontier};
use store::Damaged;

// A block's code is a multiple of 4: a key has room for a fourth of the codes below the distance.
pub const KEY_CODES: u64 = 1073741824;

// By distance, then by code; it has 63 bits.
pub fn key_of(distance: u64, code: u32) -> u64
    requires { distance < beyond }
    ensures { KeyIs distance code result }
{
    distance * KEY_CODES + u64::from(code / 4)
}

pub fn tag_of(slot: u32, level: u32) -> u32
    requires { (slot < tag_slots) × (level ≤ 16) }
    ensures { TagIs slot level result }
{
    slot + level * TAG_SLOTS
}

// A block farther than the pixel found is not kept: it will never be opened, nor be the limit.
fn meet_element<const N: usize>(
    element: Element,
    above: u32,
    place: Place,
    farthest: u64,
    frontier: &mut Frontier<N>,
) -> Result<(), Damaged>
    requires { (above ≤ 16) × (length frontier.old < N) }
    ensures { MetElement element above place farthest frontier.old frontier.new result }
{
    let Element::Block(block) = element else {
        return Ok(());
    };
    if above <= block.level {
        return Err(Damaged);
    }
    if TAG_SLOTS <= block.slot {
        return Err(Damaged);
    }
    let distance = block_distance(place, block.level, block.code);
    if farthest < distance {
        return Ok(());
    }
    let key = key_of(distance, block.code);
    let tag = tag_of(block.slot, block.level);
    frontier.push(Entry { key, tag });
    Ok(())
}

// The elements of one block that are blocks are met; there is room for all of them.
pub fn meet_blocks<const N: usize>(
    part: &[u32],
    count: usize,
    above: u32,
    place: Place,
    farthest: u64,
    frontier: &mut Frontier<N>,
) -> Result<(), Damaged>
    requires { (above ≤ 16) × (length frontier.old + count ≤ N) × (element_index count ≤ length part.now) }
    ensures { MetBlocks part.now count above place farthest frontier.old frontier.new result }
{
    for i in 0..count {
        meet_element(element_at(part, i), above, place, farthest, frontier)?;
    }
    Ok(())
}
