#![tactic(auto)]

ghost use Rattle.std.specs.Prelude.{◌+◌, ◌*◌, ◌≤◌, ◌<◌, ◌≡◌, length, replicate};
ghost use Rattle.measures.specs.Slot.{element_index};
ghost use Rattle.measures.specs.Layout.{most_elements};
ghost use Rattle.descent.specs.Located.{Looked, CanEnter, LocateMeets, nowhere};
ghost use Rattle.descent.specs.Way.{path_length};

use elements::{Block, Element, element_at, find_place};
use measures::lent::Slots;
use measures::sizes::Layout;
use measures::slots::{SLOT_HEAD, wide};
use store::Damaged;
use store::opening::open_part;

// What the elements of one block show of a code: it ends here, at a pixel of its own or between two elements, or in an inner block.
#[derive(Clone, Copy)]
pub enum Ahead {
    Here { place: usize, marked: bool },
    Inner { place: usize, block: Block },
}

// 01: anything that isn't a block ends the descent there.
fn look(part: &[u32], count: usize, code: u32) -> Ahead
    requires { (element_index count ≤ length part.now) × (count ≤ most_elements) }
    ensures { Looked part.now count code result }
{
    let place = find_place(part, count, code);
    let between = Ahead::Here {
        place,
        marked: false,
    };
    if place == 0 {
        return between;
    }
    let last = place - 1;
    let Element::Block(inner) = element_at(part, last) else {
        if part[SLOT_HEAD + 2 * last] == code {
            return Ahead::Here {
                place: last,
                marked: true,
            };
        }
        return between;
    };
    if inner.level < morton::common_level(inner.code, code) {
        return between;
    }
    Ahead::Inner {
        place: last,
        block: inner,
    }
}

// The smallest block that holds a code, and where the code stands among its elements.
#[derive(Clone, Copy)]
pub struct Located {
    pub marked: bool,
    pub block: Block,
    pub place: usize,
    pub depth: usize,
}

// A block that was passed on the way down: its slot, and the place of the element that was entered there.
#[derive(Clone, Copy)]
pub struct Passed {
    pub slot: u32,
    pub place: u32,
}

// Room for the path to a block: the levels on it fall, from 16 at most.
pub const PATH_LENGTH: usize = 17;

// The blocks that were passed on the way down, root first. How many there are is the depth, which stands outside: so the array
// vanishes where only the depth is asked for.
pub type Path = [Passed; PATH_LENGTH];

pub fn no_path() -> Path
    ensures { result ≡ replicate path_length nowhere }
{
    [Passed { slot: 0, place: 0 }; PATH_LENGTH]
}

// Goes down to the smallest block that holds the code, and names the way.
pub fn locate(store: &Slots, order: u32, code: u32, path: &mut Path) -> Result<Located, Damaged>
    requires { order ≤ 16 }
    ensures { LocateMeets store.now.words.now store.now.layout order code path.new result }
{
    let mut depth: usize = 0;
    let mut block = Block {
        slot: 0,
        level: order,
        code: 0,
    };
    while 0 < block.level {
        let part = store.part(wide(block.slot));
        let count = open_part(part, block.level, block.code)?;
        match look(part, count, code) {
            Ahead::Here { place, marked } => {
                return Ok(Located {
                    marked,
                    block,
                    place,
                    depth,
                });
            }
            Ahead::Inner {
                place,
                block: inner,
            } => {
                if !can_enter(store.layout, block.level, inner) {
                    return Err(Damaged);
                }
                path[depth] = Passed {
                    slot: block.slot,
                    place: place as u32,
                };
                depth += 1;
                block = inner;
            }
        }
    }
    Err(Damaged)
}

// A block is entered where its level is lower and its slot is one of the store's.
fn can_enter(layout: Layout, level: u32, inner: Block) -> bool
    ensures { CanEnter layout level inner.slot inner.level result }
{
    inner.level < level && wide(inner.slot) < layout.slots
}
