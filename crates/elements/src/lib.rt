// The elements in one slot: read, found by their code, spliced; and the header of a slot, written.
#![tactic(auto)]

ghost use Rattle.std.specs.Prelude.{◌+◌, ◌*◌, ◌≤◌, ◌<◌, ◌≡◌, length, drop};
ghost use Rattle.std.proofs.Math.Seq.{paste};
ghost use Rattle.elements.specs.Element.{block_tag, element_of, element_at};
ghost use Rattle.elements.specs.Splice.{PlaceOf, CanSplice, Spliced, with_header};
ghost use Rattle.elements.specs.RunStart.{RunStart};
ghost use Rattle.measures.specs.Layout.{most_element_words, most_elements, most_slots};
ghost use Rattle.measures.specs.Slot.{element_index, slot_head};

use measures::slots::{CODE, COUNT, LEVEL, MOST_ELEMENT_WORDS, NUMBER, SLOT_HEAD, wide};
use morton::block_index;

// What an element says of a block: its slot, its level and its code.
#[derive(Clone, Copy)]
pub struct Block {
    pub slot: u32,
    pub level: u32,
    pub code: u32,
}

// 01: an element is either a pixel with its code or a block with its slot, here with its level and code as well.
#[derive(Clone, Copy)]
pub enum Element {
    Pixel(u32),
    Block(Block),
}

// The tag of a block's element has its slot below this number and its level above it.
pub const TAG_SLOTS: u32 = 1048576;

// A block's element as its second word.
pub fn block_tag(slot: u32, level: u32) -> u32
    requires { (slot ≤ most_slots) × (level ≤ 16) }
    ensures { result ≡ block_tag slot level }
{
    1 + slot + level * TAG_SLOTS
}

// What the two words of an element say.
fn element_of(code: u32, tag: u32) -> Element
    ensures { result ≡ element_of code tag }
{
    if tag == 0 {
        return Element::Pixel(code);
    }
    let rest = tag - 1;
    Element::Block(Block {
        slot: rest % TAG_SLOTS,
        level: rest / TAG_SLOTS,
        code,
    })
}

pub fn element_at(part: &[u32], i: usize) -> Element
    requires { element_index i + 2 ≤ length part.now }
    ensures { result ≡ element_at part.now i }
{
    let at = SLOT_HEAD + 2 * i;
    element_of(part[at], part[at + 1])
}

// How many of the first elements have a code up to the given one, where they ascend: from the last one back, since a slot has few.
pub fn find_place(part: &[u32], count: usize, code: u32) -> usize
    requires { (element_index count ≤ length part.now) × (count ≤ most_elements) }
    ensures { PlaceOf part.now count code result }
{
    let mut place = count;
    while 0 < place && code < part[SLOT_HEAD + 2 * place - 2] {
        place -= 1;
    }
    place
}

// The first element of the run around the code, by the words of elements: of those before `from` that lie in its block of this level.
pub fn run_start(elements: &[u32], from: usize, code: u32, level: u32) -> usize
    requires { (2 * from ≤ length elements.now) × (level ≤ 15) }
    ensures { RunStart elements.now from code level result }
{
    let block = block_index(code, level);
    let mut start = from;
    while 0 < start && block_index(elements[2 * start - 2], level) == block {
        start -= 1;
    }
    start
}

// A loop, since a slot has few words: quicker here than `copy_from_slice`.
pub fn copy_words(target: &mut [u32], at: usize, source: &[u32], count: usize)
    requires { (at + count ≤ length target.old) × (count ≤ length source.now) }
    ensures { target.new ≡ paste target.old at source.now count }
{
    for j in 0..count {
        target[at + j] = source[j];
    }
}

// Words of one slot go elsewhere in it, over their own old place too; the compiler makes one move of the two copies, without the buffer, and
// that is quicker than `copy_within`.
fn move_words(part: &mut [u32], from: usize, to: usize, count: usize)
    requires { ((from + count ≤ length part.old) × (to + count ≤ length part.old)) × (count ≤ most_element_words) }
    ensures { part.new ≡ paste part.old to (drop from part.old) count }
{
    let mut aside = [0u32; MOST_ELEMENT_WORDS];
    copy_words(&mut aside, 0, &part[from..], count);
    copy_words(part, to, &aside, count);
}

// In one slot, `removed` elements from `place` on give way to the first `inserted` elements of `source`.
pub fn splice(part: &mut [u32], place: usize, removed: usize, source: &[u32], inserted: usize)
    requires { CanSplice part.old source.now place removed inserted }
    ensures { Spliced part.old source.now place removed inserted part.new }
{
    let count = wide(part[COUNT]);
    let left = 2 * (count - place - removed);
    let at = SLOT_HEAD + 2 * place;
    move_words(part, at + 2 * removed, at + 2 * inserted, left);
    copy_words(part, at, source, 2 * inserted);
    part[COUNT] = (count - removed + inserted) as u32;
}

pub fn write_header(part: &mut [u32], level: u32, code: u32, count: u32, number: u32)
    requires { slot_head ≤ length part.old }
    ensures { part.new ≡ with_header part.old level code count number }
{
    part[LEVEL] = level;
    part[CODE] = code;
    part[COUNT] = count;
    part[NUMBER] = number;
}
