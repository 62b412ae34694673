// Reading an image: who is refused with 12. It takes bytes and panel, no store and no N.
#![tactic(auto)]

ghost use Rattle.std.specs.Prelude.{◌*◌, ◌≤◌, ◌<◌, ◌≡◌, length};
ghost use Rattle.measures.specs.Decides.{Decides};
ghost use Rattle.image.specs.Judged.{ImageOfSome};
ghost use Rattle.reader.specs.PixelCount.{pixel_levels};
ghost use Rattle.reader.specs.Reading.{EntryIs, EntryMeets, FitsQuarter, CanReadBlock, ElementsMeet, QuarterMeets, CanRead};

use image::parts::{byte_at, code_at, codes_part, levels_part, pixel_number};
use measures::slots::wide;
use morton::{block_end, block_size};

// How many elements stand at an index, and the index after their entries.
#[derive(Clone, Copy)]
pub struct ElementsRead {
    pub count: u32,
    pub next: usize,
}

// The entries of an image, by their codes and levels, and the panel's k.
#[derive(Clone, Copy)]
pub struct Entries<'a> {
    codes: &'a [u8],
    levels: &'a [u8],
    k: u32,
    ghost columns: { length codes.now ≡ 4 * length levels.now },
}

impl<'a> Entries<'a> {
    // Has the entry at this index this level and code?
    fn is_entry(&self, at: usize, level: u32, code: usize) -> bool
        ensures { Decides result (EntryIs self.now.codes.now self.now.levels.now at level code) }
    {
        if self.levels.len() <= at {
            return false;
        }
        if byte_at(self.levels, at) != level {
            return false;
        }
        wide(code_at(self.codes, at)) == code
    }

    // The level and code of the entry at this index, if its code lies from `from` to below `to`.
    fn next_entry(&self, at: usize, from: usize, to: usize) -> Option<(u32, usize)>
        ensures { EntryMeets self.now.codes.now self.now.levels.now at from to result }
    {
        if self.levels.len() <= at {
            return None;
        }
        let code = wide(code_at(self.codes, at));
        if code < from {
            return None;
        }
        if to <= code {
            return None;
        }
        Some((byte_at(self.levels, at), code))
    }

    // The elements of the block of this level and code, quarter by quarter; or no set has these entries.
    #[cycle(read_element_read_elements_read_quarter)]
    fn read_elements(&self, level: u32, code: usize, at: usize) -> Option<ElementsRead>
        requires { CanReadBlock self.now.levels.now self.now.k level code at × (1 ≤ level) }
        ensures { ElementsMeet self.now.codes.now self.now.levels.now self.now.k level code at result }
    {
        let inner = level - 1;
        let size = block_size(inner);
        let mut count = 0;
        let mut next = at;
        let mut place = code;
        for _ in 0..4u32 {
            let quarter = self.read_quarter(inner, place, next)?;
            count += quarter.count;
            next = quarter.next;
            place += size;
        }
        Some(ElementsRead { count, next })
    }

    // What a quarter gives: the elements in it, one after another, fewer than k; where its own entry claims it, the quarter is that one element.
    #[cycle(read_element_read_elements_read_quarter)]
    fn read_quarter(&self, level: u32, code: usize, at: usize) -> Option<ElementsRead>
        requires { CanReadBlock self.now.levels.now self.now.k level code at }
        ensures { QuarterMeets self.now.codes.now self.now.levels.now self.now.k level code at result }
    {
        let end = block_end(level, code);
        let mut count = 0;
        let mut next = at;
        let mut place = code;
        while let Some((inner, start)) = self.next_entry(next, place, end) {
            if !fits_quarter(level, inner, start) {
                return None;
            }
            let element = self.read_element(inner, start, next)?;
            count += element.count;
            if self.k <= count {
                return None;
            }
            next = element.next;
            place = block_end(inner, start);
        }
        Some(ElementsRead { count, next })
    }

    // The element whose entry stands at this index: a pixel, or a claimed block, and k elements or more must be in it.
    #[cycle(read_element_read_elements_read_quarter)]
    fn read_element(&self, level: u32, code: usize, at: usize) -> Option<ElementsRead>
        requires { CanReadBlock self.now.levels.now self.now.k level code at × EntryIs self.now.codes.now self.now.levels.now at level code }
        ensures { QuarterMeets self.now.codes.now self.now.levels.now self.now.k level code at result }
    {
        if level < 1 {
            return Some(ElementsRead {
                count: 1,
                next: at + 1,
            });
        }
        let inside = self.read_elements(level, code, at + 1)?;
        if inside.count < self.k {
            return None;
        }
        Some(ElementsRead { count: 1, ..inside })
    }
}

// Can an element of this level and code stand in a quarter of level `quarter`? It is no larger, and aligned.
fn fits_quarter(quarter: u32, level: u32, code: usize) -> bool
    requires { (quarter ≤ 16) × (code < 4294967296) }
    ensures { Decides result (FitsQuarter quarter level code) }
{
    if quarter < level {
        return false;
    }
    let bits = 2 * level;
    (code >> bits) << bits == code
}

// The number of entries of level 0.
fn count_pixels(levels: &[u8]) -> usize
    ensures { result ≡ pixel_levels levels.now }
{
    levels.iter().filter(|level| **level == 0).count()
}

// Refusal 12's condition: the root's entry, then its elements, then no entry more, and n of them are pixels.
pub fn is_image_of_some(image: &[u8], order: u32, k: u32) -> bool
    requires { CanRead (record { order = order; k = k }) image.now }
    ensures { Decides result (ImageOfSome (record { order = order; k = k }) image.now) }
{
    let entries = Entries {
        codes: codes_part(image),
        levels: levels_part(image),
        k,
    };
    if !entries.is_entry(0, order, 0) {
        return false;
    }
    let Some(root) = entries.read_elements(order, 0, 1) else {
        return false;
    };
    if root.next < entries.levels.len() {
        return false;
    }
    count_pixels(entries.levels) == wide(pixel_number(image))
}
