// 01 "Blocks".
ghost use Rattle.std.specs.Prelude.{◌≤◌, ◌<◌};

use crate::codes::size_of;

// A panel of order m with its k. N is the most pixels that its register may hold, words the length that the store needs; places is five for each code.
#[derive(Clone, Copy)]
pub struct Panel {
    pub m: u32,
    pub k: u8,
    pub most: u32,
    pub words: usize,
    pub places: u16,
}

// Which pixels are marked, by their codes.
pub type Set = [bool; 256];

// A panel and its marked pixels.
#[derive(Clone, Copy)]
pub struct Marked {
    pub panel: Panel,
    pub set: Set,
}

// Image order: entries ascend by code; at equal code the higher level comes first. Each code has five places, for the levels 4 to 0.
pub fn code_at(place: u16) -> u32 {
    (place / 5) as u32
}

pub fn level_at(place: u16) -> u32 {
    4 - ((place % 5) as u32)
}

pub fn place_of(level: u32, code: u32) -> usize
    ensures { result < 1280 }
{
    (5 * (code % 256) + (4 - level % 5)) as usize
}

// A quarter with fewer than k elements gives those elements; one with k or more gives itself, as one element.
fn given(k: u8, number: u32) -> u32
    ensures { result ≤ 255 }
{
    if number < (k as u32) { number } else { 1 }
}

impl Marked {
    pub fn empty(panel: Panel) -> Marked {
        Marked {
            panel,
            set: [false; 256],
        }
    }

    pub fn is_marked(&self, code: u32) -> bool {
        self.set[(code % 256) as usize]
    }

    pub fn put(&mut self, code: u32, marked: bool) {
        self.set[(code % 256) as usize] = marked;
    }

    pub fn mark_all(&mut self, codes: &[u32]) {
        for code in codes {
            self.put(*code, true);
        }
    }

    // How many elements a block has: those of a level 0 block are its pixel if marked, else none; those of a larger block are gathered from its four quarters.
    pub fn elements(&self, level: u32, code: u32) -> u32 {
        if level < 1 {
            return self.is_marked(code) as u32;
        }
        let below = level - 1;
        let size = size_of(below);
        let k = self.panel.k;
        let sw = given(k, self.elements(below, code));
        let se = given(k, self.elements(below, code | size));
        let nw = given(k, self.elements(below, code | (2 * size)));
        let ne = given(k, self.elements(below, code | (3 * size)));
        sw + se + nw + ne
    }

    // An entry of the set's image: a pixel, at level 0, or an instantiated block, which has at least k elements or is the root.
    pub fn is_entry(&self, place: u16) -> bool {
        let level = level_at(place);
        let code = code_at(place);
        if self.panel.m < level || code % size_of(level) != 0 {
            return false;
        }
        if level < 1 {
            return self.is_marked(code);
        }
        level == self.panel.m || (self.panel.k as u32) <= self.elements(level, code)
    }
}
