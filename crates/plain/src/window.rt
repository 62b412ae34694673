// What a window finds and opens.
use crate::blocks::{Marked, code_at, level_at, place_of};
use crate::codes::{side_of, size_of, x_of};

// Both corners included.
#[derive(Clone, Copy)]
pub struct Window {
    pub x0: u32,
    pub y0: u32,
    pub x1: u32,
    pub y1: u32,
}

pub const WHOLE: Window = Window {
    x0: 0,
    y0: 0,
    x1: 15,
    y1: 15,
};

// Which entries are counted: those of these levels that share a pixel with the window; over its edge those alone that have one outside it too.
#[derive(Clone, Copy)]
pub struct Sought {
    pub low: u32,
    pub high: u32,
    pub over_edge: bool,
}

impl Window {
    // The window of one pixel alone.
    pub fn around(x: u32, y: u32) -> Window {
        Window {
            x0: x,
            y0: y,
            x1: x,
            y1: y,
        }
    }

    // The window of a block, or at level 0 of a pixel.
    fn of_block(level: u32, code: u32) -> Window {
        let reach = side_of(level) - 1;
        let x = x_of(code);
        let y = x_of(code >> 1);
        Window {
            x0: x,
            y0: y,
            x1: x | reach,
            y1: y | reach,
        }
    }

    fn meets(self, other: Window) -> bool {
        self.x0 <= other.x1 && other.x0 <= self.x1 && self.y0 <= other.y1 && other.y0 <= self.y1
    }

    fn contains(self, other: Window) -> bool {
        self.x0 <= other.x0 && other.x1 <= self.x1 && self.y0 <= other.y0 && other.y1 <= self.y1
    }
}

impl Marked {
    fn counts(&self, window: Window, sought: Sought, place: u16) -> bool {
        let level = level_at(place);
        let block = Window::of_block(level, code_at(place));
        if level < sought.low || sought.high < level || !window.meets(block) {
            return false;
        }
        if sought.over_edge && window.contains(block) {
            return false;
        }
        self.is_entry(place)
    }

    pub fn entries(&self, window: Window, sought: Sought) -> u16 {
        (0..self.panel.places)
            .filter(|place| self.counts(window, sought, *place))
            .count() as u16
    }

    // The marked pixels in the window.
    pub fn pixels(&self, window: Window) -> u16 {
        let sought = Sought {
            low: 0,
            high: 0,
            over_edge: false,
        };
        self.entries(window, sought)
    }

    // The instantiated blocks that share a pixel with the window, or 02, P6: those of them that do not lie wholly inside it.
    pub fn blocks_met(&self, window: Window, over_edge: bool) -> u16 {
        let sought = Sought {
            low: 1,
            high: 4,
            over_edge,
        };
        self.entries(window, sought)
    }

    // 02, P8: whether a block is the smallest around a pixel, given as its window: it contains the pixel, it is instantiated, and no instantiated block of a
    // lower level contains the pixel.
    pub fn is_smallest(&self, pixel: Window, level: u32, code: u32) -> bool {
        if level < 1 || self.panel.m < level || size_of(self.panel.m) <= code {
            return false;
        }
        let below = Sought {
            low: 1,
            high: level - 1,
            over_edge: false,
        };
        pixel.meets(Window::of_block(level, code))
            && self.is_entry(place_of(level, code) as u16)
            && self.entries(pixel, below) == 0
    }

    // Whether these words, all 7 before, are the codes found, in rising order, where the list was accepted, and the others as before.
    pub fn is_list(&self, window: Window, accepted: bool, words: &[u32]) -> bool {
        (0..256u32)
            .filter(|code| {
                accepted && self.is_marked(*code) && window.meets(Window::of_block(0, *code))
            })
            .chain(std::iter::repeat(7))
            .zip(words)
            .all(|(expected, word)| expected == *word)
    }
}
