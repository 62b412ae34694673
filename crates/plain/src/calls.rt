// What 01 says that each call answers, and the set that it leaves. The store has `length` words.
ghost use Rattle.std.specs.Prelude.{◌≤◌};

use crate::blocks::{Marked, Panel};
use crate::codes::{all_below, ascend, code_of, side_of, size_of};
use crate::images::{judge_header, named};
use crate::search::Search;
use crate::window::Window;

// Why a call is refused: 01's number, which with an output too short is 9, and there the words or bytes that are needed.
#[derive(Clone, Copy, PartialEq, Eq)]
pub enum Refusal {
    Numbered(u32),
    Short(usize),
}

// What ask, count and list answer.
#[derive(Clone, Copy, PartialEq, Eq)]
pub struct Seen {
    pub pixels: usize,
    pub opened: usize,
}

// 01: S = 1 + floor((N-1)/(k-1)) slots; the store needs 8 + S × (8 + 10(k-1)) words.
pub fn words_needed(k: u32, most: u32) -> usize
    requires { (2 ≤ k) × (k ≤ 16) × (1 ≤ most) × (most ≤ 24576) }
{
    let others = k - 1;
    let slots = 1 + (most - 1) / others;
    (8 + slots * (8 + 10 * others)) as usize
}

// The answer of a call that needs so many words or bytes of its output.
pub fn fits(needed: usize, room: usize) -> Result<(), Refusal> {
    if room < needed {
        return Err(Refusal::Short(needed));
    }
    Ok(())
}

impl Panel {
    fn judge_store(self, length: usize) -> Result<(), Refusal> {
        if length < self.words {
            return Err(Refusal::Numbered(3));
        }
        Ok(())
    }

    fn judge_pixel(self, length: usize, x: u32, y: u32) -> Result<(), Refusal> {
        self.judge_store(length)?;
        let side = side_of(self.m);
        if side <= x || side <= y {
            return Err(Refusal::Numbered(4));
        }
        Ok(())
    }

    // A register that nothing but calls wrote to is sound.
    pub fn check(self, length: usize) -> Result<bool, Refusal> {
        self.judge_store(length)?;
        Ok(true)
    }
}

impl Marked {
    pub fn make(&mut self, m: u32, k: u32, most: u32, length: usize) -> Result<(), Refusal> {
        if m < 1 || 16 < m || k < 2 || 16 < k || most < 1 || 24576 < most {
            return Err(Refusal::Numbered(1));
        }
        if length < words_needed(k, most) {
            return Err(Refusal::Numbered(2));
        }
        self.set = [false; 256];
        Ok(())
    }

    fn judge_change(&self, code: u32, marked: bool) -> Result<(), Refusal> {
        match (marked, self.is_marked(code)) {
            (true, true) => Err(Refusal::Numbered(5)),
            (true, false) if self.panel.most <= (self.number_of(0) as u32) => {
                Err(Refusal::Numbered(6))
            }
            (false, false) => Err(Refusal::Numbered(7)),
            _ => Ok(()),
        }
    }

    // mark, or clear, after which the pixel is marked, or not.
    pub fn change(&mut self, length: usize, x: u32, y: u32, marked: bool) -> Result<(), Refusal> {
        self.panel.judge_pixel(length, x, y)?;
        let code = code_of(x, y);
        self.judge_change(code, marked)?;
        self.put(code, marked);
        Ok(())
    }

    // What a window finds and opens. What of it is off the panel has no pixel and no block.
    fn seen(&self, window: Window, over_edge: bool) -> Seen {
        Seen {
            pixels: self.pixels(window) as usize,
            opened: self.blocks_met(window, over_edge) as usize,
        }
    }

    // The blocks that contain the pixel are those that share one with the window of the pixel alone.
    pub fn ask(&self, length: usize, x: u32, y: u32) -> Result<Seen, Refusal> {
        self.panel.judge_pixel(length, x, y)?;
        Ok(self.seen(Window::around(x, y), false))
    }

    // 02, P5: refused as ask is, then without a budget.
    pub fn nearest(&self, length: usize, x: u32, y: u32, budget: u32) -> Result<Search, Refusal> {
        self.panel.judge_pixel(length, x, y)?;
        if budget < 1 {
            return Err(Refusal::Numbered(15));
        }
        Ok(self.search(code_of(x, y), budget))
    }

    fn of_window(&self, length: usize, window: Window, over_edge: bool) -> Result<Seen, Refusal> {
        self.panel.judge_store(length)?;
        if window.x1 < window.x0 || window.y1 < window.y0 {
            return Err(Refusal::Numbered(8));
        }
        Ok(self.seen(window, over_edge))
    }

    // 02, P6: a count does not open a block wholly inside the window.
    pub fn count(&self, length: usize, window: Window) -> Result<Seen, Refusal> {
        self.of_window(length, window, true)
    }

    // A list does; with an output that is long enough.
    pub fn list(&self, length: usize, window: Window) -> Result<Seen, Refusal> {
        self.of_window(length, window, false)
    }

    pub fn save(&self, length: usize, room: usize) -> Result<usize, Refusal> {
        self.panel.judge_store(length)?;
        let needed = self.image_length();
        fits(needed, room)?;
        Ok(needed)
    }

    // 02, P2: the codes replace the set, if they are a set on the panel of at most N.
    pub fn fill(&mut self, length: usize, codes: &[u32]) -> Result<(), Refusal> {
        self.panel.judge_store(length)?;
        if !all_below(codes, size_of(self.panel.m)) {
            return Err(Refusal::Numbered(4));
        }
        if (self.panel.most as usize) < codes.len() {
            return Err(Refusal::Numbered(6));
        }
        if !ascend(codes) {
            return Err(Refusal::Numbered(14));
        }
        self.set = [false; 256];
        self.mark_all(codes);
        Ok(())
    }

    pub fn load(&mut self, length: usize, image: &[u8]) -> Result<(), Refusal> {
        self.panel.judge_store(length)?;
        judge_header(self.panel, image)?;
        let candidate = named(self.panel, image);
        if !candidate.is_image(image) {
            return Err(Refusal::Numbered(12));
        }
        self.set = candidate.set;
        Ok(())
    }
}
