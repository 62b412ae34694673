// 02, P5: the search for the marked pixel nearest to a place, which is given by its code.
ghost use Rattle.std.specs.Prelude.{◌≤◌};

use crate::blocks::{Marked, code_at, level_at, place_of};
use crate::codes::{size_of, x_of};

// The elements met, by their places in image order: pixels, and blocks that aren't opened.
type Met = [bool; 1280];

// A pixel found, by its code, and its squared distance.
#[derive(Clone, Copy, PartialEq, Eq)]
pub struct Pixel {
    pub code: u32,
    pub distance: u64,
}

// What a search answers.
#[derive(Clone, Copy, PartialEq, Eq)]
pub struct Search {
    pub found: Option<Pixel>,
    pub opened: u32,
    pub limit: u64,
    pub complete: bool,
}

// An element met, and its squared distance.
#[derive(Clone, Copy)]
struct Near {
    place: u16,
    distance: u32,
}

// A side here has 16 coordinates at most.
fn apart(a: u32, b: u32) -> u32
    ensures { result ≤ 15 }
{
    (a % 16).abs_diff(b % 16)
}

// The squared distance from one pixel to another.
fn squared_distance(from: u32, to: u32) -> u32 {
    let dx = apart(x_of(from), x_of(to));
    let dy = apart(x_of(from >> 1), x_of(to >> 1));
    dx * dx + dy * dy
}

// To the nearest position in a block, found by looking at each; a pixel is a block of one.
fn distance_to(from: u32, place: u16) -> u32 {
    let code = code_at(place);
    (1..size_of(level_at(place)))
        .map(|i| squared_distance(from, code | i))
        .fold(squared_distance(from, code), |least, distance| {
            least.min(distance)
        })
}

// The block to be opened next is the nearest, if no pixel found is nearer: without one the search is complete.
fn to_open(pixel: Option<Near>, block: Option<Near>) -> Option<Near> {
    let block = block?;
    match pixel {
        Some(pixel) if pixel.distance < block.distance => None,
        _ => Some(block),
    }
}

// The least of the distances to the pixel found and to the blocks met and not opened; zero where there is neither.
fn limit_of(pixel: Option<Near>, block: Option<Near>) -> u32 {
    match (pixel, block) {
        (Some(pixel), Some(block)) => pixel.distance.min(block.distance),
        (Some(near), None) | (None, Some(near)) => near.distance,
        (None, None) => 0,
    }
}

impl Marked {
    // 01 "Blocks": the elements of a level 0 block are its pixel if marked, else none; those of a larger block are gathered from its four quarters.
    #[cycle(meet_elements_meet_quarter)]
    fn meet_elements(&self, level: u32, code: u32, met: &mut Met) {
        if level < 1 {
            met[place_of(0, code)] = self.is_marked(code);
            return;
        }
        let below = level - 1;
        let size = size_of(below);
        self.meet_quarter(below, code, met);
        self.meet_quarter(below, code | size, met);
        self.meet_quarter(below, code | (2 * size), met);
        self.meet_quarter(below, code | (3 * size), met);
    }

    // A quarter with fewer than k elements gives those elements; one with k or more gives itself.
    #[cycle(meet_elements_meet_quarter)]
    fn meet_quarter(&self, level: u32, code: u32, met: &mut Met) {
        if self.elements(level, code) < (self.panel.k as u32) {
            self.meet_elements(level, code, met);
        } else {
            met[place_of(level, code)] = true;
        }
    }

    fn open(&self, place: u16, met: &mut Met) {
        met[(place % 1280) as usize] = false;
        self.meet_elements(level_at(place), code_at(place), met);
    }

    // Of level 0 alone the pixel found, of levels 1 to 4 the nearest block. At a tie the first counts, which has the lowest code.
    fn nearest_met(&self, from: u32, met: &Met, low: u32, high: u32) -> Option<Near> {
        (0..self.panel.places)
            .filter(|place| {
                met[(*place % 1280) as usize] && low <= level_at(*place) && level_at(*place) <= high
            })
            .map(|place| Near {
                place,
                distance: distance_to(from, place),
            })
            .min_by_key(|near| near.distance)
    }

    // Opens blocks until the search is complete or the budget spent, and answers how many.
    fn open_nearest(&self, from: u32, budget: u32, met: &mut Met) -> u32 {
        for opened in 0..budget {
            let pixel = self.nearest_met(from, met, 0, 0);
            let Some(block) = to_open(pixel, self.nearest_met(from, met, 1, 4)) else {
                return opened;
            };
            self.open(block.place, met);
        }
        budget
    }

    // The root is met first.
    pub fn search(&self, from: u32, budget: u32) -> Search {
        let mut met = [false; 1280];
        met[place_of(self.panel.m, 0)] = true;
        let opened = self.open_nearest(from, budget, &mut met);
        let pixel = self.nearest_met(from, &met, 0, 0);
        let block = self.nearest_met(from, &met, 1, 4);
        Search {
            found: pixel.map(|near| Pixel {
                code: code_at(near.place),
                distance: near.distance as u64,
            }),
            opened,
            limit: limit_of(pixel, block) as u64,
            complete: to_open(pixel, block).is_none(),
        }
    }
}
