// The claim about two lists, at work: a list of calls drawn at random and the list of its survivors, marked in falling order, are replayed on two
// registers; the two images must be the same bytes, and one pixel less another image.
#![tactic(auto)]

use crate::drawn::word_drawn;
use answers::Found;
use console::Console;
use measures::slots::wide;
use std::fmt::Write;

mod drawn;

// Two registers, and the script of 64 calls that is replayed on them; 288 words are enough for k = 3, N = 20.
#[derive(Drop)]
struct Replays {
    first: [u32; 288],
    second: [u32; 288],
    script: [u32; 384],
}

fn main() {
    let mut replays = Replays {
        first: [0; 288],
        second: [0; 288],
        script: [0; 384],
    };
    let mut agree = true;
    for seed in 0..200u32 {
        if !replays.agree(seed) {
            let _ = writeln!(Console, "DIFFERENCE seed {seed}");
            agree = false;
        }
    }
    if agree {
        let _ = writeln!(
            Console,
            "200 lists of 64 calls and 200 lists of their survivors: ok"
        );
    }
}

impl Replays {
    // The same bytes after both lists, and other bytes with one pixel less.
    fn agree(&mut self, seed: u32) -> bool {
        draw_script(&mut self.script, seed);
        replay(&mut self.first, 9, &self.script);
        write_survivors(&self.first, &mut self.script);
        replay(&mut self.second, 20, &self.script);
        if !same_images(&self.first, &self.second) {
            return false;
        }
        if clear_last(&mut self.second, &self.script) {
            return !same_images(&self.first, &self.second);
        }
        true
    }
}

// A list of calls on a fresh register; its loads take 01's first sample panel, its fills parts of codes that ascend but for one and leave the panel last.
fn replay(store: &mut [u32], n: u32, script: &[u32]) {
    let codes = [
        0u32, 1, 2, 4, 5, 9, 12, 16, 17, 18, 27, 27, 33, 48, 49, 60, 63, 64,
    ];
    history::run(
        store,
        3,
        3,
        n,
        script,
        b"\x03\x03\x06\x00\x00\x00\x04\x00\x00\x00\x00\x00\x00\x00\x00\x00\x00\x00\x00\x00\x00\x00\x01\x00\x00\x00\x02\x00\x00\x00\x3c\x00\x00\x00\x03\x01\x00\x00\x00\x00",
        &codes,
    );
}

fn draw_script(script: &mut [u32], seed: u32) {
    for (place, word) in (0u32..).zip(script.iter_mut()) {
        *word = word_drawn(seed, place);
    }
}

// The script that marks the register's pixels in falling order, then checks.
fn write_survivors(store: &[u32], script: &mut [u32]) {
    let mut codes = [0u32; 64];
    let Ok(Found { found, opened: _ }) = register::list(store, 0, 0, 7, 7, &mut codes) else {
        return;
    };
    write_marks(script, &codes[..wide(found)]);
}

fn write_marks(script: &mut [u32], codes: &[u32]) {
    for (i, word) in script.iter_mut().enumerate() {
        *word = word_of_mark(codes.iter().rev().nth(i / 6), i % 6);
    }
}

// A call marks a pixel, or after the last is 9, check, which leaves everything.
fn word_of_mark(code: Option<&u32>, part: usize) -> u32 {
    match (code, part) {
        (Some(code), 1) => morton::x_of(*code),
        (Some(code), 2) => morton::y_of(*code),
        (None, 0) => 9,
        _ => 0,
    }
}

// Clears the pixel that the survivors' script marks first, if there is one.
fn clear_last(store: &mut [u32], script: &[u32]) -> bool {
    match script {
        [0, x, y, ..] => register::clear(store, *x, *y).is_ok(),
        _ => false,
    }
}

fn same_images(first: &[u32], second: &[u32]) -> bool {
    let mut image = [0u8; 256];
    let Ok(length) = register::save(first, &mut image) else {
        return false;
    };
    let mut other = [0u8; 256];
    let Ok(other_length) = register::save(second, &mut other) else {
        return false;
    };
    image[..length] == other[..other_length]
}
