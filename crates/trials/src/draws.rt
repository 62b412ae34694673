// What is drawn for a history and for each of its calls. A seed is the call's number among all calls; every draw of a call has a place of its own.
ghost use Rattle.std.specs.Prelude.{◌<◌, ◌≤◌};

use crate::steps::Image;
use plain::blocks::Panel;
use plain::calls::words_needed;
use plain::codes::{side_of, size_of};
use plain::window::Window;

// Two multiplications with a fold between them; the high bits are used.
pub fn draw(seed: u32, place: u32, below: u32) -> u32
    requires { 1 ≤ below }
    ensures { result < below }
{
    let once = ((seed as u64) * 32 + (place as u64)) % 4294967296 * 2654435761 % 4294967296;
    let twice = (once ^ (once >> 16)) % 4294967296 * 2246822519 % 4294967296;
    (twice / 256) as u32 % below
}

// Small k and small N prevail.
pub fn panel_drawn(seed: u32) -> Panel {
    let m = 1 + draw(seed, 0, 4);
    let k = 2 + draw(seed, 1, 1 + draw(seed, 2, 15));
    let most = 1 + draw(seed, 3, 6 + size_of(m) / 2);
    Panel {
        m,
        k: k as u8,
        most,
        words: words_needed(k, most),
        places: (5 * size_of(m)) as u16,
    }
}

// On the panel, often near its corner; now and then beyond it.
fn coordinate(seed: u32, place: u32, side: u32) -> u32
    requires { 1 ≤ side }
{
    match draw(seed, place, 64) {
        0 => u32::MAX,
        1 => side,
        2..=31 => draw(seed, place | 16, side),
        _ => draw(seed, place | 16, 1 + side / 4),
    }
}

// A pixel is its near corner. The far corner is mostly not before the near one.
pub fn window_drawn(seed: u32, panel: Panel) -> Window {
    let side = side_of(panel.m);
    let x0 = coordinate(seed, 0, side);
    let y0 = coordinate(seed, 1, side);
    let x1 = coordinate(seed, 2, side);
    let y1 = coordinate(seed, 3, side);
    if draw(seed, 4, 4) < 1 {
        return Window { x0, y0, x1, y1 };
    }
    Window {
        x0,
        y0,
        x1: x0 | x1,
        y1: y0 | y1,
    }
}

// All, or one time in `odds` as much as is needed, or sometimes one less.
pub fn length_drawn(seed: u32, place: u32, needed: usize, all: usize, odds: u32) -> usize
    requires { 1 ≤ odds }
    ensures { result ≤ all }
{
    if needed < 1 || all < needed || draw(seed, place, odds) != 0 {
        return all;
    }
    needed - ((draw(seed, place | 1, 4) / 3) as usize)
}

pub fn number_drawn(seed: u32, place: u32, right: u32, below: u32, above: u32) -> u32 {
    match draw(seed, place, 8) {
        0 => below,
        1 => above,
        _ => right,
    }
}

// None, a few, or more than any register here has blocks.
pub fn budget_drawn(seed: u32) -> u32 {
    let kind = draw(seed, 21, 16);
    match kind {
        0..=11 => kind / 2,
        12 | 13 => draw(seed, 22, 100),
        _ => u32::MAX,
    }
}

// From none to one more than the panel has, if there are so many.
pub fn code_number_drawn(seed: u32, panel: Panel, all: usize) -> usize
    ensures { result ≤ all }
{
    all.min(draw(seed, 16, 2 + size_of(panel.m)) as usize)
}

// Codes that ascend in even steps, or are all alike; often one of them is another.
pub fn draw_codes(seed: u32, panel: Panel, codes: &mut [u32]) {
    write_steps(codes, draw(seed, 18, 3), draw(seed, 17, 4));
    let at = draw(seed, 19, 258) as usize;
    if at < codes.len() {
        codes[at] = draw(seed, 20, 2 * size_of(panel.m));
    }
}

fn write_steps(codes: &mut [u32], first: u32, step: u32) {
    let mut code = first;
    for word in codes {
        *word = code;
        code = code.wrapping_add(step);
    }
}

// The image of another panel may become one of this panel; any byte may be wrong; often none is changed.
pub fn change(seed: u32, panel: Panel, image: &mut Image) {
    match draw(seed, 7, 8) {
        0 => image[0] = (panel.m % 256) as u8,
        1 => image[1] = panel.k,
        2..=4 => image[draw(seed, 8, 128) as usize] = draw(seed, 9, 20) as u8,
        _ => {}
    }
}
