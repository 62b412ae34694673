// One call, drawn, on the register and on the plain set.
use crate::draws;
use crate::numbers::{Answer, Values, answer_of, of_found, of_nearest, of_place};
use answers::Place;
use plain::blocks::Marked;
use plain::calls::{Refusal, fits};
use plain::images::stated_length;
use plain::search::Search;
use plain::window::Window;

// An output that any image here fits into.
pub type Image = [u8; 2048];

#[derive(Clone, Copy)]
pub enum Call {
    Mark,
    Clear,
    Ask,
    Count,
    List,
    Nearest,
    Save,
    Load,
    Fill,
    Make,
    Check,
}

impl Call {
    pub fn name(self) -> &'static str {
        match self {
            Call::Mark => "mark",
            Call::Clear => "clear",
            Call::Ask => "ask",
            Call::Count => "count",
            Call::List => "list",
            Call::Nearest => "nearest",
            Call::Save => "save",
            Call::Load => "load",
            Call::Fill => "fill",
            Call::Make => "make",
            Call::Check => "check",
        }
    }

    // In each stretch of a history either mark or clear prevails.
    pub fn drawn(seed: u32, clearing: bool) -> Call {
        match draws::draw(seed, 14, 32) {
            0..=11 => if clearing { Call::Clear } else { Call::Mark },
            12..=15 => if clearing { Call::Mark } else { Call::Clear },
            16 | 17 => Call::Ask,
            18..=20 => Call::Count,
            21..=23 => Call::List,
            24 | 25 => Call::Nearest,
            26 | 27 => Call::Save,
            28 | 29 => Call::Load,
            30 => Call::Fill,
            _ => if draws::draw(seed, 15, 2) < 1 {
                Call::Make
            } else {
                Call::Check
            },
        }
    }
}

// Both answers to a call, and whether what was written is right too, or the other values of a search or of an ask are.
#[derive(Clone, Copy)]
pub struct Step {
    pub got: Answer,
    pub want: Answer,
    pub right_output: bool,
}

fn both<T: Values>(
    got: Result<T, answers::Refusal>,
    want: Result<T, Refusal>,
    right_output: bool,
) -> Step {
    Step {
        got: answer_of(got),
        want: answer_of(want),
        right_output,
    }
}

// The store is lent whole; one time in 16 just as long as needed or one word shorter.
pub fn run(
    call: Call,
    seed: u32,
    store: &mut [u32],
    marked: &mut Marked,
    image: &mut Image,
) -> Step {
    let length = draws::length_drawn(seed, 10, marked.panel.words, store.len(), 16);
    let lent = &mut store[..length];
    match call {
        Call::Mark => change(true, seed, lent, marked),
        Call::Clear => change(false, seed, lent, marked),
        Call::Ask => ask(seed, lent, marked),
        Call::Count => count(seed, lent, marked),
        Call::List => list(seed, lent, marked),
        Call::Nearest => nearest(seed, lent, marked),
        Call::Save => save(seed, lent, marked, image),
        Call::Load => load(seed, lent, marked, image),
        Call::Fill => fill(seed, lent, marked),
        Call::Make => make(seed, lent, marked),
        Call::Check => check(lent, marked),
    }
}

// mark, or clear.
fn change(to: bool, seed: u32, store: &mut [u32], marked: &mut Marked) -> Step {
    let Window { x0, y0, .. } = draws::window_drawn(seed, marked.panel);
    let outcome = if to {
        register::mark(store, x0, y0)
    } else {
        register::clear(store, x0, y0)
    };
    let want = marked.change(store.len(), x0, y0, to);
    both(outcome, want, true)
}

fn ask(seed: u32, store: &[u32], marked: &Marked) -> Step {
    let Window { x0, y0, .. } = draws::window_drawn(seed, marked.panel);
    let asking = register::ask(store, x0, y0);
    let want = marked.ask(store.len(), x0, y0);
    let right = tells_smallest(asking, marked, Window::around(x0, y0));
    both(asking.map(of_place), want, right)
}

fn count(seed: u32, store: &[u32], marked: &Marked) -> Step {
    let window = draws::window_drawn(seed, marked.panel);
    let Window { x0, y0, x1, y1 } = window;
    let got = register::count(store, x0, y0, x1, y1).map(of_found);
    both(got, marked.count(store.len(), window), true)
}

fn list(seed: u32, store: &[u32], marked: &Marked) -> Step {
    let window = draws::window_drawn(seed, marked.panel);
    let whole = marked.list(store.len(), window);
    let needed = match whole {
        Ok(seen) => seen.pixels,
        Err(_) => 0,
    };
    let room = draws::length_drawn(seed, 12, needed, 256, 2);
    let mut output = [7u32; 256];
    let Window { x0, y0, x1, y1 } = window;
    let listing = register::list(store, x0, y0, x1, y1, &mut output[..room]);
    let want = fits(needed, room).and(whole);
    let right = marked.is_list(window, want.is_ok(), &output);
    both(listing.map(of_found), want, right)
}

fn nearest(seed: u32, store: &[u32], marked: &Marked) -> Step {
    let Window { x0, y0, .. } = draws::window_drawn(seed, marked.panel);
    let budget = draws::budget_drawn(seed);
    let got = register::nearest(store, x0, y0, budget).map(of_nearest);
    let want = marked.nearest(store.len(), x0, y0, budget);
    both(got, want, other_values(got) == other_values(want))
}

// An image that was saved is kept for later loads, also by other histories.
fn save(seed: u32, store: &[u32], marked: &Marked, image: &mut Image) -> Step {
    let room = draws::length_drawn(seed, 12, marked.image_length(), 2048, 2);
    let mut output = [7u8; 2048];
    let saving = register::save(store, &mut output[..room]);
    let want = marked.save(store.len(), room);
    if want.is_ok() {
        *image = output;
    }
    let right = marked.is_saved(want.is_ok(), &output);
    both(saving, want, right)
}

fn load(seed: u32, store: &mut [u32], marked: &mut Marked, kept: &Image) -> Step {
    let mut image = *kept;
    draws::change(seed, marked.panel, &mut image);
    let end = draws::length_drawn(seed, 12, stated_length(&image), 2048, 1);
    let outcome = register::load(store, &image[..end]);
    let want = marked.load(store.len(), &image[..end]);
    both(outcome, want, true)
}

// A panel of order 4 has 256 codes.
fn fill(seed: u32, store: &mut [u32], marked: &mut Marked) -> Step {
    let mut codes = [0u32; 257];
    draws::draw_codes(seed, marked.panel, &mut codes);
    let number = draws::code_number_drawn(seed, marked.panel, 257);
    let outcome = register::fill(store, &codes[..number]);
    let want = marked.fill(store.len(), &codes[..number]);
    both(outcome, want, true)
}

// Each number is the panel's, or now and then just beyond its limits.
fn make(seed: u32, store: &mut [u32], marked: &mut Marked) -> Step {
    let panel = marked.panel;
    let m = draws::number_drawn(seed, 7, panel.m, 0, 17);
    let k = draws::number_drawn(seed, 8, panel.k as u32, 1, 17);
    let most = draws::number_drawn(seed, 9, panel.most, 0, 24577);
    let outcome = register::make(store, m, k, most);
    let want = marked.make(m, k, most, store.len());
    both(outcome, want, true)
}

fn check(store: &[u32], marked: &Marked) -> Step {
    both(
        register::check(store),
        marked.panel.check(store.len()),
        true,
    )
}

// 02, P8: whether the block told is the smallest that contains the pixel; beside a refusal none is told.
fn tells_smallest(asking: Result<Place, answers::Refusal>, marked: &Marked, pixel: Window) -> bool {
    match asking {
        Ok(place) => marked.is_smallest(pixel, place.level, place.code),
        Err(_) => true,
    }
}

// The distance, the limit and whether the search is complete, zeros beside a refusal.
fn other_values<R: Drop>(answer: Result<Search, R>) -> (Option<u64>, u64, bool) {
    match answer {
        Ok(search) => (
            search.found.map(|found| found.distance),
            search.limit,
            search.complete,
        ),
        Err(_) => (None, 0, false),
    }
}
