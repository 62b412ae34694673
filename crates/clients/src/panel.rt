ghost use Rattle.std.specs.Prelude.{◌≤◌, ◌≡◌, length, true, false};
ghost use Rattle.promises.specs.Answer.{accepted, searched, located};
ghost use Rattle.promises.specs.Calls.{window_given};
ghost use Rattle.answers.specs.Answer.{ask_answer, search_answer, count_answer, list_answer, save_answer};
ghost use Rattle.clients.specs.Known.{first_set, HoldsOf9, HoldsFirst, PanelAsked, PanelSearched, values, PanelCounted, PanelListed, PanelSaved, ClearedListed};

use answers::{Found, Nearest, Place, Refusal, refusal_of};

// 01's first sample panel, marked pixel by pixel, in any store that is long enough.
pub fn mark_first(store: &mut [u32])
    requires { 148 ≤ length store.old }
    ensures { HoldsOf9 first_set store.old store.new }
{
    let _ = register::make(store, 3, 3, 9);
    let _ = register::mark(store, 0, 0);
    let _ = register::mark(store, 1, 0);
    let _ = register::mark(store, 0, 1);
    let _ = register::mark(store, 6, 6);
}

// It, in a store of its own.
fn first_panel() -> [u32; 148]
    ensures { HoldsFirst result }
{
    let mut store = [0u32; 148];
    mark_first(&mut store);
    store
}

// ask on it.
fn ask_panel(x: u32, y: u32) -> Result<Place, Refusal>
    ensures { PanelAsked x y (ask_answer result) }
{
    register::ask(&first_panel(), x, y)
}

// 01: (0, 0) is marked; the root and the block 1/0 contain it.
pub fn ask_marked() -> Result<Place, Refusal>
    ensures { ask_answer result ≡ located true 2 1 0 }
{
    ask_panel(0, 0)
}

// 01: ask (1, 1) is no, 2 opened; 02, P8: the block 1/0 is the smallest around it.
pub fn ask_unmarked() -> Result<Place, Refusal>
    ensures { ask_answer result ≡ located false 2 1 0 }
{
    ask_panel(1, 1)
}

// 01: ask (3, 3) is no, 1 opened; 02, P8: only the root is around it.
pub fn ask_root() -> Result<Place, Refusal>
    ensures { ask_answer result ≡ located false 1 3 0 }
{
    ask_panel(3, 3)
}

// nearest on it.
fn search_panel(x: u32, y: u32, budget: u32) -> Result<Nearest, Refusal>
    ensures { PanelSearched x y budget (search_answer result) }
{
    register::nearest(&first_panel(), x, y, budget)
}

// 02, P5: from (1, 1) the root alone shows code 60, at squared distance 50; the block 1/0 around the place is left, so nothing is excluded.
pub fn nearest_rough() -> Result<Nearest, Refusal>
    ensures { search_answer result ≡ searched (values true 60 50 1 0 false) }
{
    search_panel(1, 1, 1)
}

// Then codes 1 and 2 are as near, and the lower wins.
pub fn nearest_whole() -> Result<Nearest, Refusal>
    ensures { search_answer result ≡ searched (values true 1 1 2 1 true) }
{
    search_panel(1, 1, 9)
}

// count on it.
fn count_panel(x0: u32, y0: u32, x1: u32, y1: u32) -> Result<Found, Refusal>
    ensures { PanelCounted (window_given x0 y0 x1 y1) (count_answer result) }
{
    register::count(&first_panel(), x0, y0, x1, y1)
}

// 01: window 4,4 to 7,7 finds code 60, 1 opened.
pub fn count_window() -> Result<Found, Refusal>
    ensures { count_answer result ≡ accepted 1 1 }
{
    count_panel(4, 4, 7, 7)
}

// 02, P3: over the right and the upper edge, it finds what its part on the panel has: code 60, 1 opened.
pub fn count_over_edges() -> Result<Found, Refusal>
    ensures { count_answer result ≡ accepted 1 1 }
{
    count_panel(6, 6, 9, 0xFFFFFFFF)
}

// 02, P6: the column x = 0 goes across the root and the block 1/0: both are opened, and each pixel is tested.
pub fn count_across_block() -> Result<Found, Refusal>
    ensures { count_answer result ≡ accepted 2 2 }
{
    count_panel(0, 0, 0, 7)
}

// With the column x = 1 the block 1/0 lies wholly inside: it is taken by its number, and the root alone is opened.
pub fn count_around_block() -> Result<Found, Refusal>
    ensures { count_answer result ≡ accepted 3 1 }
{
    count_panel(0, 0, 1, 7)
}

// 02, P6: the whole panel opens no block.
pub fn count_whole_panel() -> Result<Found, Refusal>
    ensures { count_answer result ≡ accepted 4 0 }
{
    register::count(&first_panel(), 0, 0, 7, 7)
}

// The whole panel, word by word.
pub fn list_window(output: &mut [u32]) -> Result<Found, Refusal>
    ensures { PanelListed output.old output.new (list_answer result) }
{
    register::list(&first_panel(), 0, 0, 7, 7, output)
}

// The image, byte by byte.
pub fn save_image(output: &mut [u8]) -> Result<usize, Refusal>
    ensures { PanelSaved output.old output.new (save_answer result) }
{
    register::save(&first_panel(), output)
}

// 01: then clear code 1. The block 1/0 is gone.
pub fn list_cleared(output: &mut [u32]) -> Result<Found, Refusal>
    ensures { ClearedListed output.old output.new (list_answer result) }
{
    let mut store = first_panel();
    let _ = register::clear(&mut store, 1, 0);
    register::list(&store, 0, 0, 7, 7, output)
}

pub fn mark_marked() -> u32
    ensures { result ≡ 5 }
{
    let mut store = first_panel();
    refusal_of(register::mark(&mut store, 6, 6))
}

pub fn clear_unmarked() -> u32
    ensures { result ≡ 7 }
{
    let mut store = first_panel();
    refusal_of(register::clear(&mut store, 1, 1))
}
