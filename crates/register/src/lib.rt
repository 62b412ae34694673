// The register of unfit pixels: the calls that are open to users. None has a requires; each has one ensures, over 01's number and values of its answer.
#![tactic(auto)]

ghost use Rattle.answers.specs.Answer.{answer, ask_answer, count_answer, list_answer, save_answer, check_answer, search_answer};
ghost use Rattle.promises.specs.Calls.{MakeMeets, MarkMeets, ClearMeets, AskMeets, NearestMeets, CountMeets, ListMeets, SaveMeets, LoadMeets, FillMeets, CheckMeets};

use answers::judging::{judge_pixel, judge_store, judge_window};
use answers::{Found, Nearest, Place, Refusal};
use filling::fill::fill_codes;
use measures::lent::Register;
use measures::sizes::{Sizes, layout_of, store_end, within_limits, write_sizes};
use nearest::answer::find_nearest;
use soundness::is_sound;
use windows::Window;

// 01: an empty, sound register of order m, with this k, for at most so many pixels (01's N).
pub fn make(store: &mut [u32], m: u32, k: u32, most: u32) -> Result<(), Refusal>
    ensures { MakeMeets store.old store.new m k most (answer result) }
{
    let sizes = Sizes { order: m, k, most };
    if !within_limits(sizes) {
        return Err(Refusal::BeyondLimits);
    }
    if store.len() < store_end(layout_of(sizes)) {
        return Err(Refusal::StoreTooShort);
    }
    write_sizes(store, sizes);
    fill_codes(store, sizes, &[]);
    Ok(())
}

// 01: adds one pixel.
pub fn mark(store: &mut [u32], x: u32, y: u32) -> Result<(), Refusal>
    ensures { MarkMeets store.old store.new x y (answer result) }
{
    let pixel = judge_pixel(store, x, y)?;
    update::marks::mark(store, pixel.sizes, pixel.code)
}

// 01: removes one pixel.
pub fn clear(store: &mut [u32], x: u32, y: u32) -> Result<(), Refusal>
    ensures { ClearMeets store.old store.new x y (answer result) }
{
    let pixel = judge_pixel(store, x, y)?;
    update::marks::clear(store, pixel.sizes, pixel.code)
}

// 01: marked or not, and the number of blocks opened; 02, P8: and the smallest block that contains the pixel, by level and code.
pub fn ask(store: &[u32], x: u32, y: u32) -> Result<Place, Refusal>
    ensures { AskMeets store.now x y (ask_answer result) }
{
    let pixel = judge_pixel(store, x, y)?;
    let register = Register {
        words: store,
        sizes: pixel.sizes,
    };
    asking::ask(&register, pixel.code)
}

// 02, P5: the marked pixel nearest to (x, y), with a budget of blocks to open, and a limit below which no marked pixel can be.
pub fn nearest(store: &[u32], x: u32, y: u32, budget: u32) -> Result<Nearest, Refusal>
    ensures { NearestMeets store.now x y budget (search_answer result) }
{
    let pixel = judge_pixel(store, x, y)?;
    let register = Register {
        words: store,
        sizes: pixel.sizes,
    };
    find_nearest(&register, pixel.code, budget)
}

// 01: the marked pixels in the window, both corners included, and the blocks opened.
pub fn count(store: &[u32], x0: u32, y0: u32, x1: u32, y1: u32) -> Result<Found, Refusal>
    ensures { CountMeets store.now x0 y0 x1 y1 (count_answer result) }
{
    let sizes = judge_window(store, x0, y0, x1, y1)?;
    let register = Register {
        words: store,
        sizes,
    };
    query::count::count(&register, Window { x0, y0, x1, y1 })
}

// 01: as count, and each found code is written once to the first words of the output; 02, P1: in ascending order.
pub fn list(
    store: &[u32],
    x0: u32,
    y0: u32,
    x1: u32,
    y1: u32,
    output: &mut [u32],
) -> Result<Found, Refusal>
    ensures { ListMeets store.now x0 y0 x1 y1 output.old output.new (list_answer result) }
{
    let sizes = judge_window(store, x0, y0, x1, y1)?;
    let register = Register {
        words: store,
        sizes,
    };
    listing::list(&register, Window { x0, y0, x1, y1 }, output)
}

// 01: writes the image, and returns its length.
pub fn save(store: &[u32], output: &mut [u8]) -> Result<usize, Refusal>
    ensures { SaveMeets store.now output.old output.new (save_answer result) }
{
    let sizes = judge_store(store)?;
    let register = Register {
        words: store,
        sizes,
    };
    saving::save(&register, output)
}

// 01: the register of the image's set, of the same sizes. The image is judged whole before a word is written.
pub fn load(store: &mut [u32], image: &[u8]) -> Result<(), Refusal>
    ensures { LoadMeets store.old store.new image.now (answer result) }
{
    let sizes = judge_store(store)?;
    loading::load::load(store, sizes, image)
}

// 02, P2: the register of these codes, of the same sizes; they ascend strictly, and are judged before a word is written.
pub fn fill(store: &mut [u32], codes: &[u32]) -> Result<(), Refusal>
    ensures { FillMeets store.old store.new codes.now (answer result) }
{
    let sizes = judge_store(store)?;
    filling::fill::fill(store, sizes, codes)
}

// 01: yes exactly when sound.
pub fn check(store: &[u32]) -> Result<bool, Refusal>
    ensures { CheckMeets store.now (check_answer result) }
{
    let sizes = judge_store(store)?;
    let register = Register {
        words: store,
        sizes,
    };
    Ok(is_sound(&register))
}
