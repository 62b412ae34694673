// The register for C, and for what calls C: numbers and slices only, each call register's own. None has a requires; each has one
// ensures, register's own, of the numbers handed over.
#![tactic(auto)]

ghost use Rattle.std.specs.Prelude.{◌≡◌, ◌<◌};
ghost use Rattle.answers.specs.Answer.{needed_by, refusal_answer};
ghost use Rattle.promises.specs.Answer as answers;
ghost use Rattle.promises.specs.Calls.{MakeMeets, MarkMeets, ClearMeets, LoadMeets, FillMeets, AskMeets, NearestMeets, CountMeets, ListMeets, SaveMeets, CheckMeets};
ghost use Rattle.pkreg.specs.Numbers.{numbers, place_numbers, nearest_numbers, WordsNeeded};

use answers::{Found, NearPixel, Refusal, refusal_of};
use measures::sizes::{Sizes, layout_of, store_end, within_limits};

// 01's number and values: refusal 0 is an accepted call.
#[repr(C)]
#[derive(Clone, Copy)]
pub struct PkAnswer {
    pub refusal: u32,
    pub first: u32,
    pub second: u32,
}

fn accepted(first: u32, second: u32) -> PkAnswer
    ensures { numbers result ≡ answers.accepted first second }
{
    PkAnswer {
        refusal: 0,
        first,
        second,
    }
}

// What count and list found.
impl From<Found> for PkAnswer {
    ghost from_gives = { λ sum answer. numbers answer ≡ answers.accepted sum.found sum.opened };

    fn from(sum: Found) -> PkAnswer {
        accepted(sum.found, sum.opened)
    }
}

// The needed length comes with 9: no register needs more than 32 bits say.
fn refused(refusal: Refusal) -> PkAnswer
    ensures { needed_by refusal < 4294967296 → numbers result ≡ refusal_answer refusal }
{
    let first = match refusal {
        Refusal::OutputTooShort { needed } => u32::try_from(needed).unwrap_or(u32::MAX),
        _ => 0,
    };
    PkAnswer {
        refusal: u32::from(refusal),
        first,
        second: 0,
    }
}

// The words that a store needs, 0 for a k or a `most` (01's N) beyond its limits. They do not depend on the order.
#[unsafe(no_mangle)]
pub extern "C" fn pk_words(k: u32, most: u32) -> u64
    ensures { WordsNeeded k most result }
{
    let sizes = Sizes { order: 1, k, most };
    if !within_limits(sizes) {
        return 0;
    }
    store_end(layout_of(sizes)) as u64
}

#[unsafe(no_mangle)]
pub extern "C" fn pk_make(store: &mut [u32], m: u32, k: u32, most: u32) -> u32
    ensures { MakeMeets store.old store.new m k most (answers.refused result) }
{
    refusal_of(register::make(store, m, k, most))
}

#[unsafe(no_mangle)]
pub extern "C" fn pk_mark(store: &mut [u32], x: u32, y: u32) -> u32
    ensures { MarkMeets store.old store.new x y (answers.refused result) }
{
    refusal_of(register::mark(store, x, y))
}

#[unsafe(no_mangle)]
pub extern "C" fn pk_clear(store: &mut [u32], x: u32, y: u32) -> u32
    ensures { ClearMeets store.old store.new x y (answers.refused result) }
{
    refusal_of(register::clear(store, x, y))
}

#[unsafe(no_mangle)]
pub extern "C" fn pk_load(store: &mut [u32], image: &[u8]) -> u32
    ensures { LoadMeets store.old store.new image.now (answers.refused result) }
{
    refusal_of(register::load(store, image))
}

#[unsafe(no_mangle)]
pub extern "C" fn pk_fill(store: &mut [u32], codes: &[u32]) -> u32
    ensures { FillMeets store.old store.new codes.now (answers.refused result) }
{
    refusal_of(register::fill(store, codes))
}

// 02, P8: the values of ask, all zero beside a refusal.
#[repr(C)]
#[derive(Clone, Copy)]
pub struct PkPlace {
    pub refusal: u32,
    pub marked: u32,
    pub opened: u32,
    pub level: u32,
    pub code: u32,
}

// marked is 1 for yes and 0 for no; level and code are those of the smallest block that contains the pixel.
#[unsafe(no_mangle)]
pub extern "C" fn pk_ask(store: &[u32], x: u32, y: u32) -> PkPlace
    ensures { AskMeets store.now x y (place_numbers result) }
{
    match register::ask(store, x, y) {
        Ok(place) => PkPlace {
            refusal: 0,
            marked: u32::from(place.marked),
            opened: place.opened as u32,
            level: place.level,
            code: place.code,
        },
        Err(refusal) => PkPlace {
            refusal: u32::from(refusal),
            marked: 0,
            opened: 0,
            level: 0,
            code: 0,
        },
    }
}

// 02, P5: the values of nearest, all zero beside a refusal.
#[repr(C)]
#[derive(Clone, Copy)]
pub struct PkNearest {
    pub distance: u64,
    pub limit: u64,
    pub refusal: u32,
    pub found: u32,
    pub code: u32,
    pub opened: u32,
    pub complete: u32,
}

// found and complete are 1 for yes and 0 for no.
#[unsafe(no_mangle)]
pub extern "C" fn pk_nearest(store: &[u32], x: u32, y: u32, budget: u32) -> PkNearest
    ensures { NearestMeets store.now x y budget (nearest_numbers result) }
{
    let nearest = match register::nearest(store, x, y, budget) {
        Ok(nearest) => nearest,
        Err(refusal) => {
            return PkNearest {
                distance: 0,
                limit: 0,
                refusal: u32::from(refusal),
                found: 0,
                code: 0,
                opened: 0,
                complete: 0,
            };
        }
    };
    let pixel = nearest.pixel.unwrap_or(NearPixel {
        code: 0,
        distance: 0,
    });
    PkNearest {
        distance: pixel.distance,
        limit: nearest.limit,
        refusal: 0,
        found: u32::from(nearest.pixel.is_some()),
        code: pixel.code,
        opened: nearest.opened,
        complete: u32::from(nearest.complete),
    }
}

// first is the pixels found, second the blocks opened.
#[unsafe(no_mangle)]
pub extern "C" fn pk_count(store: &[u32], x0: u32, y0: u32, x1: u32, y1: u32) -> PkAnswer
    ensures { CountMeets store.now x0 y0 x1 y1 (numbers result) }
{
    match register::count(store, x0, y0, x1, y1) {
        Ok(sum) => PkAnswer::from(sum),
        Err(refusal) => refused(refusal),
    }
}

// As pk_count; with 9, first is the words needed.
#[unsafe(no_mangle)]
pub extern "C" fn pk_list(
    store: &[u32],
    x0: u32,
    y0: u32,
    x1: u32,
    y1: u32,
    output: &mut [u32],
) -> PkAnswer
    ensures { ListMeets store.now x0 y0 x1 y1 output.old output.new (numbers result) }
{
    match register::list(store, x0, y0, x1, y1, output) {
        Ok(sum) => PkAnswer::from(sum),
        Err(refusal) => refused(refusal),
    }
}

// first is the image's length; with 9, the bytes needed.
#[unsafe(no_mangle)]
pub extern "C" fn pk_save(store: &[u32], output: &mut [u8]) -> PkAnswer
    ensures { SaveMeets store.now output.old output.new (numbers result) }
{
    match register::save(store, output) {
        Ok(length) => accepted(length as u32, 0),
        Err(refusal) => refused(refusal),
    }
}

// first is 1 for a sound store, 0 for another.
#[unsafe(no_mangle)]
pub extern "C" fn pk_check(store: &[u32]) -> PkAnswer
    ensures { CheckMeets store.now (numbers result) }
{
    match register::check(store) {
        Ok(sound) => accepted(u32::from(sound), 0),
        Err(refusal) => refused(refusal),
    }
}
