// A damaged store: what each call says of it, and that load and fill mend it.
ghost use Rattle.std.specs.Prelude.{◌≤◌, ◌≡◌, length};
ghost use Rattle.promises.specs.Answer.{accepted, refused};
ghost use Rattle.answers.specs.Answer.{ask_answer, search_answer, count_answer, list_answer, save_answer, check_answer};
ghost use Rattle.clients.specs.Known.{HoldsFirst, first_image, PanelListed, Overwritten, SpoiltOf9, DamagedThenUnusable, NothingListed};

use answers::{Found, Nearest, Place, Refusal, refusal_of};

// Something else writes to the store.
fn overwrite(store: &mut [u32])
    requires { 148 ≤ length store.old }
    ensures { Overwritten store.old store.new }
{
    store[4..148].fill(0xFFFFFFFF);
}

fn make_and_spoil(store: &mut [u32])
    requires { 148 ≤ length store.old }
    ensures { SpoiltOf9 store.new }
{
    let _ = register::make(store, 3, 3, 9);
    overwrite(store);
}

// A store that was made and then damaged.
fn spoilt() -> [u32; 148]
    ensures { SpoiltOf9 result }
{
    let mut store = [0u32; 148];
    make_and_spoil(&mut store);
    store
}

// What two calls in a row were refused with.
#[derive(Clone, Copy)]
pub struct Numbers {
    pub first: u32,
    pub second: u32,
}

// 01: mark sets word 0 to zero, so later calls give 3.
pub fn mark_spoilt() -> Numbers
    ensures { DamagedThenUnusable result.first result.second }
{
    let mut store = spoilt();
    let first = refusal_of(register::mark(&mut store, 1, 2));
    let second = refusal_of(register::mark(&mut store, 1, 2));
    Numbers { first, second }
}

pub fn clear_spoilt() -> Numbers
    ensures { DamagedThenUnusable result.first result.second }
{
    let mut store = spoilt();
    let first = refusal_of(register::clear(&mut store, 1, 2));
    let second = refusal_of(register::clear(&mut store, 1, 2));
    Numbers { first, second }
}

pub fn nearest_spoilt() -> Result<Nearest, Refusal>
    ensures { search_answer result ≡ refused 13 }
{
    register::nearest(&spoilt(), 1, 2, 1)
}

pub fn ask_spoilt() -> Result<Place, Refusal>
    ensures { ask_answer result ≡ refused 13 }
{
    register::ask(&spoilt(), 1, 2)
}

pub fn count_spoilt() -> Result<Found, Refusal>
    ensures { count_answer result ≡ refused 13 }
{
    register::count(&spoilt(), 0, 0, 7, 7)
}

pub fn list_spoilt(output: &mut [u32]) -> Result<Found, Refusal>
    ensures { list_answer result ≡ refused 13 }
{
    register::list(&spoilt(), 0, 0, 7, 7, output)
}

// 02, P3: a window wholly off the panel finds 0 and opens 0, also here.
pub fn count_off_panel() -> Result<Found, Refusal>
    ensures { count_answer result ≡ accepted 0 0 }
{
    register::count(&spoilt(), 8, 0, 0xFFFFFFFF, 7)
}

// And writes nothing, whatever the output's length.
pub fn list_off_panel(output: &mut [u32]) -> Result<Found, Refusal>
    ensures { NothingListed output.old output.new (list_answer result) }
{
    register::list(&spoilt(), 8, 0, 0xFFFFFFFF, 7, output)
}

pub fn save_spoilt(output: &mut [u8]) -> Result<usize, Refusal>
    ensures { save_answer result ≡ refused 13 }
{
    register::save(&spoilt(), output)
}

// check says no: were the store sound, ask would not have answered 13.
pub fn check_spoilt() -> Result<bool, Refusal>
    ensures { check_answer result ≡ accepted 0 0 }
{
    let store = spoilt();
    let _ = register::ask(&store, 1, 2);
    register::check(&store)
}

// What is done to a damaged store.
#[derive(Clone, Copy)]
pub enum Mending {
    Load,
    Fill,
}

// The image of the first panel is loaded over the damage, or its codes are filled in.
fn mend(mending: Mending) -> [u32; 148]
    ensures { HoldsFirst result }
{
    let mut store = spoilt();
    match mending {
        Mending::Load => {
            let _ = register::load(&mut store, &first_image());
        }
        Mending::Fill => {
            let _ = register::fill(&mut store, &[0, 1, 2, 60]);
        }
    }
    store
}

// 01: the bytes of the first panel's image.
fn first_image() -> [u8; 40]
    ensures { result ≡ first_image }
{
    [
        3, 3, 6, 0, 0, 0, 4, 0, 0, 0, 0, 0, 0, 0, 0, 0, 0, 0, 0, 0, 0, 0, 1, 0, 0, 0, 2, 0, 0, 0,
        60, 0, 0, 0, 3, 1, 0, 0, 0, 0,
    ]
}

// A damaged store is mended by load, and by fill: it lists the first panel.
pub fn mended(mending: Mending, output: &mut [u32]) -> Result<Found, Refusal>
    ensures { PanelListed output.old output.new (list_answer result) }
{
    register::list(&mend(mending), 0, 0, 7, 7, output)
}

// And check says yes.
pub fn mended_is_sound(mending: Mending) -> Result<bool, Refusal>
    ensures { check_answer result ≡ accepted 1 0 }
{
    register::check(&mend(mending))
}
