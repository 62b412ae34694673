// One call each, on any words: what its caller knows without having looked at them.
ghost use Rattle.std.specs.Prelude.{min, ◌≤◌, ◌≡◌, length, ◌↔◌};
ghost use Rattle.measures.specs.Sizes.{sizes_of, UsableStore};
ghost use Rattle.image.specs.Held.{most_bytes};
ghost use Rattle.promises.specs.Effect.{effect};
ghost use Rattle.promises.specs.Calls.{asked, window_given, slots_in};
ghost use Rattle.promises.proofs.Exactly.{MakeRefusals, PixelRefusals, WindowRefusals, LoadRefusals, FillRefusals, NearestRefusals, CheckAnswers};
ghost use Rattle.promises.proofs.AnyWords.{Leaves, Bounded, PlaceBounded, SearchBounded, OutputLeft};
ghost use Rattle.answers.specs.Answer.{answer, ask_answer, search_answer, count_answer, list_answer, save_answer, check_answer};
ghost use Rattle.clients.specs.Known.{OffEveryPanel, TooMany, LargestMade, OlderLeft, BytesNeeded, FrontSaved, SavedWhole, WholeSearch, ElementAsked};

use answers::{Found, Nearest, Place, Refusal};

pub fn make(store: &mut [u32], m: u32, k: u32, most: u32) -> Result<(), Refusal>
    ensures { MakeRefusals store.old m k most (answer result) × Leaves (asked m k most) (effect (answer result) store.old store.new) }
{
    register::make(store, m, k, most)
}

pub fn mark(store: &mut [u32], x: u32, y: u32) -> Result<(), Refusal>
    ensures { PixelRefusals store.old x y (answer result) × Leaves (sizes_of store.old) (effect (answer result) store.old store.new) }
{
    register::mark(store, x, y)
}

pub fn clear(store: &mut [u32], x: u32, y: u32) -> Result<(), Refusal>
    ensures { PixelRefusals store.old x y (answer result) × Leaves (sizes_of store.old) (effect (answer result) store.old store.new) }
{
    register::clear(store, x, y)
}

pub fn load(store: &mut [u32], image: &[u8]) -> Result<(), Refusal>
    ensures { LoadRefusals store.old image.now (answer result) × Leaves (sizes_of store.old) (effect (answer result) store.old store.new) }
{
    register::load(store, image)
}

pub fn fill(store: &mut [u32], codes: &[u32]) -> Result<(), Refusal>
    ensures { FillRefusals store.old codes.now (answer result) × Leaves (sizes_of store.old) (effect (answer result) store.old store.new) }
{
    register::fill(store, codes)
}

pub fn ask(store: &[u32], x: u32, y: u32) -> Result<Place, Refusal>
    ensures { PixelRefusals store.now x y (ask_answer result) × PlaceBounded (sizes_of store.now).order (ask_answer result) }
{
    register::ask(store, x, y)
}

// 02, P8: the law of the block told, on whatever set the store holds.
pub fn ask_element(store: &[u32], x: u32, y: u32) -> Result<Place, Refusal>
    ensures { ElementAsked store.now x y (ask_answer result) }
{
    register::ask(store, x, y)
}

pub fn nearest(store: &[u32], x: u32, y: u32, budget: u32) -> Result<Nearest, Refusal>
    ensures { NearestRefusals store.now x y budget (search_answer result) × SearchBounded (min budget (slots_in store.now)) (search_answer result) }
{
    register::nearest(store, x, y, budget)
}

// 02, P5: a budget that no register can spend: the nearest of all marked pixels, or none is marked.
pub fn nearest_of_all(store: &[u32], x: u32, y: u32) -> Result<Nearest, Refusal>
    ensures { WholeSearch store.now x y (search_answer result) }
{
    register::nearest(store, x, y, 0xFFFFFFFF)
}

pub fn count(store: &[u32], x0: u32, y0: u32, x1: u32, y1: u32) -> Result<Found, Refusal>
    ensures { WindowRefusals store.now (window_given x0 y0 x1 y1) (count_answer result) × Bounded (sizes_of store.now).most (slots_in store.now) (count_answer result) }
{
    register::count(store, x0, y0, x1, y1)
}

pub fn list(
    store: &[u32],
    x0: u32,
    y0: u32,
    x1: u32,
    y1: u32,
    output: &mut [u32],
) -> Result<Found, Refusal>
    ensures { WindowRefusals store.now (window_given x0 y0 x1 y1) (list_answer result) × OutputLeft (sizes_of store.now).most (slots_in store.now) (effect (list_answer result) output.old output.new) }
{
    register::list(store, x0, y0, x1, y1, output)
}

pub fn save(store: &[u32], output: &mut [u8]) -> Result<usize, Refusal>
    ensures { (((save_answer result).refusal ≡ 3) ↔ (UsableStore store.now → ⊥)) × OutputLeft (most_bytes store.now) 0 (effect (save_answer result) output.old output.new) }
{
    register::save(store, output)
}

pub fn check(store: &[u32]) -> Result<bool, Refusal>
    ensures { CheckAnswers store.now (check_answer result) }
{
    register::check(store)
}

// A refused call changes nothing.
pub fn mark_off_panel(store: &mut [u32]) -> u32
    ensures { OffEveryPanel store.old store.new result }
{
    answers::refusal_of(register::mark(store, 65536, 0))
}

// 02, P7: one more than the largest N.
pub fn make_too_many(store: &mut [u32], m: u32, k: u32) -> u32
    ensures { TooMany store.old store.new result }
{
    answers::refusal_of(register::make(store, m, k, 24577))
}

pub fn make_largest(store: &mut [u32]) -> u32
    ensures { LargestMade store.old result }
{
    answers::refusal_of(register::make(store, 16, 16, 24576))
}

// A store that was made earlier, with a larger N.
pub fn mark_older(store: &mut [u32], x: u32, y: u32) -> u32
    ensures { OlderLeft store.old store.new result }
{
    answers::refusal_of(register::mark(store, x, y))
}

// The length that save returns, or needs.
fn length_of(saved: Result<usize, Refusal>) -> usize
    ensures { result ≡ (save_answer saved).first }
{
    match saved {
        Ok(length) => length,
        Err(Refusal::OutputTooShort { needed }) => needed,
        Err(_) => 0,
    }
}

// An output of no bytes asks for the length.
fn needed_bytes(store: &[u32]) -> usize
    ensures { BytesNeeded store.now result }
{
    let mut none = [0u8; 0];
    length_of(register::save(store, &mut none))
}

fn save_front(store: &[u32], output: &mut [u8], n: usize) -> usize
    requires { n ≤ length output.old }
    ensures { FrontSaved store.now output.old output.new n result }
{
    length_of(register::save(store, &mut output[..n]))
}

// 9 with its length, and then success with that length.
pub fn save_whole(store: &[u32], output: &mut [u8]) -> usize
    ensures { SavedWhole store.now output.old output.new result }
{
    let needed = needed_bytes(store);
    if output.len() < needed {
        return 0;
    }
    save_front(store, output, needed)
}
