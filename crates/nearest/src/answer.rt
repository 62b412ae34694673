ghost use Rattle.std.specs.Prelude.{◌≤◌};
ghost use Rattle.promises.specs.Calls.{FindsNearest};
ghost use Rattle.promises.specs.Effect.{effect};
ghost use Rattle.answers.specs.Answer.{search_answer};
ghost use Rattle.bestfirst.specs.UnderWay.{UnderWay};
ghost use Rattle.nearest.specs.Ends.{SearchEnds, many_places};

use answers::{Nearest, Refusal};
use bestfirst::{AT_ROOT, Progress, Search, Searched, meet_root};
use frontier::Frontier;
use measures::lent::Register;
use measures::sizes::LARGEST_MOST;
use measures::slots::MOST_ELEMENTS;
use meeting::distance::place_of;
use store::Damaged;

// Places for the blocks met and not opened at one time: nearly every search has fewer.
const FEW_PLACES: usize = 256;

// No sound store has more blocks than 01's largest N, and before a block is opened there is room for all of its elements.
const MANY_PLACES: usize = LARGEST_MOST as usize + MOST_ELEMENTS;

// The search goes on among as many places as any store needs, with the same entries, so that no block is opened twice.
fn search_among_many<const N: usize>(
    search: &Search<'_>,
    frontier: &Frontier<N>,
    from: Progress,
) -> Result<Nearest, Damaged>
    requires { UnderWay search.now.slots.words.now search.now.slots.layout search.now.place search.now.budget frontier.now from × (N ≤ many_places) }
    ensures { SearchEnds search.now.slots.words.now search.now.slots.layout search.now.place search.now.budget result }
{
    let mut wider = Frontier::<MANY_PLACES>::empty();
    wider.copy_from(frontier);
    // as many places as there can be slots are too few on damaged words only
    match search.run(&mut wider, from)? {
        Searched::Known(nearest) => Ok(nearest),
        Searched::Full(_) => Err(Damaged),
    }
}

// The search from there, in this frontier if it has at least so many places, and on among as many as the slots need. It calls itself, so that the
// compiler keeps the many places out of every search's frame, where they would cost more than the search.
fn search_from<const N: usize>(
    search: &Search<'_>,
    frontier: &mut Frontier<N>,
    from: Progress,
    places: usize,
) -> Result<Nearest, Damaged>
    requires { UnderWay search.now.slots.words.now search.now.slots.layout search.now.place search.now.budget frontier.old from × (N ≤ many_places) }
    ensures { SearchEnds search.now.slots.words.now search.now.slots.layout search.now.place search.now.budget result }
{
    if N < places {
        return search_among_many(search, frontier, from);
    }
    match search.run(frontier, from)? {
        Searched::Known(nearest) => Ok(nearest),
        Searched::Full(progress) => {
            let needed = search.slots.layout.slots + MOST_ELEMENTS;
            if needed <= N {
                return Err(Damaged);
            }
            let nearest = search_from(search, frontier, progress, needed)?;
            Ok(nearest)
        }
    }
}

// 02, P5, from the pixel of this code on a usable store's panel.
pub fn find_nearest(register: &Register, code: u32, budget: u32) -> Result<Nearest, Refusal>
    ensures { FindsNearest register.now.words.now code budget (effect (search_answer result) register.now.words.now register.now.words.now) }
{
    if budget == 0 {
        return Err(Refusal::NoBudget);
    }
    let place = place_of(code);
    let search = Search {
        slots: register.slots(),
        place,
        budget,
    };
    let mut frontier: Frontier<FEW_PLACES> = meet_root(register.sizes.order, place);
    let nearest = search_from(&search, &mut frontier, AT_ROOT, FEW_PLACES)?;
    Ok(nearest)
}
