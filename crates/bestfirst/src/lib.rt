// The search on a store, best first: of the blocks that it has met, the nearest is opened next.
#![tactic(auto)]

ghost use Rattle.std.specs.Prelude.{◌+◌, ◌≤◌, length};
ghost use Rattle.measures.specs.Layout.{LaidOut, most_elements};
ghost use Rattle.measures.specs.Sizes.{sizes_of};
ghost use Rattle.bestfirst.specs.Turns.{TurnMeets};
ghost use Rattle.bestfirst.specs.UnderWay.{UnderWay, RootMet};
ghost use Rattle.bestfirst.specs.Searches.{DistanceShown, PixelShown, Stated, SearchMeets};

use answers::{NearPixel, Nearest};
use elements::{Block, TAG_SLOTS};
use frontier::{Entry, Frontier};
use measures::lent::Slots;
use measures::slots::{LEVEL_ABOVE_ROOT, MOST_ELEMENTS, wide};
use meeting::best::{BEYOND, Best, NOTHING, after_elements};
use meeting::blocks::{KEY_CODES, key_of, meet_blocks, tag_of};
use meeting::distance::block_distance;
use meeting::place::Place;
use query::walk::open_next;
use store::Damaged;

// How far a search is, beside the blocks met and not opened: those opened, and the nearest pixel.
#[derive(Clone, Copy)]
pub struct Progress {
    pub opened: u32,
    pub best: Best,
}

// How far a search is where it begins.
pub const AT_ROOT: Progress = Progress {
    opened: 0,
    best: NOTHING,
};

// The search ended; or it stopped for want of room, and can go on from there.
#[derive(Clone, Copy)]
pub enum Searched {
    Known(Nearest),
    Full(Progress),
}

// Zero where nothing was found.
fn distance_shown(distance: u64) -> u64
    ensures { DistanceShown distance result }
{
    if distance < BEYOND { distance } else { 0 }
}

// None where nothing was found.
fn pixel_shown(best: Best) -> Option<NearPixel>
    ensures { PixelShown best result }
{
    if best.distance < BEYOND {
        return Some(NearPixel {
            code: best.code,
            distance: best.distance,
        });
    }
    None
}

fn known(best: Best, opened: u32, limit: u64, complete: bool) -> Searched
    ensures { Stated best opened limit complete result }
{
    Searched::Known(Nearest {
        pixel: pixel_shown(best),
        opened,
        limit,
        complete,
    })
}

// A search begins with the root alone.
pub fn meet_root<const N: usize>(order: u32, place: Place) -> Frontier<N>
    requires { (order ≤ 16) × (1 ≤ N) }
    ensures { RootMet order place result }
{
    let to_root = block_distance(place, order, 0);
    Frontier::starting_at(Entry {
        key: key_of(to_root, 0),
        tag: tag_of(0, order),
    })
}

// In which store, from where, and how many blocks may be opened.
#[derive(Clone, Copy)]
pub struct Search<'a> {
    pub slots: Slots<'a>,
    pub place: Place,
    pub budget: u32,
    ghost laid: { LaidOut (sizes_of slots.words.now) slots.layout },
}

impl<'a> Search<'a> {
    // One block opened: the nearest pixel after it. There is room for all of its elements.
    fn open_block<const N: usize>(
        &self,
        next: Entry,
        opened: u32,
        best: Best,
        frontier: &mut Frontier<N>,
    ) -> Result<Best, Damaged>
        requires { length frontier.old + most_elements ≤ N }
        ensures { TurnMeets self.now.slots.words.now self.now.slots.layout self.now.place next opened best frontier.old frontier.new result }
    {
        let slot = next.tag % TAG_SLOTS;
        let level = next.tag / TAG_SLOTS;
        let code = (next.key % KEY_CODES * 4) as u32;
        let block = Block { slot, level, code };
        let count = open_next(&self.slots, LEVEL_ABOVE_ROOT, block, opened)?;
        let part = self.slots.part(wide(slot));
        let nearest = after_elements(self.place, best, part, count);
        meet_blocks(part, count, level, self.place, nearest.distance, frontier)?;
        Ok(nearest)
    }

    // The search goes on from there, until it ends or there may be no room for the elements of the next block.
    pub fn run<const N: usize>(
        &self,
        frontier: &mut Frontier<N>,
        from: Progress,
    ) -> Result<Searched, Damaged>
        requires { UnderWay self.now.slots.words.now self.now.slots.layout self.now.place self.now.budget frontier.old from }
        ensures { SearchMeets self.now.slots.words.now self.now.slots.layout self.now.place self.now.budget N frontier.new result }
    {
        let mut opened = from.opened;
        let mut best = from.best;
        while 0 < frontier.len() {
            if N - frontier.len() < MOST_ELEMENTS {
                return Ok(Searched::Full(Progress { opened, best }));
            }
            let next = frontier.take_least();
            let distance = next.key / KEY_CODES;
            if best.distance < distance {
                return Ok(known(best, opened, best.distance, true));
            }
            if self.budget <= opened {
                return Ok(known(best, opened, distance, false));
            }
            best = self.open_block(next, opened, best, frontier)?;
            opened += 1;
        }
        Ok(known(best, opened, distance_shown(best.distance), true))
    }
}
