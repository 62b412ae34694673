ghost use Rattle.std.specs.Prelude.{◌≡◌};
ghost use Rattle.pktree.specs.Panel.{OnPanel};
ghost use Rattle.measures.specs.Sizes.{UsableStore, panel_of, sizes_of};
ghost use Rattle.promises.specs.Effect.{effect};
ghost use Rattle.promises.specs.Calls.{Marks, Clears};
ghost use Rattle.answers.specs.Answer.{answer};
ghost use Rattle.update.specs.Changed.{CanChange, ChangeMeets, disabled};
ghost use Rattle.update.specs.declared.marks.Unchanged.TheVariants as unchanged;

use answers::Refusal;
use descent::{locate, no_path};
use measures::lent::Slots;
use measures::sizes::{Sizes, layout_of};
use measures::slots::{NUMBER, wide};
use measures::words::{HEAD_WORDS, REGISTER_MARK};
use propagate::propagate;
use renumbering::renumber_path;
use step::Change;
use store::Damaged;

// The number of pixels held is the root's, and the root's slot is the first.
const PIXELS: usize = HEAD_WORDS + NUMBER;

// How a change that is not made ends. It is disallowed where the number of pixels held does not let one come, or go.
#[derive(Clone, Copy)]
pub enum Unchanged {
    Already,
    Disallowed,
    Damaged,
}

impl From<Damaged> for Unchanged {
    ghost from_gives = { λ _ r. r ≡ unchanged.Damaged };

    fn from(_damaged: Damaged) -> Unchanged {
        Unchanged::Damaged
    }
}

// Mark and clear are one change, with another number of elements in and out. Nothing is written before every refusal is decided;
// where damage was met, word 0 is left to the caller.
fn change_pixel(
    store: &mut [u32],
    sizes: Sizes,
    code: u32,
    allowed: bool,
    removed: usize,
    inserted: usize,
) -> Result<(), Unchanged>
    requires { CanChange store.old sizes code allowed removed inserted }
    ensures { ChangeMeets store.old (disabled result store.new) code allowed removed result }
{
    let layout = layout_of(sizes);
    let mut path = no_path();
    let slots = Slots {
        words: store,
        layout,
    };
    let located = locate(&slots, sizes.order, code, &mut path)?;
    if located.marked != (removed == 1) {
        return Err(Unchanged::Already);
    }
    if !allowed {
        return Err(Unchanged::Disallowed);
    }
    let change = Change {
        layout,
        k: wide(sizes.k),
        code,
    };
    renumber_path(store, layout, located, &path, removed, inserted);
    propagate(store, change, located, &path, removed, inserted)?;
    Ok(())
}

// 01's mark, where refusals 3 and 4 do not apply.
pub fn mark(store: &mut [u32], sizes: Sizes, code: u32) -> Result<(), Refusal>
    requires { (UsableStore store.old × (sizes ≡ sizes_of store.old)) × OnPanel (panel_of sizes) code }
    ensures { Marks store.old code (effect (answer result) store.old store.new) }
{
    let room = store[PIXELS] < sizes.most;
    match change_pixel(store, sizes, code, room, 0, 1) {
        Ok(()) => Ok(()),
        Err(Unchanged::Already) => Err(Refusal::AlreadyMarked),
        Err(Unchanged::Disallowed) => Err(Refusal::Full),
        Err(Unchanged::Damaged) => {
            store[REGISTER_MARK] = 0;
            Err(Refusal::StoreDamaged)
        }
    }
}

// 01's clear, where refusals 3 and 4 do not apply. A pixel that is there is counted.
pub fn clear(store: &mut [u32], sizes: Sizes, code: u32) -> Result<(), Refusal>
    requires { (UsableStore store.old × (sizes ≡ sizes_of store.old)) × OnPanel (panel_of sizes) code }
    ensures { Clears store.old code (effect (answer result) store.old store.new) }
{
    let counted = 0 < store[PIXELS];
    match change_pixel(store, sizes, code, counted, 1, 0) {
        Ok(()) => Ok(()),
        Err(Unchanged::Already) => Err(Refusal::NotMarked),
        Err(Unchanged::Disallowed | Unchanged::Damaged) => {
            store[REGISTER_MARK] = 0;
            Err(Refusal::StoreDamaged)
        }
    }
}
