// Renumbering: the numbers that the blocks along a path carry, after a pixel comes or goes.
#![tactic(auto)]

ghost use Rattle.std.specs.Prelude.{◌≤◌, ◌<◌, ◌∷◌};
ghost use Rattle.measures.specs.Layout.{LayoutFits};
ghost use Rattle.renumbering.specs.Renumber.{ChangedNumber, Renumbered, CanRenumber, PathRenumbered, path_slots};

use descent::{Located, Path};
use measures::sizes::Layout;
use measures::slots::{NUMBER, offset, wide};

// So many numbers a word can say.
const WORD_NUMBERS: usize = 4294967296;

// The number of a block after a change at one pixel. On damaged words it wraps round: nothing overflows, and nothing is to be tested on the way.
fn changed_number(number: u32, removed: usize, inserted: usize) -> u32
    requires { (removed ≤ 1) × (inserted ≤ 1) }
    ensures { ChangedNumber number removed inserted result }
{
    ((wide(number) + WORD_NUMBERS - removed + inserted) % WORD_NUMBERS) as u32
}

// The number of the block in one slot.
fn renumber_slot(store: &mut [u32], layout: Layout, slot: usize, removed: usize, inserted: usize)
    requires { (LayoutFits layout store.old × (slot < layout.slots)) × ((removed ≤ 1) × (inserted ≤ 1)) }
    ensures { Renumbered layout.width slot removed inserted store.old store.new }
{
    let at = offset(layout, slot) + NUMBER;
    store[at] = changed_number(store[at], removed, inserted);
}

// The numbers of all blocks of the path, root first: one pixel more in each, or one less.
pub fn renumber_path(
    store: &mut [u32],
    layout: Layout,
    located: Located,
    path: &Path,
    removed: usize,
    inserted: usize,
)
    requires { CanRenumber layout store.old located path.now removed inserted }
    ensures { PathRenumbered layout (located.block.slot ∷ path_slots path.now located.depth) removed inserted store.old store.new }
{
    for entry in &path[..located.depth] {
        renumber_slot(store, layout, wide(entry.slot), removed, inserted);
    }
    renumber_slot(store, layout, wide(located.block.slot), removed, inserted);
}
