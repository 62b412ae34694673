// A change on its way up the path, block by block, until it is at rest.
#![tactic(auto)]

ghost use Rattle.std.specs.Prelude.{◌≤◌};
ghost use Rattle.propagate.specs.Propagate.{ParentIs, CanPropagate, PropagateMeets};

use descent::{Located, Passed, Path};
use measures::slots::{MOST_ELEMENTS, wide};
use step::{Change, step};
use store::Damaged;

// A block hands up fewer than k elements, and k is at most 16; an element has two words.
const SCRATCH_WORDS: usize = 32;

// The parent of the block at this depth of the path: its slot, and the place of the element that was entered there.
// The root has none, nor has a block where the path names a place that no slot has.
fn parent_of(path: &Path, depth: usize) -> Option<Passed>
    requires { depth ≤ 16 }
    ensures { ParentIs path.now depth result }
{
    if depth == 0 {
        return None;
    }
    let parent = path[depth - 1];
    if MOST_ELEMENTS < wide(parent.place) {
        return None;
    }
    Some(parent)
}

// The change goes up the path, block by block, until it is at rest; an error says that the words cannot be a register's.
pub fn propagate(
    store: &mut [u32],
    change: Change,
    located: Located,
    path: &Path,
    removed: usize,
    inserted: usize,
) -> Result<(), Damaged>
    requires { CanPropagate change store.old located path.now removed inserted }
    ensures { PropagateMeets change located path.now removed inserted store.old store.new result }
{
    let mut scratch = [0u32; SCRATCH_WORDS];
    scratch[0] = change.code;
    let mut depth = located.depth;
    let mut slot = wide(located.block.slot);
    let mut place = located.place;
    let mut out = removed;
    let mut coming = inserted;
    while let Some(count) = step(
        store,
        change,
        depth == 0,
        slot,
        place,
        out,
        &mut scratch,
        coming,
    )? {
        let parent = parent_of(path, depth).ok_or(Damaged)?;
        depth -= 1;
        slot = wide(parent.slot);
        place = wide(parent.place);
        out = 1;
        coming = count;
    }
    Ok(())
}
