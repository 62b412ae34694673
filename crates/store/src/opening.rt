ghost use Rattle.std.specs.Prelude.{◌≤◌, length};
ghost use Rattle.store.specs.Opening.{Opened};
ghost use Rattle.measures.specs.Layout.{widest_slot};
ghost use Rattle.measures.specs.Slot.{slot_head};

use crate::Damaged;
use measures::slots::{CODE, COUNT, LEVEL, SLOT_HEAD, wide};

// A block is opened: its slot must say what its parent says of it, and its elements, so many, must lie in the slot.
pub fn open_part(part: &[u32], level: u32, code: u32) -> Result<usize, Damaged>
    requires { (slot_head ≤ length part.now) × (length part.now ≤ widest_slot) }
    ensures { Opened part.now level code result }
{
    if part[LEVEL] != level {
        return Err(Damaged);
    }
    if part[CODE] != code {
        return Err(Damaged);
    }
    let count = wide(part[COUNT]);
    if (part.len() - SLOT_HEAD) / 2 < count {
        return Err(Damaged);
    }
    Ok(count)
}
