ghost use Rattle.std.specs.Prelude.{◌+◌, ◌*◌, ◌≤◌, ◌<◌, ◌≡◌, length};
ghost use Rattle.measures.specs.Decides.{Decides};
ghost use Rattle.measures.specs.Sizes.{ValidSizes, store_words, ReadSizes, WroteSizes};
ghost use Rattle.measures.specs.Layout.{LaidOut, LayoutWithin, store_end};

use crate::slots::SLOT_HEAD;
use crate::words::HEAD_WORDS;

// 02, P7: the largest N, in this one place.
pub const LARGEST_MOST: u32 = 24576;

// 01: word 0 of every register.
const MARK: u32 = 0x504B0001;

// m, k and N of 01.
#[derive(Clone, Copy)]
pub struct Sizes {
    pub order: u32,
    pub k: u32,
    pub most: u32,
}

// Where the slots lie: their number, and the words of each.
#[derive(Clone, Copy)]
pub struct Layout {
    pub width: usize,
    pub slots: usize,
}

pub fn within_limits(sizes: Sizes) -> bool
    ensures { Decides result (ValidSizes sizes) }
{
    if sizes.order < 1 {
        return false;
    }
    if 16 < sizes.order {
        return false;
    }
    if sizes.k < 2 {
        return false;
    }
    if 16 < sizes.k {
        return false;
    }
    if sizes.most < 1 {
        return false;
    }
    sizes.most <= LARGEST_MOST
}

pub fn layout_of(sizes: Sizes) -> Layout
    requires { ValidSizes sizes }
    ensures { LaidOut sizes result }
{
    let k = sizes.k as usize;
    let most = sizes.most as usize;
    Layout {
        width: SLOT_HEAD + 10 * (k - 1),
        slots: 1 + (most - 1) / (k - 1),
    }
}

// The first word past the slots: 01's formula.
pub fn store_end(layout: Layout) -> usize
    requires { LayoutWithin layout }
    ensures { result ≡ store_end layout }
{
    HEAD_WORDS + layout.slots * layout.width
}

// The one place that judges words 0 to 3 and the length; none for refusal 3.
pub fn read_sizes(store: &[u32]) -> Option<Sizes>
    ensures { ReadSizes store.now result }
{
    if store.len() < HEAD_WORDS {
        return None;
    }
    if store[0] != MARK {
        return None;
    }
    let sizes = Sizes {
        order: store[1],
        k: store[2],
        most: store[3],
    };
    if !within_limits(sizes) {
        return None;
    }
    if store.len() < store_end(layout_of(sizes)) {
        return None;
    }
    Some(sizes)
}

// Words 0 to 3, for a store that is long enough.
pub fn write_sizes(store: &mut [u32], sizes: Sizes)
    requires { ValidSizes sizes × (store_words sizes ≤ length store.old) }
    ensures { WroteSizes sizes store.old store.new }
{
    store[0] = MARK;
    store[1] = sizes.order;
    store[2] = sizes.k;
    store[3] = sizes.most;
}
