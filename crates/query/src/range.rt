// What the window walks of count and of list are given.
ghost use Rattle.std.specs.Prelude.{◌≤◌};
ghost use Rattle.pktree.specs.Window.{Ordered};
ghost use Rattle.measures.specs.Sizes.{largest_most};
ghost use Rattle.windows.specs.Corners.{window_between};

use measures::lent::Slots;
use windows::Corners;

// The store, the window, and the most pixels (01's N).
#[derive(Clone, Copy)]
pub struct RangeQuery<'a> {
    pub slots: Slots<'a>,
    pub corners: Corners,
    pub most: u32,
    ghost ordered: { Ordered (window_between corners) },
    ghost most_to: { most ≤ largest_most },
}
