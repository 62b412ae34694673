// Codes, judged before a word is written.
ghost use Rattle.std.specs.Prelude.{◌≤◌, ◌<◌, ◌^◌};
ghost use Rattle.measures.specs.Decides.{Decides};
ghost use Rattle.pktree.specs.Lists.{Every};
ghost use Rattle.pktree.specs.PixelSet.{Ascending};

use measures::slots::wide;
use morton::block_size;

// Every code is looked at, since 4 comes before 6, also from one past the N-th.
pub fn all_on_panel(codes: &[u32], order: u32) -> bool
    requires { order ≤ 16 }
    ensures { Decides result (Every (λ c. c < 4 ^ order) codes.now) }
{
    let end = block_size(order);
    codes.iter().all(|code| wide(*code) < end)
}

pub fn ascend(codes: &[u32]) -> bool
    ensures { Decides result (Ascending 0 codes.now) }
{
    codes.is_sorted_by(|left, right| left < right)
}
