// Listing: the pixels of a window are counted, and then written where the output has room for them.
#![tactic(auto)]

ghost use Rattle.measures.specs.Sizes.{panel_of};
ghost use Rattle.promises.specs.Effect.{effect};
ghost use Rattle.promises.specs.Calls as calls;
ghost use Rattle.answers.specs.Answer.{list_answer};
ghost use Rattle.windows.specs.Corners.{window_of, window_between, PartCorners};
ghost use Rattle.listing.specs.Counted.{CountedBefore};

use answers::{Found, Refusal};
use collecting::list_root;
use measures::lent::Register;
use measures::slots::wide;
use query::count::count_part;
use query::range::RangeQuery;
use query::walk::within;
use windows::{Corners, Window, part_on};

// So many pixels were counted in the part between these corners: they are written, where the output has room for them. Another number of
// pixels met than the blocks say is damage.
fn list_counted(
    register: &Register,
    corners: Corners,
    output: &mut [u32],
    found: u32,
) -> Result<Found, Refusal>
    requires { PartCorners (panel_of register.now.sizes) corners × CountedBefore register.now.words.now (window_between corners) found }
    ensures { calls.ListsIn register.now.words.now (window_between corners) (effect (list_answer result) output.old output.new) }
{
    let n = wide(found);
    if output.len() < n {
        return Err(Refusal::OutputTooShort { needed: n });
    }
    let sizes = register.sizes;
    let range = RangeQuery {
        slots: register.slots(),
        corners,
        most: sizes.most,
    };
    let sum = list_root(&range, sizes.order, output, n)?;
    if sum.found != found {
        return Err(Refusal::StoreDamaged);
    }
    let opened = within(range.slots.layout, range.most, sum)?.opened;
    Ok(Found { found, opened })
}

// 01's list of the window's part on the panel, where refusal 3 does not apply: it counts first, so that nothing is written to an output that is too short.
pub fn list(register: &Register, window: Window, output: &mut [u32]) -> Result<Found, Refusal>
    ensures { calls.Lists register.now.words.now (window_of window) (effect (list_answer result) output.old output.new) }
{
    let Some(corners) = part_on(register.sizes, window) else {
        return Ok(Found {
            found: 0,
            opened: 0,
        });
    };
    let found = count_part(register, corners)?.found;
    list_counted(register, corners, output, found)
}
