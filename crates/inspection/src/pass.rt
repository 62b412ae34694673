ghost use Rattle.std.specs.Prelude.{◌≤◌, ◌≡◌, eqb};
ghost use Rattle.pktree.specs.Entries.{entry};
ghost use Rattle.pktree.proofs.LocalTest.{tally};
ghost use Rattle.inspection.specs.Pass.{CanPass, PassMeets, entry_of, first_pass};

use elements::Element;
use morton::block_size;
use store::Damaged;

// What one pass over the elements of a block knows of those behind it: the first code past them, the quarter of the last one, and how many
// of them are in that quarter.
#[derive(Clone, Copy)]
pub struct Pass {
    pub from: usize,
    pub quarter: usize,
    pub met: u32,
}

// Before the first element of a block whose quarters are of this level.
pub fn first_pass(quarters: u32, code: u32) -> Pass
    requires { quarters ≤ 15 }
    ensures { result ≡ first_pass quarters code }
{
    let from = code as usize;
    Pass {
        from,
        quarter: from / block_size(quarters),
        met: 0,
    }
}

// How many elements are in the quarter of the next one, that one counted.
fn met_with(pass: Pass, quarter: usize) -> u32
    requires { pass.met ≤ 16 }
    ensures { result ≡ tally (eqb quarter pass.quarter) pass.met }
{
    if quarter == pass.quarter {
        pass.met + 1
    } else {
        1
    }
}

// One element, by its level and code: it starts past those behind it, is aligned and no larger than a quarter, and its quarter has fewer than k.
fn pass_entry(pass: Pass, k: u32, quarters: u32, level: u32, code: u32) -> Result<Pass, Damaged>
    requires { CanPass pass k quarters }
    ensures { PassMeets k quarters pass (entry level code) result }
{
    let at = code as usize;
    if at < pass.from {
        return Err(Damaged);
    }
    if quarters < level {
        return Err(Damaged);
    }
    let codes = block_size(level);
    if at % codes != 0 {
        return Err(Damaged);
    }
    let quarter = at / block_size(quarters);
    let met = met_with(pass, quarter);
    if k <= met {
        return Err(Damaged);
    }
    Ok(Pass {
        from: at + codes,
        quarter,
        met,
    })
}

// The same of an element in its slot.
pub fn pass_element(pass: Pass, k: u32, quarters: u32, element: Element) -> Result<Pass, Damaged>
    requires { CanPass pass k quarters }
    ensures { PassMeets k quarters pass (entry_of element) result }
{
    match element {
        Element::Pixel(code) => pass_entry(pass, k, quarters, 0, code),
        Element::Block(block) => pass_entry(pass, k, quarters, block.level, block.code),
    }
}
