// Refusals 3, 4 and 8, judged before a slot is looked at.
ghost use Rattle.answers.specs.Judged.{JudgedStore, JudgedPixel, JudgedWindow};

use crate::Refusal;
use measures::sizes::{Sizes, read_sizes};

// A pixel of a usable store's panel, by its code, with the store's sizes.
#[derive(Clone, Copy)]
pub struct PanelPixel {
    pub sizes: Sizes,
    pub code: u32,
}

// A usable store's sizes; or 3.
pub fn judge_store(store: &[u32]) -> Result<Sizes, Refusal>
    ensures { JudgedStore store.now result }
{
    read_sizes(store).ok_or(Refusal::NoRegister)
}

// A pixel of a usable store's panel; or 3 or 4.
pub fn judge_pixel(store: &[u32], x: u32, y: u32) -> Result<PanelPixel, Refusal>
    ensures { JudgedPixel store.now x y result }
{
    let sizes = judge_store(store)?;
    let side = 1u32 << sizes.order;
    if side <= x {
        return Err(Refusal::OffPanel);
    }
    if side <= y {
        return Err(Refusal::OffPanel);
    }
    let code = morton::code_of(x, y);
    Ok(PanelPixel { sizes, code })
}

// A usable store's sizes, beside a window whose corners are in order; or 3 or 8.
pub fn judge_window(store: &[u32], x0: u32, y0: u32, x1: u32, y1: u32) -> Result<Sizes, Refusal>
    ensures { JudgedWindow store.now x0 y0 x1 y1 result }
{
    let sizes = judge_store(store)?;
    if x1 < x0 {
        return Err(Refusal::WindowReversed);
    }
    if y1 < y0 {
        return Err(Refusal::WindowReversed);
    }
    Ok(sizes)
}
