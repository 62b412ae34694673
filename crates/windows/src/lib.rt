// The window of a call: its part on the panel between two codes, and how a pixel or a block lies to it.
#![tactic(auto)]

ghost use Rattle.measures.specs.Sizes.{ValidSizes, panel_of};
ghost use Rattle.windows.specs.Corners.{window_of, PartOf, PixelTested, SharingTested, InsideTested, LyingTested, PanelTested};

use measures::sizes::Sizes;
use morton::{X, Y, at_most, between, last_code};

// 01: both corners included.
#[derive(Clone, Copy)]
pub struct Window {
    pub x0: u32,
    pub y0: u32,
    pub x1: u32,
    pub y1: u32,
}

// The codes of a part's lowest and highest pixel: a walk compares codes, and takes none apart.
#[derive(Clone, Copy)]
pub struct Corners {
    pub first: u32,
    pub last: u32,
}

// 02, P3: the far corner is lowered to the panel's last column and row, before codes are made: a coordinate above 65,535 has none.
pub fn part_on(sizes: Sizes, window: Window) -> Option<Corners>
    requires { ValidSizes sizes }
    ensures { PartOf (panel_of sizes) (window_of window) result }
{
    let last = (1u32 << sizes.order) - 1;
    let x1 = window.x1.min(last);
    let y1 = window.y1.min(last);
    if x1 < window.x0 {
        return None;
    }
    if y1 < window.y0 {
        return None;
    }
    Some(Corners {
        first: morton::code_of(window.x0, window.y0),
        last: morton::code_of(x1, y1),
    })
}

pub fn has_pixel(corners: Corners, code: u32) -> bool
    ensures { PixelTested corners code result }
{
    between::<X>(corners.first, corners.last, code)
        && between::<Y>(corners.first, corners.last, code)
}

// A block shares a pixel with the window where each begins before the other ends, on both axes.
pub fn meets(corners: Corners, level: u32, code: u32) -> bool
    ensures { SharingTested corners level code result }
{
    let last = last_code(code, level);
    at_most::<X>(code, corners.last)
        && at_most::<Y>(code, corners.last)
        && at_most::<X>(corners.first, last)
        && at_most::<Y>(corners.first, last)
}

// 02, P4: a block lies wholly inside the window where its lowest and its highest pixel do.
pub fn lies_inside(corners: Corners, level: u32, code: u32) -> bool
    ensures { InsideTested corners level code result }
{
    let last = last_code(code, level);
    at_most::<X>(corners.first, code)
        && at_most::<Y>(corners.first, code)
        && at_most::<X>(last, corners.last)
        && at_most::<Y>(last, corners.last)
}

// How a block lies to the window.
#[derive(Clone, Copy)]
pub enum Lying {
    Apart,
    OverEdge,
    Inside,
}

pub fn lies(corners: Corners, level: u32, code: u32) -> Lying
    ensures { LyingTested corners level code result }
{
    if !meets(corners, level, code) {
        return Lying::Apart;
    }
    if lies_inside(corners, level, code) {
        return Lying::Inside;
    }
    Lying::OverEdge
}

// 02, P6: whether the window has the whole panel, so that no code needs to be made of its corners.
pub fn has_panel(sizes: Sizes, window: Window) -> bool
    requires { ValidSizes sizes }
    ensures { PanelTested sizes window result }
{
    let far = (1u32 << sizes.order) - 1;
    window.x0 == 0 && window.y0 == 0 && far <= window.x1 && far <= window.y1
}
