ghost use Rattle.std.specs.Prelude.{◌≤◌, ◌<◌};
ghost use Rattle.morton.specs.Coordinate.{Coordinate, largest_side};
ghost use Rattle.searching.specs.Distance.{apart, clamped};
ghost use Rattle.meeting.specs.Place.{PlaceOf, Squared, ToPixel, ToBlock};

use crate::place::Place;

pub fn place_of(code: u32) -> Place
    ensures { PlaceOf code result }
{
    Place {
        x: morton::x_of(code),
        y: morton::y_of(code),
    }
}

// How far a coordinate is from the nearest one of a side.
fn gap(from: u32, side: u32, a: u32) -> u32
    requires { (from < largest_side) × (1 ≤ side) × (side ≤ largest_side) × (a < largest_side) }
    ensures { Coordinate (apart a (clamped from side a)) result }
{
    a.abs_diff(a.clamp(from, from + side - 1))
}

fn squared(dx: u32, dy: u32) -> u64
    requires { (dx < largest_side) × (dy < largest_side) }
    ensures { Squared dx dy result }
{
    let x = u64::from(dx);
    let y = u64::from(dy);
    x * x + y * y
}

pub fn pixel_distance(place: Place, code: u32) -> u64
    ensures { ToPixel place code result }
{
    let dx = place.x.abs_diff(morton::x_of(code));
    let dy = place.y.abs_diff(morton::y_of(code));
    squared(dx, dy)
}

pub fn block_distance(place: Place, level: u32, code: u32) -> u64
    requires { level ≤ 16 }
    ensures { ToBlock place level code result }
{
    let side = 1u32 << level;
    let dx = gap(morton::x_of(code), side, place.x);
    let dy = gap(morton::y_of(code), side, place.y);
    squared(dx, dy)
}
