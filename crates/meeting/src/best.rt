ghost use Rattle.std.specs.Prelude.{◌≤◌, length};
ghost use Rattle.measures.specs.Slot.{element_index};
ghost use Rattle.meeting.specs.Best.{AfterPixel, AfterElement, AfterElements};

use crate::distance::pixel_distance;
use crate::place::Place;
use elements::{Element, element_at};

// More than any squared distance.
pub const BEYOND: u64 = 8589934592;

// The nearest pixel so far: beyond every distance while there is none, so that the first one is nearer.
#[derive(Clone, Copy)]
pub struct Best {
    pub distance: u64,
    pub code: u32,
}

// No pixel found yet.
pub const NOTHING: Best = Best {
    distance: BEYOND,
    code: 0,
};

fn after_pixel(place: Place, best: Best, code: u32) -> Best
    ensures { AfterPixel place best code result }
{
    let distance = pixel_distance(place, code);
    if best.distance < distance {
        return best;
    }
    if distance < best.distance {
        return Best { distance, code };
    }
    if code < best.code {
        return Best { distance, code };
    }
    best
}

fn after_element(place: Place, best: Best, element: Element) -> Best
    ensures { AfterElement place best element result }
{
    let Element::Pixel(code) = element else {
        return best;
    };
    after_pixel(place, best, code)
}

// The nearest pixel after the elements of one block.
pub fn after_elements(place: Place, best: Best, part: &[u32], count: usize) -> Best
    requires { element_index count ≤ length part.now }
    ensures { AfterElements place best part.now count result }
{
    let mut nearest = best;
    for i in 0..count {
        nearest = after_element(place, nearest, element_at(part, i));
    }
    nearest
}
