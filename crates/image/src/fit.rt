ghost use Rattle.measures.specs.Decides.{Decides};
ghost use Rattle.measures.specs.Sizes.{panel_of};
ghost use Rattle.image.specs.Judged.{WellFormed, FitsRegister};

use crate::parts::{byte_at, pixel_number};
use measures::sizes::Sizes;

// Refusal 11's condition.
pub fn fits_register(image: &[u8], sizes: Sizes) -> bool
    requires { WellFormed image.now }
    ensures { Decides result (FitsRegister (panel_of sizes) sizes.most image.now) }
{
    if byte_at(image, 0) != sizes.order {
        return false;
    }
    if byte_at(image, 1) != sizes.k {
        return false;
    }
    pixel_number(image) <= sizes.most
}
