ghost use Rattle.std.specs.Prelude.{◌*◌, ◌<◌, ◌≡◌, length};
ghost use Rattle.building.specs.Finish.{Replaced};
ghost use Rattle.loading.specs.Filled.{pixel_of, pixels_given, ReplaceDue};
ghost use Rattle.image.specs.Parts.{entry_at};

use building::codes::build_with;
use image::parts::{byte_at, code_at};
use measures::sizes::Sizes;
use packing::empty_stack;
use packing::plan::Plan;

// The code of a pixel; a block is passed over, since the pixels make the blocks.
fn pixel_at(codes: &[u8], levels: &[u8], at: usize) -> Option<u32>
    requires { (at < length levels.now) × (length codes.now ≡ 4 * length levels.now) }
    ensures { result ≡ pixel_of (entry_at codes.now levels.now at) }
{
    if byte_at(levels, at) == 0 {
        return Some(code_at(codes, at));
    }
    None
}

// The register of these pixels, of which there are so many; only words 0 to 3 are relied on.
pub fn replace(store: &mut [u32], sizes: Sizes, codes: &[u8], levels: &[u8], number: u32)
    requires { ReplaceDue store.old sizes codes.now levels.now number }
    ensures { Replaced store.old store.new (pixels_given codes.now levels.now) }
{
    let mut stack = empty_stack();
    let pixels = (0..levels.len()).filter_map(|at| pixel_at(codes, levels, at));
    build_with(store, Plan::of(sizes), &mut stack, pixels, number);
}
