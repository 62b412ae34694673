ghost use Rattle.std.specs.Prelude.{◌≡◌};
ghost use Rattle.measures.specs.Sizes.{UsableStore, sizes_of};
ghost use Rattle.promises.specs.Effect.{effect};
ghost use Rattle.promises.specs.Calls.{Loads};
ghost use Rattle.answers.specs.Answer.{answer};

use crate::fill::replace;
use answers::Refusal;
use image::fit::fits_register;
use image::parts::{codes_part, is_well_formed, levels_part, pixel_number};
use measures::sizes::Sizes;
use reader::is_image_of_some;

// 01's load, where refusal 3 does not apply. The image is judged whole before a word is written; a damaged store is mended.
pub fn load(store: &mut [u32], sizes: Sizes, image: &[u8]) -> Result<(), Refusal>
    requires { UsableStore store.old × (sizes ≡ sizes_of store.old) }
    ensures { Loads store.old image.now (effect (answer result) store.old store.new) }
{
    if !is_well_formed(image) {
        return Err(Refusal::NotAnImage);
    }
    if !fits_register(image, sizes) {
        return Err(Refusal::ImageUnlike);
    }
    if !is_image_of_some(image, sizes.order, sizes.k) {
        return Err(Refusal::ImageDamaged);
    }
    let number = pixel_number(image);
    replace(store, sizes, codes_part(image), levels_part(image), number);
    Ok(())
}
