ghost use Rattle.saving.specs.Numbers.{NumbersAnswer};

use measures::lent::Register;
use measures::slots::{NUMBER, wide};
use measures::words::BLOCKS;
use store::Damaged;
use store::opening::open_part;

#[derive(Clone, Copy)]
pub struct Numbers {
    pub pixels: u32,
    pub blocks: u32,
}

// The root carries the number of pixels, and a word says that of the blocks.
pub fn read_numbers(register: &Register) -> Result<Numbers, Damaged>
    ensures { NumbersAnswer register.now.words.now result }
{
    let sizes = register.sizes;
    let slots = register.slots();
    let root = slots.part(0);
    open_part(root, sizes.order, 0)?;
    let pixels = root[NUMBER];
    if sizes.most < pixels {
        return Err(Damaged);
    }
    let blocks = register.words[BLOCKS];
    let layout = slots.layout;
    if layout.slots < wide(blocks) {
        return Err(Damaged);
    }
    Ok(Numbers { pixels, blocks })
}
