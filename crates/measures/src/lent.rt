// A store that is lent to be read. What a walk relies on goes with the words, and no contract repeats it.
ghost use Rattle.std.specs.Prelude.{◌<◌, ◌≡◌};
ghost use Rattle.measures.specs.Layout.{LaidOut, LayoutFits};
ghost use Rattle.measures.specs.Sizes.{UsableStore, sizes_of};
ghost use Rattle.measures.specs.Slot.{slot_part};

use crate::sizes::{Layout, Sizes, layout_of};
use crate::slots::slot_part;

// The words of a store, and where its slots lie in them.
#[derive(Clone, Copy)]
pub struct Slots<'a> {
    pub words: &'a [u32],
    pub layout: Layout,
    ghost fits: { LayoutFits layout words.now },
}

impl<'a> Slots<'a> {
    // The words of one slot.
    pub fn part(&self, slot: usize) -> &'a [u32]
        requires { slot < self.now.layout.slots }
        ensures { result.now ≡ slot_part self.now.layout.width self.now.words.now slot }
    {
        slot_part(self.words, self.layout, slot)
    }
}

// The words of a usable store, and the sizes that they say.
#[derive(Clone, Copy)]
pub struct Register<'a> {
    pub words: &'a [u32],
    pub sizes: Sizes,
    ghost usable: { UsableStore words.now },
    ghost said: { sizes ≡ sizes_of words.now },
}

impl<'a> Register<'a> {
    pub fn slots(&self) -> Slots<'a>
        ensures same { result.words ≡ self.now.words }
        ensures laid { LaidOut self.now.sizes result.layout }
    {
        Slots {
            words: self.words,
            layout: layout_of(self.sizes),
        }
    }
}
