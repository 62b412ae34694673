// The traversal of check: every block is opened once, in the order of the tree, and what each says of itself is compared with what is in it.
#![tactic(auto)]

ghost use Rattle.std.specs.Prelude.{◌≤◌};
ghost use Rattle.measures.specs.Sizes.{largest_most};

use elements::{Block, Element, element_at};
use inspection::pass::{first_pass, pass_element};
use measures::lent::Slots;
use measures::slots::{NUMBER, wide};
use morton::block_end;
use store::Damaged;
use store::opening::open_part;

// The numbers of blocks and of pixels seen so far.
#[derive(Clone, Copy, Default)]
pub struct Seen {
    pub blocks: u32,
    pub pixels: u32,
}

// A block as it is to be, with at least so many elements.
#[derive(Clone, Copy)]
pub struct Claim {
    pub block: Block,
    pub least: u32,
}

// What a walk is given: the slots, k, and the most pixels (01's N).
#[derive(Clone, Copy)]
pub struct Walk<'a> {
    pub slots: Slots<'a>,
    pub k: u32,
    pub most: u32,
    ghost k_from: { 1 ≤ k },
    ghost k_to: { k ≤ 16 },
    ghost most_to: { most ≤ largest_most },
}

impl<'a> Walk<'a> {
    ghost use Rattle.traversal.specs.Walk.{limits_of, CanWalk, OpenMeets, WalkMeets, CanWalkElement, WalkElementMeets, WithinLimits, PixelMeets};

    // The number of elements of the block, if one more block may be looked at and this one says of itself what is claimed.
    fn open_block(&self, claim: Claim, seen: Seen) -> Result<usize, Damaged>
        requires { CanWalk (limits_of self.now) claim seen }
        ensures { OpenMeets (limits_of self.now) self.now.slots.words.now claim seen result }
    {
        if self.slots.layout.slots <= wide(seen.blocks) {
            return Err(Damaged);
        }
        let block = claim.block;
        let part = self.slots.part(wide(block.slot));
        let count = open_part(part, block.level, block.code)?;
        if count < wide(claim.least) {
            return Err(Damaged);
        }
        Ok(count)
    }

    // The block that is claimed, with all that is inside it; its slot says how many pixels these are.
    #[cycle(walk_block_walk_element)]
    pub fn walk_block(&self, claim: Claim, seen: Seen) -> Result<Seen, Damaged>
        requires { CanWalk (limits_of self.now) claim seen }
        ensures { WalkMeets (limits_of self.now) self.now.slots.words.now claim seen result }
    {
        let count = self.open_block(claim, seen)?;
        let block = claim.block;
        let part = self.slots.part(wide(block.slot));
        let quarters = block.level - 1;
        let mut pass = first_pass(quarters, block.code);
        let mut seen_now = Seen {
            blocks: seen.blocks + 1,
            ..seen
        };
        for i in 0..count {
            let element = element_at(part, i);
            pass = pass_element(pass, self.k, quarters, element)?;
            seen_now = self.walk_element(element, block.level, seen_now)?;
        }
        if block_end(block.level, block.code as usize) < pass.from {
            return Err(Damaged);
        }
        if part[NUMBER] != seen_now.pixels - seen.pixels {
            return Err(Damaged);
        }
        Ok(seen_now)
    }

    // One pixel more, if it may be.
    fn see_pixel(&self, seen: Seen) -> Result<Seen, Damaged>
        requires { WithinLimits (limits_of self.now) seen }
        ensures { PixelMeets (limits_of self.now) seen result }
    {
        if self.most <= seen.pixels {
            return Err(Damaged);
        }
        Ok(Seen {
            pixels: seen.pixels + 1,
            ..seen
        })
    }

    // One element of a block of this level: a pixel is counted, a block is walked.
    #[cycle(walk_block_walk_element)]
    fn walk_element(&self, element: Element, level: u32, seen: Seen) -> Result<Seen, Damaged>
        requires { CanWalkElement (limits_of self.now) element level seen }
        ensures { WalkElementMeets (limits_of self.now) self.now.slots.words.now element seen result }
    {
        match element {
            Element::Pixel(_) => self.see_pixel(seen),
            Element::Block(block) => {
                if block.level < 1 {
                    return Err(Damaged);
                }
                if self.slots.layout.slots <= wide(block.slot) {
                    return Err(Damaged);
                }
                let claim = Claim {
                    block,
                    least: self.k,
                };
                self.walk_block(claim, seen)
            }
        }
    }
}
