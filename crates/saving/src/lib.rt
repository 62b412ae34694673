// Saving: a walk over every block, which writes the image. Its length is known before: 01's refusal 9 leaves the output as it was.
#![tactic(auto)]

ghost use Rattle.std.specs.Prelude.{◌≡◌, ◌+◌, ◌*◌, ◌<◌, ◌≤◌, length};
ghost use Rattle.saving.specs.Saving.{PixelPut, CanSave, BlockSaved, ImageWritten, FrontWritten, places_of, reached};
ghost use Rattle.promises.specs.Effect.{effect};
ghost use Rattle.promises.specs.Calls.{Saves};
ghost use Rattle.answers.specs.Answer.{save_answer};
ghost use Rattle.pktree.specs.Image.{header_length};

use crate::numbers::{Numbers, read_numbers};
use answers::Refusal;
use elements::{Block, Element, element_at};
use image::parts::{ENTRY_BYTES, HEADER_BYTES};
use image::writing::{put_entry, put_header};
use measures::lent::{Register, Slots};
use measures::slots::{LEVEL_ABOVE_ROOT, wide};
use store::Damaged;
use walks::enter;

pub mod numbers;

// The store, and how many entries the image has.
#[derive(Clone, Copy)]
pub struct ImageWalk<'a> {
    pub slots: Slots<'a>,
    pub entries: usize,
}

// How far a walk has come: the index of the next entry, and how many blocks may still be entered.
#[derive(Clone, Copy)]
pub struct Progress {
    pub next: usize,
    pub left: u32,
}

// A pixel's entry, at level 0; no room for it is damage. The answer is the index of the next one.
fn save_pixel(output: &mut [u8], entries: usize, at: usize, code: u32) -> Result<usize, Damaged>
    requires { header_length + 5 * entries ≤ length output.old }
    ensures { PixelPut entries code output.old output.new at result }
{
    if entries <= at {
        return Err(Damaged);
    }
    put_entry(output, entries, at, 0, code);
    Ok(at + 1)
}

// No further block is entered, and the next index is past the last entry.
fn stop(entries: usize, progress: &mut Progress) -> Damaged
    requires { entries + 1 < 18446744073709551616 }
    ensures { (progress.new.next ≡ entries + 1) × (progress.new.left ≡ 0) }
{
    progress.next = entries + 1;
    progress.left = 0;
    Damaged
}

// The entries of the block in this slot, an element of a block of level `above`: its own, then those of its elements.
// Whatever the words are, no more than `left` slots are opened: each block that is entered lowers it, and after one that is not it is 0.
fn save_block(
    saving: &ImageWalk,
    above: u32,
    slot: u32,
    level: u32,
    code: u32,
    output: &mut [u8],
    progress: &mut Progress,
) -> Result<(), Damaged>
    requires { CanSave (places_of saving.now) above output.old }
    ensures { BlockSaved (places_of saving.now) saving.now.slots.words.now above slot level code (reached output.old progress.old) (reached output.new progress.new) result }
{
    let entries = saving.entries;
    if progress.left < 1 {
        return Err(stop(entries, progress));
    }
    let block = Block { slot, level, code };
    let Ok(count) = enter(&saving.slots, above, block) else {
        return Err(stop(entries, progress));
    };
    let at = progress.next;
    if entries <= at {
        return Err(stop(entries, progress));
    }
    let part = saving.slots.part(wide(slot));
    put_entry(output, entries, at, level, code);
    progress.left -= 1;
    let mut next = at + 1;
    for i in 0..count {
        match element_at(part, i) {
            Element::Pixel(c) => next = save_pixel(output, entries, next, c)?,
            Element::Block(b) => {
                progress.next = next;
                save_block(saving, level, b.slot, b.level, b.code, output, progress)?;
                next = progress.next;
            }
        }
    }
    progress.next = next;
    Ok(())
}

// The header and the entries, into an output of just the image's length; the index past the last entry.
fn write_image(register: &Register, numbers: Numbers, output: &mut [u8]) -> Result<usize, Damaged>
    requires { (header_length + 5 * (numbers.pixels + numbers.blocks) ≤ length output.old) × (numbers.pixels + numbers.blocks < 4294967296) }
    ensures { ImageWritten register.now.sizes numbers.pixels numbers.blocks register.now.words.now output.old output.new result }
{
    let Numbers { pixels, blocks } = numbers;
    let sizes = register.sizes;
    put_header(output, sizes.order, sizes.k, pixels + blocks, pixels);
    let saving = ImageWalk {
        slots: register.slots(),
        entries: wide(pixels) + wide(blocks),
    };
    let mut progress = Progress {
        next: 0,
        left: blocks,
    };
    save_block(
        &saving,
        LEVEL_ABOVE_ROOT,
        0,
        sizes.order,
        0,
        output,
        &mut progress,
    )?;
    Ok(progress.next)
}

// Into the first n bytes; those past them are not lent.
fn write_front(
    register: &Register,
    numbers: Numbers,
    output: &mut [u8],
    n: usize,
) -> Result<usize, Damaged>
    requires { ((header_length + 5 * (numbers.pixels + numbers.blocks) ≤ n) × (n ≤ length output.old)) × (numbers.pixels + numbers.blocks < 4294967296) }
    ensures { FrontWritten register.now.sizes numbers.pixels numbers.blocks n register.now.words.now output.old output.new result }
{
    write_image(register, numbers, &mut output[..n])
}

// 01's save, where refusal 3 does not apply: the number of entries is read, then a walk writes each once and finds as many.
pub fn save(register: &Register, output: &mut [u8]) -> Result<usize, Refusal>
    ensures { Saves register.now.words.now (effect (save_answer result) output.old output.new) }
{
    let numbers = read_numbers(register)?;
    let entries = wide(numbers.pixels) + wide(numbers.blocks);
    let needed = HEADER_BYTES + ENTRY_BYTES * entries;
    if output.len() < needed {
        return Err(Refusal::OutputTooShort { needed });
    }
    let last = write_front(register, numbers, output, needed)?;
    if last != entries {
        return Err(Refusal::StoreDamaged);
    }
    Ok(needed)
}
