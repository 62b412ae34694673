// 01 "Program pkshow": an image is loaded into a register of its own m and k, and shown from there.
ghost use Rattle.std.specs.Prelude.{◌≤◌, length};
ghost use Rattle.answers.specs.Answer.{answer};
ghost use Rattle.pkshow.specs.Shown.{words_for400, ShowMeets};

use answers::Refusal;
use image::parts::{
    CODE_BYTES, byte_at, code_at, codes_part, entry_number, is_well_formed, levels_part,
    pixel_number,
};
use measures::slots::wide;
use std::fmt;

// The words of a store for N = 400 with any k: k = 2 needs the most.
pub const WORDS_FOR_400: usize = 7208;

// The register of the image's pixels, with N = 400.
fn open_image(store: &mut [u32], image: &[u8]) -> Result<(), Refusal>
    requires { words_for400 ≤ length store.old }
    ensures { ShowMeets store.new image.now (answer result).refusal }
{
    if image.len() < 2 {
        return Err(Refusal::NotAnImage);
    }
    if 4010 < image.len() {
        return Err(Refusal::NotAnImage);
    }
    let order = byte_at(image, 0);
    let k = byte_at(image, 1);
    register::make(store, order, k, 400)?;
    register::load(store, image)
}

// What pkshow prints of these bytes: the register's panel line and entries, or the refusal. It answers the refusal's number, whether or not it could be printed.
pub fn show(out: &mut impl fmt::Write, store: &mut [u32], image: &[u8]) -> u32
    requires { words_for400 ≤ length store.old }
    ensures { ShowMeets store.new image.now result }
{
    match open_image(store, image) {
        Ok(()) => {
            print_register(out, store);
            0
        }
        Err(refusal) => {
            let number = u32::from(refusal);
            let _ = writeln!(out, "refused {number}");
            number
        }
    }
}

// From the register, by its saved image.
fn print_register(out: &mut impl fmt::Write, store: &[u32]) {
    let mut output = [0u8; 4010];
    let Ok(length) = register::save(store, &mut output) else {
        let _ = writeln!(out, "not saved");
        return;
    };
    print_image(out, &output[..length]);
}

// The number of blocks is that of the entries without the pixels.
fn print_image(out: &mut impl fmt::Write, image: &[u8]) {
    if !is_well_formed(image) {
        return;
    }
    let order = byte_at(image, 0);
    let k = byte_at(image, 1);
    let pixels = wide(pixel_number(image));
    if let Some(blocks) = entry_number(image).checked_sub(pixels) {
        let _ = writeln!(out, "panel {order} {k} {blocks} {pixels}");
    }
    print_entries(out, codes_part(image), levels_part(image));
}

fn print_entries(out: &mut impl fmt::Write, codes: &[u8], levels: &[u8]) {
    for (code, level) in codes.chunks_exact(CODE_BYTES).zip(levels) {
        let _ = writeln!(out, "{level} {}", code_at(code, 0));
    }
}
