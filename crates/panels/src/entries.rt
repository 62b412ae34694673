// The entries of an image on one line, level/code, in image order.
ghost use Rattle.measures.specs.Decides.{Decides};
ghost use Rattle.image.specs.Judged.{WellFormed};

use image::parts::{CODE_BYTES, code_at, codes_part, is_well_formed, levels_part};
use std::fmt;

// It answers whether these bytes have the form of an image.
pub fn print_image(out: &mut impl fmt::Write, image: &[u8]) -> bool
    ensures { Decides result (WellFormed image.now) }
{
    if !is_well_formed(image) {
        let _ = writeln!(out, "not an image");
        return false;
    }
    let _ = write!(out, ";");
    print_columns(out, codes_part(image), levels_part(image));
    let _ = writeln!(out);
    true
}

fn print_columns(out: &mut impl fmt::Write, codes: &[u8], levels: &[u8]) {
    for (code, level) in codes.chunks_exact(CODE_BYTES).zip(levels) {
        let _ = write!(out, " {level}/{}", code_at(code, 0));
    }
}
