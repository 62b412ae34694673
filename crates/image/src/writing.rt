ghost use Rattle.std.specs.Prelude.{◌+◌, ◌*◌, ◌≤◌, ◌<◌, ◌≡◌, length};
ghost use Rattle.pktree.specs.Image.{header_length};
ghost use Rattle.image.specs.Writing.{put_four, put_entry, HeaderPut};

use crate::parts::{CODE_BYTES, HEADER_BYTES};

// Four bytes, the low one first.
fn put_four(output: &mut [u8], at: usize, value: u32)
    requires { at + 4 ≤ length output.old }
    ensures { output.new ≡ put_four output.old at value }
{
    output[at..at + 4].copy_from_slice(&value.to_le_bytes());
}

// Entry `at` of `entries`: its code in the first array, its level in the second.
pub fn put_entry(output: &mut [u8], entries: usize, at: usize, level: u32, code: u32)
    requires { (header_length + 5 * entries ≤ length output.old) × ((at < entries) × (level ≤ 16)) }
    ensures { output.new ≡ put_entry entries at output.old level code }
{
    put_four(output, HEADER_BYTES + CODE_BYTES * at, code);
    output[HEADER_BYTES + CODE_BYTES * entries + at] = level as u8;
}

// The sizes at the head of an image.
pub fn put_header(output: &mut [u8], order: u32, k: u32, entries: u32, pixels: u32)
    requires { (header_length ≤ length output.old) × ((order ≤ 16) × (k ≤ 16)) }
    ensures { HeaderPut output.old order k entries pixels output.new }
{
    output[0] = order as u8;
    output[1] = k as u8;
    put_four(output, 2, entries);
    put_four(output, 6, pixels);
}
