// 01 "Panel, pixel, code", for coordinates of four bits.
ghost use Rattle.std.specs.Prelude.{◌≤◌};

// Bit i of x is bit 2i of the code, bit i of y is bit 2i+1.
pub fn code_of(x: u32, y: u32) -> u32 {
    spread(x) | (spread(y) << 1)
}

fn spread(x: u32) -> u32 {
    (x & 1) | ((x & 2) << 1) | ((x & 4) << 2) | ((x & 8) << 3)
}

// The y of a code is the x of its other bits, code >> 1.
pub fn x_of(code: u32) -> u32 {
    (code & 1) | ((code >> 1) & 2) | ((code >> 2) & 4) | ((code >> 3) & 8)
}

pub fn all_below(codes: &[u32], end: u32) -> bool {
    codes.iter().all(|code| *code < end)
}

// Strictly: each is above the one before it.
pub fn ascend(codes: &[u32]) -> bool {
    codes.windows(2).all(|pair| pair[0] < pair[1])
}

// A block of level i has side 2^i.
pub fn side_of(level: u32) -> u32
    ensures { (1 ≤ result) × (result ≤ 16) }
{
    1 << level.min(4)
}

// A block of level i has 4^i codes.
pub fn size_of(level: u32) -> u32
    ensures { (1 ≤ result) × (result ≤ 256) }
{
    1 << (2 * level.min(4))
}
