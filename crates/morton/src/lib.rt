#![tactic(auto)]

ghost use Rattle.std.specs.Prelude.{◌≡◌, ℕ, ◌+◌, ◌*◌, ◌/◌, ◌^◌, ◌<◌, ◌≤◌, nat_le};
ghost use Rattle.morton.specs.Axis.{gather_below, odd_spread_ascends, spread_ascends};
ghost use Rattle.morton.specs.Code.{spread_bits, gather_bits, code_of, x_of, y_of};
ghost use Rattle.morton.specs.Coordinate.{Ascends, Between, Coordinate, largest_side};
ghost use Rattle.morton.specs.CommonLevel.{CommonLevel};
ghost use Rattle.morton.specs.LastCode.{LastCode};

use std::num::{wrapping_add_u32, wrapping_sub_u32};

// Each bit of a coordinate moves to twice its place: four halvings of the fields, as 01's last section asks.
fn spread(x: u32) -> u32
    requires { x < largest_side }
    ensures { result ≡ spread_bits 16 x }
{
    let a = (x | (x << 8)) & 0x00ff_00ff;
    let b = (a | (a << 4)) & 0x0f0f_0f0f;
    let c = (b | (b << 2)) & 0x3333_3333;
    (c | (c << 1)) & 0x5555_5555
}

// The way back: the bits at even places close up again.
fn gather(code: u32) -> u32
    ensures { Coordinate (gather_bits 16 code) result }
{
    let a = code & 0x5555_5555;
    let b = (a | (a >> 1)) & 0x3333_3333;
    let c = (b | (b >> 2)) & 0x0f0f_0f0f;
    let d = (c | (c >> 4)) & 0x00ff_00ff;
    (d | (d >> 8)) & 0x0000_ffff
}

pub fn code_of(x: u32, y: u32) -> u32
    requires { (x < largest_side) × (y < largest_side) }
    ensures { result ≡ code_of x y }
{
    spread(x) | (spread(y) << 1)
}

pub fn x_of(code: u32) -> u32
    ensures { Coordinate (x_of code) result }
{
    gather(code)
}

pub fn y_of(code: u32) -> u32
    ensures { Coordinate (y_of code) result }
{
    gather(code >> 1)
}

// Whether n lies from first to last, both included, by one comparison: what is before first wraps past last.
fn is_between(first: u32, last: u32, n: u32) -> bool
    ensures { Between first last n result }
{
    wrapping_sub_u32(n, first) <= wrapping_sub_u32(last, first)
}

// An axis of the panel: coordinates on it are compared in their codes, since the bits that one has there ascend as it does.
pub trait Axis {
    ghost coordinate: { ℕ → ℕ };

    ghost spread: { ℕ → ℕ };

    // The bits of a code that are the coordinate's.
    fn bits(code: u32) -> u32
        ensures { result ≡ spread (coordinate code) };

    ghost ascends: { Ascends 16 spread };

    ghost below: { (code : ℕ) → coordinate code < largest_side };
}

pub struct X;

impl Axis for X {
    ghost coordinate = { x_of };

    ghost spread = { spread_bits 16 };

    fn bits(code: u32) -> u32 {
        code & 0x5555_5555
    }

    ghost ascends = { spread_ascends 16 };

    ghost below = { λ code. gather_below 16 code };
}

pub struct Y;

impl Axis for Y {
    ghost coordinate = { y_of };

    ghost spread = { λ n. spread_bits 16 n * 2 };

    fn bits(code: u32) -> u32 {
        code & 0xaaaa_aaaa
    }

    ghost ascends = { odd_spread_ascends 16 };

    ghost below = { λ code. gather_below 16 (code / 2) };
}

pub fn between<A: Axis>(first: u32, last: u32, code: u32) -> bool
    ensures { Between (A.coordinate first) (A.coordinate last) (A.coordinate code) result }
{
    is_between(A::bits(first), A::bits(last), A::bits(code))
}

// Where a block may lie on either side of a window no bounds are in order, which the test above asks for.
pub fn at_most<A: Axis>(a: u32, b: u32) -> bool
    ensures { result ≡ nat_le (A.coordinate a) (A.coordinate b) }
{
    A::bits(a) <= A::bits(b)
}

// The last code of the block of this level with this code: all low bits are set, at level 16 all 32.
pub fn last_code(code: u32, level: u32) -> u32
    ensures { LastCode level code result }
{
    wrapping_add_u32(code, 0xffff_ffff >> ((32 - 2 * (level % 16)) % 32))
}

// How many codes a block of this level has: 4^16 is more than 32 bits hold.
pub fn block_size(level: u32) -> usize
    requires { level ≤ 16 }
    ensures { result ≡ 4 ^ level }
{
    1usize << (2 * level)
}

// The first code past a block.
pub fn block_end(level: u32, code: usize) -> usize
    requires { (level ≤ 16) × (code ≤ 4294967296) }
    ensures { result ≡ code + 4 ^ level }
{
    code + block_size(level)
}

// Which block of this level, in ascending order, a code lies in: its low bits shifted out.
pub fn block_index(code: u32, level: u32) -> u32
    requires { level ≤ 15 }
    ensures { result ≡ code / 4 ^ level }
{
    code >> (2 * level)
}

// The code of the block of this level around a code: its low bits cleared.
pub fn block_around(code: u32, level: u32) -> u32
    requires { level ≤ 15 }
    ensures { result ≡ code / 4 ^ level * 4 ^ level }
{
    block_index(code, level) << (2 * level)
}

// 01: the highest bit in which two codes differ gives the smallest block that holds both.
pub fn common_level(a: u32, b: u32) -> u32
    ensures { CommonLevel a b result }
{
    (32 - u32::leading_zeros(a ^ b) + 1) / 2
}
