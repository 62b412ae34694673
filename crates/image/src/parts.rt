ghost use Rattle.std.specs.Prelude.{◌+◌, ◌*◌, ◌≤◌, ◌<◌, ◌≡◌, length, get_or, take, drop};
ghost use Rattle.measures.specs.Decides.{Decides};
ghost use Rattle.image.specs.Parts.{four_at, entry_number, pixel_number, codes_part, levels_part};
ghost use Rattle.image.specs.Judged.{WellFormed};

// The sizes come first: m, k, e and n. Of each entry, four bytes are its code and one its level.
pub const HEADER_BYTES: usize = 10;

pub const CODE_BYTES: usize = 4;

pub const ENTRY_BYTES: usize = CODE_BYTES + 1;

// A byte as a number.
pub fn byte_at(bytes: &[u8], at: usize) -> u32
    requires { at < length bytes.now }
    ensures { (result ≡ get_or bytes.now at 0) × (result < 256) }
{
    u32::from(bytes[at])
}

// Four bytes, the low one first.
fn four_at(bytes: &[u8], at: usize) -> u32
    requires { at + 4 ≤ length bytes.now }
    ensures { result ≡ four_at bytes.now at }
{
    u32::from_le_bytes([bytes[at], bytes[at + 1], bytes[at + 2], bytes[at + 3]])
}

// Refusal 10's condition; 10 + 5e is worked out in 64 bits.
pub fn is_well_formed(image: &[u8]) -> bool
    ensures { Decides result (WellFormed image.now) }
{
    if image.len() < HEADER_BYTES {
        return false;
    }
    image.len() == HEADER_BYTES + ENTRY_BYTES * (four_at(image, 2) as usize)
}

// The number of entries, e.
pub fn entry_number(image: &[u8]) -> usize
    requires { WellFormed image.now }
    ensures { result ≡ entry_number image.now }
{
    four_at(image, 2) as usize
}

// The number of pixels, n.
pub fn pixel_number(image: &[u8]) -> u32
    requires { WellFormed image.now }
    ensures { result ≡ pixel_number image.now }
{
    four_at(image, 6)
}

// 01: the codes are handed back as a part of the sender's bytes.
pub fn codes_part(image: &[u8]) -> &[u8]
    requires { WellFormed image.now }
    ensures { result.now ≡ codes_part image.now }
{
    let end = HEADER_BYTES + CODE_BYTES * entry_number(image);
    &image[HEADER_BYTES..end]
}

// 01: the levels are handed back as a part of the sender's bytes.
pub fn levels_part(image: &[u8]) -> &[u8]
    requires { WellFormed image.now }
    ensures { result.now ≡ levels_part image.now }
{
    let start = HEADER_BYTES + CODE_BYTES * entry_number(image);
    &image[start..]
}

// The code of the entry at this index.
pub fn code_at(codes: &[u8], at: usize) -> u32
    requires { 4 * at + 4 ≤ length codes.now }
    ensures { result ≡ four_at codes.now (4 * at) }
{
    four_at(codes, 4 * at)
}

// So many items from this place on, or as many as there are.
pub fn part_of<T>(items: &[T], from: usize, number: usize) -> &[T]
    ensures { result.now ≡ take number (drop from items.now) }
{
    let rest = &items[from.min(items.len())..];
    &rest[..number.min(rest.len())]
}
