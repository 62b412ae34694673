// The words of a list of calls, as history reads them, drawn at random.
ghost use Rattle.std.specs.Prelude.{◌<◌, ◌≤◌};

// The calls by their numbers in a script.
#[derive(Clone, Copy)]
enum Call {
    Mark = 0,
    Clear = 1,
    Ask = 2,
    List = 4,
    Save = 5,
    Load = 6,
    Fill = 7,
    Nearest = 8,
}

fn scaled(x: u32) -> u32 {
    ((x as u64) * 2146121005 % 4294967296) as u32
}

fn scrambled(x: u32) -> u32 {
    let a = scaled(x ^ (x >> 16));
    let b = scaled(a ^ (a >> 15));
    b ^ (b >> 16)
}

// A number below 16, another for each place.
fn below_16(seed: u32, place: u32) -> u32
    ensures { result < 16 }
{
    scrambled(scrambled(seed).wrapping_add(place)) % 16
}

// mark more often than clear, then nearest, fill, ask, list, save and load.
fn call_drawn(seed: u32, call: u32) -> Call {
    match below_16(seed, call) {
        0..=6 => Call::Mark,
        7 => Call::Nearest,
        8 => Call::Fill,
        9..=11 => Call::Clear,
        12 => Call::Ask,
        13 => Call::List,
        14 => Call::Save,
        _ => Call::Load,
    }
}

// A word of the script: calls have six words, load takes the image whole, fill a part of the codes.
pub fn word_drawn(seed: u32, place: u32) -> u32
    ensures { result ≤ 40 }
{
    let drawn = below_16(seed ^ 0x55555555, place);
    match (call_drawn(seed, place / 6), place % 6) {
        (call, 0) => call as u32,
        (Call::Load, 2) => 40,
        (Call::Load, _) => 0,
        (Call::Fill, _) => drawn,
        _ => drawn % 8,
    }
}
