// Whole lists of calls: what survives, and the claim about every two lists. replay runs such a list.
#![tactic(auto)]

ghost use Rattle.std.specs.Prelude.{◌+◌, ◌*◌, ◌≤◌, ◌≡◌, length, take, drop};
ghost use Rattle.promises.specs.Survivors.{list, save, load, fill};
ghost use Rattle.history.specs.Run.{Step, Run};
ghost use Rattle.history.specs.Script.{zeros, call_of, encoded_at, calls_of};
ghost use Rattle.history.specs.Whole.{RunMeets, SampleRan};

use image::parts::part_of;
use measures::slots::wide;

// A call as words: its number and its arguments.
#[derive(Clone, Copy)]
pub struct Encoded {
    pub number: u32,
    pub a: u32,
    pub b: u32,
    pub c: u32,
    pub d: u32,
    pub e: u32,
}

// list, with an output of its own.
fn list_step(store: &[u32], call: Encoded)
    ensures { Step (list call.a call.b call.c call.d (zeros call.e 16)) store.now store.now }
{
    let mut output = [0u32; 16];
    let n = wide(call.e % 17);
    let _ = register::list(store, call.a, call.b, call.c, call.d, &mut output[..n]);
}

// save, with an output of its own.
fn save_step(store: &[u32], e: u32)
    ensures { Step (save (zeros e 64)) store.now store.now }
{
    let mut output = [0u8; 64];
    let n = wide(e % 65);
    let _ = register::save(store, &mut output[..n]);
}

// load, with a part of the bytes beside the script.
fn load_step(store: &mut [u32], images: &[u8], a: u32, b: u32)
    ensures { Step (load (take b (drop a images.now))) store.old store.new }
{
    let _ = register::load(store, part_of(images, wide(a), wide(b)));
}

// fill, with a part of the codes beside the script.
fn fill_step(store: &mut [u32], codes: &[u32], a: u32, b: u32)
    ensures { Step (fill (take b (drop a codes.now))) store.old store.new }
{
    let _ = register::fill(store, part_of(codes, wide(a), wide(b)));
}

// One call, run by calling it: check for every number that is no other call's.
fn step(store: &mut [u32], images: &[u8], codes: &[u32], call: Encoded)
    ensures { Step (call_of images.now codes.now call) store.old store.new }
{
    match call.number {
        0 => {
            let _ = register::mark(store, call.a, call.b);
        }
        1 => {
            let _ = register::clear(store, call.a, call.b);
        }
        2 => {
            let _ = register::ask(store, call.a, call.b);
        }
        3 => {
            let _ = register::count(store, call.a, call.b, call.c, call.d);
        }
        4 => list_step(store, call),
        5 => save_step(store, call.e),
        6 => load_step(store, images, call.a, call.b),
        7 => fill_step(store, codes, call.a, call.b),
        8 => {
            let _ = register::nearest(store, call.a, call.b, call.c);
        }
        _ => {
            let _ = register::check(store);
        }
    }
}

// The call at this index of a script.
fn encoded_at(script: &[u32], i: usize) -> Encoded
    requires { 6 * i + 6 ≤ length script.now }
    ensures { result ≡ encoded_at script.now i }
{
    let at = 6 * i;
    Encoded {
        number: script[at],
        a: script[at + 1],
        b: script[at + 2],
        c: script[at + 3],
        d: script[at + 4],
        e: script[at + 5],
    }
}

// All the calls of a script, each on the store as the one before it left it.
pub fn replay(store: &mut [u32], script: &[u32], images: &[u8], codes: &[u32])
    ensures { Run (calls_of images.now codes.now script.now) store.old store.new }
{
    for i in 0..script.len() / 6 {
        step(store, images, codes, encoded_at(script, i));
    }
}

// make, then a script: a whole history. It answers make's number.
pub fn run(
    store: &mut [u32],
    m: u32,
    k: u32,
    most: u32,
    script: &[u32],
    images: &[u8],
    codes: &[u32],
) -> u32
    ensures { RunMeets store.old store.new m k most script.now images.now codes.now result }
{
    let number = answers::refusal_of(register::make(store, m, k, most));
    if number == 0 {
        replay(store, script, images, codes);
    }
    number
}

// 01's codes 0, 1, 4, then mark 2, with m = k = 3 and N = 4: a history with nothing left open.
pub fn sample()
    ensures { SampleRan }
{
    let mut store = [0u32; 64];
    let script = [
        0u32, 0, 0, 0, 0, 0, 0, 1, 0, 0, 0, 0, 0, 2, 0, 0, 0, 0, 0, 0, 1, 0, 0, 0,
    ];
    let images = [0u8; 1];
    let codes = [0u32; 1];
    run(&mut store, 3, 3, 4, &script, &images, &codes);
}
