// 01 "Program pkshow": shows the image on standard input.
#![tactic(auto)]

use console::Console;

mod show;

fn main() {
    let mut store = [0u32; show::WORDS_FOR_400];
    let mut image = [0u8; 4011];
    let length = io::read_full(0, &mut image);
    show::show(&mut Console, &mut store, &image[..length]);
}
