// 01 "Sample panels", run through the public calls: what is printed is compared with the file stdout beside src.
#![tactic(auto)]

use crate::entries::print_image;
use crate::printing::{print_asking, print_counting, print_outcome, print_searching};
use answers::Found;
use console::Console;
use morton::{x_of, y_of};
use std::fmt;

mod entries;
mod printing;

fn main() {
    let mut out = Console;
    first_panel(&mut out);
    no_pixel_shown(&mut out);
    slot_handed_on(&mut out);
    full_root(&mut out);
    smallest_panel(&mut out);
    codes(&mut out);
    limits(&mut out);
    full_register(&mut out);
}

// A register whose answers are printed; it has enough words for every panel here.
#[derive(Drop)]
struct Shown<'a, W: fmt::Write> {
    out: &'a mut W,
    store: [u32; 148],
}

impl<'a, W: fmt::Write> Shown<'a, W> {
    // An unmade register, below its title.
    fn titled(out: &'a mut W, title: &str) -> Shown<'a, W> {
        let _ = write!(out, "{title}:");
        Shown {
            out,
            store: [0; 148],
        }
    }

    fn title(&mut self, title: &str) {
        let _ = write!(self.out, "{title}:");
    }

    fn make(&mut self, m: u32, k: u32, n: u32) {
        let made = register::make(&mut self.store, m, k, n);
        print_outcome(self.out, made);
    }

    fn mark_at(&mut self, x: u32, y: u32) {
        let marked = register::mark(&mut self.store, x, y);
        print_outcome(self.out, marked);
    }

    fn mark(&mut self, code: u32) {
        self.mark_at(x_of(code), y_of(code));
    }

    fn clear(&mut self, code: u32) {
        let cleared = register::clear(&mut self.store, x_of(code), y_of(code));
        print_outcome(self.out, cleared);
    }

    fn mark_all(&mut self, codes: &[u32]) {
        for code in codes {
            self.mark(*code);
        }
    }

    // The register's entries: those of its saved image.
    fn print(&mut self) {
        let mut image = [0u8; 256];
        let Ok(end) = register::save(&self.store, &mut image) else {
            let _ = writeln!(self.out, "not saved");
            return;
        };
        print_image(self.out, &image[..end]);
    }

    // A register with these codes, and its entries.
    fn made(&mut self, m: u32, k: u32, n: u32, codes: &[u32]) {
        self.make(m, k, n);
        self.mark_all(codes);
        self.print();
    }

    fn ask(&mut self, x: u32, y: u32) {
        print_asking(self.out, register::ask(&self.store, x, y));
    }

    fn nearest(&mut self, x: u32, y: u32, budget: u32) {
        let _ = write!(self.out, "nearest to ({x}, {y}), budget {budget}:");
        print_searching(self.out, register::nearest(&self.store, x, y, budget));
        let _ = writeln!(self.out);
    }

    // The codes in the window 4,4 to 7,7; the word after them is left alone.
    fn list(&mut self) {
        let mut output = [7u32; 2];
        let Ok(Found { found, opened }) = register::list(&self.store, 4, 4, 7, 7, &mut output)
        else {
            let _ = write!(self.out, " not listed");
            return;
        };
        let [first, second] = output;
        let _ = write!(
            self.out,
            "; listed {found}, opened {opened}: {first} {second}"
        );
    }
}

// m = 3, k = 3, N = 9: codes 0, 1, 2, 60; what is asked of them; then clear code 1.
fn first_panel(out: &mut impl fmt::Write) {
    let mut panel = Shown::titled(out, "codes 0, 1, 2, 60");
    panel.made(3, 3, 9, &[0, 1, 2, 60]);
    first_panel_asked(&mut panel);
    first_panel_searched(&mut panel);
    panel.title("clear code 1");
    panel.clear(1);
    panel.print();
}

fn first_panel_asked<W: fmt::Write>(panel: &mut Shown<W>) {
    panel.title("ask (1, 1)");
    panel.ask(1, 1);
    panel.title("\nask (3, 3)");
    panel.ask(3, 3);
    panel.title("\nwindow 4,4 to 7,7");
    print_counting(panel.out, register::count(&panel.store, 4, 4, 7, 7));
    panel.list();
    panel.title("\nask x = 8");
    panel.ask(8, 0);
    let _ = writeln!(panel.out);
}

// A rough search, then a complete one; a block too far to be opened; a limit that the next block reaches; no budget.
fn first_panel_searched<W: fmt::Write>(panel: &mut Shown<W>) {
    panel.nearest(1, 1, 1);
    panel.nearest(1, 1, 2);
    panel.nearest(1, 1, 9);
    panel.nearest(7, 7, 9);
    panel.nearest(4, 0, 1);
    panel.nearest(4, 0, 2);
    panel.nearest(4, 0, 0);
}

// Nothing marked; then a block that the root alone doesn't look into.
fn no_pixel_shown(out: &mut impl fmt::Write) {
    let mut panel = Shown::titled(out, "no codes");
    panel.made(3, 3, 9, &[]);
    panel.nearest(4, 0, 1);
    panel.title("codes 0, 1, 2");
    panel.made(3, 3, 9, &[0, 1, 2]);
    panel.nearest(4, 0, 1);
}

// N = 4 has two slots: the block that turns underfull hands its slot to the one that is formed in it.
fn slot_handed_on(out: &mut impl fmt::Write) {
    let mut panel = Shown::titled(out, "codes 0, 1, 4, N = 4");
    panel.made(3, 3, 4, &[0, 1, 4]);
    panel.title("mark 2");
    panel.mark(2);
    panel.print();
}

// The root alone with 8 = 4(k-1) elements is not full.
fn full_root(out: &mut impl fmt::Write) {
    let mut panel = Shown::titled(out, "codes 0, 1, 16, 17, 32, 33, 48, 49");
    panel.made(3, 3, 9, &[0, 1, 16, 17, 32, 33, 48, 49]);
    panel.title("mark 4");
    panel.mark(4);
    panel.print();
}

fn smallest_panel(out: &mut impl fmt::Write) {
    let mut empty = Shown::titled(out, "m = 1, k = 2, empty");
    empty.made(1, 2, 4, &[]);
    let mut full = Shown::titled(out, "m = 1, k = 2, all four");
    full.made(1, 2, 4, &[0, 1, 2, 3]);
}

// A pixel by its coordinates, printed by its code.
fn codes(out: &mut impl fmt::Write) {
    let mut panel = Shown::titled(out, "(5, 3)");
    panel.make(3, 3, 9);
    panel.mark_at(5, 3);
    panel.print();
    panel.title("(65535, 65535) on m = 16");
    panel.make(16, 3, 9);
    panel.mark_at(65535, 65535);
    panel.print();
}

fn limits(out: &mut impl fmt::Write) {
    let mut panel = Shown::titled(out, "k = 3, N = 9, 148 and 147 words");
    panel.make(3, 3, 9);
    let mut short = [0u32; 147];
    print_outcome(panel.out, register::make(&mut short, 3, 3, 9));
    panel.title("\nk = 1 and 17, m = 0 and 17, N = 0, 24577 and 65535");
    panel.make(3, 1, 9);
    panel.make(3, 17, 9);
    panel.make(0, 3, 9);
    panel.make(17, 3, 9);
    panel.make(3, 3, 0);
    panel.make(3, 3, 24577);
    panel.make(3, 3, 65535);
    panel.title("\nmark x = 8");
    panel.mark_at(8, 0);
    let _ = writeln!(panel.out);
}

// A marked pixel on a full register gives 5, another one 6; room from a cleared pixel counts.
fn full_register(out: &mut impl fmt::Write) {
    let mut panel = Shown::titled(out, "N = 1: mark 5, 5, 6, clear 5, mark 6");
    panel.make(3, 3, 1);
    panel.mark_all(&[5, 5, 6]);
    panel.clear(5);
    panel.mark(6);
    panel.print();
}
