// Random histories of calls, each on a register and on the plain set: what is printed is compared with the file stdout beside src.
#![tactic(auto)]

ghost use Rattle.std.specs.Prelude.{◌≤◌};

use crate::draws::panel_drawn;
use crate::report::{Totals, Turn, is_sound};
use crate::steps::{Call, Image};
use console::Console;
use plain::blocks::Marked;
use std::fmt::Write;

mod draws;
mod numbers;
mod report;
mod steps;

fn main() {
    let mut totals = Totals::new();
    let mut image = [0u8; 2048];
    for history in 0..500u32 {
        if let Some(turn) = first_difference(history, &mut image, &mut totals) {
            let _ = writeln!(Console, "{turn}");
            return;
        }
    }
    let _ = writeln!(Console, "{totals}");
}

// No call has the seed of the panel.
fn first_difference(history: u32, image: &mut Image, totals: &mut Totals) -> Option<Turn>
    requires { history ≤ 500 }
{
    let mut marked = Marked::empty(panel_drawn(history));
    let mut store = [0u32; 2500];
    let panel = marked.panel;
    let _ = register::make(&mut store, panel.m, panel.k as u32, panel.most);
    run_calls(history, &mut store, &mut marked, image, totals)
}

fn run_calls(
    history: u32,
    store: &mut [u32],
    marked: &mut Marked,
    image: &mut Image,
    totals: &mut Totals,
) -> Option<Turn>
    requires { history ≤ 500 }
{
    for number in 0..600u32 {
        let seed = 600 * history + number + 500;
        let call = Call::drawn(seed, number / 100 % 2 == 1);
        let step = steps::run(call, seed, store, marked, image);
        let turn = Turn {
            history,
            number,
            call,
            step,
            sound: is_sound(store),
        };
        if !turn.is_right() {
            return Some(turn);
        }
        totals.add(step.got.refusal);
    }
    None
}
