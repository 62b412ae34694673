// The register's answers, printed; each function answers 01's number of the refusal, 0 for none. That something cannot be printed is no fault of the register.
ghost use Rattle.std.specs.Prelude.{◌≡◌};
ghost use Rattle.answers.specs.Answer.{answer, ask_answer, count_answer, number_of, search_answer};

use answers::{Found, Nearest, Place, Refusal, refusal_of};
use std::fmt;

pub fn print_outcome(out: &mut impl fmt::Write, outcome: Result<(), Refusal>) -> u32
    ensures { result ≡ (answer outcome).refusal }
{
    let refusal = refusal_of(outcome);
    let _ = write!(out, " {refusal}");
    refusal
}

fn print_refusal(out: &mut impl fmt::Write, refusal: Refusal) -> u32
    ensures { result ≡ number_of refusal }
{
    let number = u32::from(refusal);
    let _ = write!(out, " refused {number}");
    number
}

// Marked or not, the blocks opened, and the smallest block by level and code.
fn print_place(out: &mut impl fmt::Write, place: Place) {
    let Place {
        marked,
        opened,
        level,
        code,
    } = place;
    let marked = if marked { "yes" } else { "no" };
    let _ = write!(
        out,
        " {marked}, opened {opened}, smallest block {level}/{code}"
    );
}

pub fn print_asking(out: &mut impl fmt::Write, asking: Result<Place, Refusal>) -> u32
    ensures { result ≡ (ask_answer asking).refusal }
{
    match asking {
        Ok(place) => {
            print_place(out, place);
            0
        }
        Err(refusal) => print_refusal(out, refusal),
    }
}

pub fn print_counting(out: &mut impl fmt::Write, counting: Result<Found, Refusal>) -> u32
    ensures { result ≡ (count_answer counting).refusal }
{
    match counting {
        Ok(Found { found, opened }) => {
            let _ = write!(out, " found {found}, opened {opened}");
            0
        }
        Err(refusal) => print_refusal(out, refusal),
    }
}

pub fn print_searching(out: &mut impl fmt::Write, searching: Result<Nearest, Refusal>) -> u32
    ensures { result ≡ (search_answer searching).refusal }
{
    match searching {
        Ok(nearest) => {
            print_nearest(out, nearest);
            0
        }
        Err(refusal) => print_refusal(out, refusal),
    }
}

fn print_nearest(out: &mut impl fmt::Write, nearest: Nearest) {
    let _ = match nearest.pixel {
        Some(pixel) => write!(out, " {} at {}", pixel.code, pixel.distance),
        None => write!(out, " none"),
    };
    let end = if nearest.complete { ", complete" } else { "" };
    let _ = write!(
        out,
        ", opened {}, limit {}{end}",
        nearest.opened, nearest.limit
    );
}
