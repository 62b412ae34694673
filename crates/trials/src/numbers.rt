// What is compared and printed of an answer, the register's or the plain set program's.
use answers::{Found, Nearest, Place};
use plain::calls::{Refusal, Seen};
use plain::search::{Pixel, Search};
use std::fmt;

// The refusal, 0 for none, and the two numbers beside it.
#[derive(Clone, Copy, PartialEq, Eq)]
pub struct Answer {
    pub refusal: u32,
    pub first: usize,
    pub second: usize,
}

impl fmt::Display for Answer {
    fn fmt<W: fmt::Write>(&self, f: &mut fmt::Formatter<W>) -> fmt::Result {
        write!(f, "{} {} {}", self.refusal, self.first, self.second)
    }
}

// What a call answers where it isn't refused, in two numbers.
pub trait Values {
    fn values(self) -> (usize, usize);
}

impl Values for () {
    fn values(self) -> (usize, usize) {
        (0, 0)
    }
}

impl Values for bool {
    fn values(self) -> (usize, usize) {
        (self as usize, 0)
    }
}

impl Values for usize {
    fn values(self) -> (usize, usize) {
        (self, 0)
    }
}

impl Values for Seen {
    fn values(self) -> (usize, usize) {
        (self.pixels, self.opened)
    }
}

// The distance, the limit and whether it is complete are compared apart.
impl Values for Search {
    fn values(self) -> (usize, usize) {
        let code = self.found.map_or(0, |pixel| pixel.code);
        (code as usize, self.opened as usize)
    }
}

// A refusal by 01's number, and with 9 the length that is needed, else 0.
pub trait Refused {
    fn numbers(self) -> (u32, usize);
}

impl Refused for Refusal {
    fn numbers(self) -> (u32, usize) {
        match self {
            Refusal::Numbered(number) => (number, 0),
            Refusal::Short(needed) => (9, needed),
        }
    }
}

impl Refused for answers::Refusal {
    fn numbers(self) -> (u32, usize) {
        match self {
            answers::Refusal::OutputTooShort { needed } => (9, needed),
            other => (u32::from(other), 0),
        }
    }
}

pub fn answer_of<T: Values, R: Refused>(answer: Result<T, R>) -> Answer {
    let (refusal, (first, second)) = match answer {
        Ok(value) => (0, value.values()),
        Err(refusal) => {
            let (number, needed) = refusal.numbers();
            (number, (needed, 0))
        }
    };
    Answer {
        refusal,
        first,
        second,
    }
}

// The register's answers, as the plain set program gives them.
pub fn of_place(place: Place) -> Seen {
    Seen {
        pixels: place.marked as usize,
        opened: place.opened,
    }
}

pub fn of_found(found: Found) -> Seen {
    Seen {
        pixels: found.found as usize,
        opened: found.opened as usize,
    }
}

pub fn of_nearest(nearest: Nearest) -> Search {
    Search {
        found: nearest.pixel.map(|pixel| Pixel {
            code: pixel.code,
            distance: pixel.distance,
        }),
        opened: nearest.opened,
        limit: nearest.limit,
        complete: nearest.complete,
    }
}
