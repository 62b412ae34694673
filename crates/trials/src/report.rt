// The totals, and the first difference.
use crate::steps::{Call, Step};
use std::fmt;

// How many calls there were, and how often each refusal was given, none as 0.
#[derive(Drop)]
pub struct Totals {
    calls: u32,
    answers: [u32; 16],
}

impl Totals {
    pub fn new() -> Totals {
        Totals {
            calls: 0,
            answers: [0; 16],
        }
    }

    pub fn add(&mut self, refusal: u32) {
        let i = (refusal % 16) as usize;
        self.answers[i] = self.answers[i].wrapping_add(1);
        self.calls = self.calls.wrapping_add(1);
    }
}

impl fmt::Display for Totals {
    fn fmt<W: fmt::Write>(&self, f: &mut fmt::Formatter<W>) -> fmt::Result {
        write!(f, "500 histories, calls: {}\nanswers", self.calls)?;
        for (refusal, number) in self.answers.iter().enumerate() {
            write!(f, " {refusal}:{number}")?;
        }
        write!(f, "\nok")
    }
}

pub fn is_sound(store: &[u32]) -> bool {
    register::check(store) == Ok(true)
}

// A call of a history, with what came of it.
#[derive(Clone, Copy)]
pub struct Turn {
    pub history: u32,
    pub number: u32,
    pub call: Call,
    pub step: Step,
    pub sound: bool,
}

impl Turn {
    // The answers are the same, what was written is right, and check says sound.
    pub fn is_right(&self) -> bool {
        self.step.got == self.step.want && self.step.right_output && self.sound
    }
}

impl fmt::Display for Turn {
    fn fmt<W: fmt::Write>(&self, f: &mut fmt::Formatter<W>) -> fmt::Result {
        let name = self.call.name();
        let Step {
            got,
            want,
            right_output,
        } = self.step;
        write!(
            f,
            "history {}, call {} {name:<7} gives {got}, the plain set {want}; right output: {}; sound: {}",
            self.history, self.number, right_output as u32, self.sound as u32
        )
    }
}
