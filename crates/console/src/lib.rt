// Standard output, for the programs.
#![tactic(auto)]

ghost use Rattle.std.specs.Prelude.{IsOk};

use std::fmt;

// What a program prints to.
#[derive(Drop)]
pub struct Console;

impl fmt::Write for Console {
    // What cannot be written is left, and the program goes on.
    fn write_str(&mut self, text: &str) -> fmt::Result
        ensures never_fails { IsOk result }
    {
        io::write_all(1, text.as_bytes());
        Ok(())
    }
}
