// Lines on the standard output, for the programs that check the compiled code.
#![tactic(auto)]

ghost use Rattle.std.specs.Prelude.{cond, ◌≡◌, IsOk};
ghost use Rattle.lines.specs.Verdict.{no, yes};

use std::fmt;
use std::fmt::{Display, Write};

// The standard output, as a place for text. A write that fails is dropped, and the program goes on.
#[derive(Clone, Copy)]
pub struct Stdout;

impl Write for Stdout {
    fn write_str(&mut self, s: &str) -> fmt::Result
        ensures ok { IsOk result }
    {
        io::write_all(1, s.as_bytes());
        Ok(())
    }
}

// How a line ends that says whether a statement holds.
fn verdict(holds: bool) -> &'static str
    ensures { result.now ≡ cond holds yes no }
{
    if holds { "yes" } else { "no" }
}

// Writes a statement and whether it holds, on a line of its own, and gives back whether it holds.
pub fn say<D: Display + Drop>(statement: D, holds: bool) -> bool
    ensures { result ≡ holds }
{
    let _ = writeln!(Stdout, "{statement}: {}", verdict(holds));
    holds
}
