// Standard output, for the programs. What can't be written is lost, as there is nobody to tell.
#![tactic(auto)]

use board::Refusal;
use std::fmt;
use std::fmt::{Display, Write};

// Standard output as a sink of text.
#[derive(Clone, Copy)]
pub struct Output;

impl Write for Output {
    fn write_str(&mut self, s: &str) -> fmt::Result {
        if io::write_all(1, s.as_bytes()) {
            Ok(())
        } else {
            Err(fmt::Error)
        }
    }
}

// What is written as it stands: text, and bytes of any kind.
pub trait Bytes {
    fn write(self);
}

impl Bytes for &str {
    fn write(self) {
        io::write_all(1, self.as_bytes());
    }
}

impl Bytes for &[u8] {
    fn write(self) {
        io::write_all(1, self);
    }
}

impl<const N: usize> Bytes for &[u8; N] {
    fn write(self) {
        io::write_all(1, self);
    }
}

pub fn text<B: Bytes>(s: B) {
    s.write();
}

pub fn number(n: usize) {
    let _ = write!(Output, "{n}");
}

// A line: a name and a value.
pub fn line<B: Bytes, D: Display + Drop>(name: B, value: D) {
    text(name);
    let _ = writeln!(Output, "{value}");
}

// A line: a name, and what a check came to.
pub fn check<B: Bytes>(name: B, c: Result<(), Refusal>) {
    text(name);
    match c {
        Ok(()) => text(": passed\n"),
        Err(r) => refusal(r),
    }
}

// The end of a line: a refusal's number, and its place where it has one.
pub fn refusal(r: Refusal) {
    line(": refused ", r);
}
