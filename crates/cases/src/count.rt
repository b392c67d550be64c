// How many cases ran and how many of them failed.
use std::fmt::Display;
use std::io;

// The two counts, and what the cases are written to.
#[derive(Drop)]
pub(crate) struct Cases<'a, R> {
    rt: &'a R,
    run: u32,
    failed: u32,
}

impl<'a, R: Print> Cases<'a, R> {
    // Nothing has run yet.
    pub(crate) fn new(rt: &'a R) -> Cases<'a, R> {
        Cases {
            rt,
            run: 0,
            failed: 0,
        }
    }

    // One case more; its name is written, and whether its answer was the expected one.
    pub(crate) fn case(&mut self, name: impl Display + Drop, holds: bool) -> io::Result<()> {
        self.run = self.run.wrapping_add(1);
        if holds {
            println!(self.rt; "{name}: ok")
        } else {
            self.failed = self.failed.wrapping_add(1);
            println!(self.rt; "{name}: FAILED")
        }
    }

    // What a case gives, written as it is.
    pub(crate) fn show(&self, bytes: &[u8]) -> io::Result<()> {
        self.rt.write_all(bytes)
    }

    // The counts on a line.
    pub(crate) fn print(&self) -> io::Result<()> {
        println!(self.rt; "{} cases run, {} failed", self.run, self.failed)
    }
}
