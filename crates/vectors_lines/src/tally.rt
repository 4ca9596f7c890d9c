// The lines that are printed, and how many were checked.
use std::fmt::Display;
use std::io;

#[derive(Clone, Copy, Debug, PartialEq, Eq)]
pub struct Tally {
    pub checked: u64,
    pub differ: u64,
}

// The lines, each printed as it is told, and their tally.
#[derive(Drop)]
pub struct Lines<'a, R> {
    rt: &'a R,
    pub tally: Tally,
}

impl<'a, R: Print + Alloc> Lines<'a, R> {
    pub fn new(rt: &'a R) -> Lines<'a, R> {
        let tally = Tally {
            checked: 0,
            differ: 0,
        };
        Lines { rt, tally }
    }

    // The source that the lines below it come from.
    pub fn source(&self, name: &str) -> io::Result<()> {
        println!(self.rt; "{name}")
    }

    // A line: what the library was asked, what the source says, and what the library gives.
    pub fn told(
        &mut self,
        asked: impl Display + Drop,
        says: impl Display + Drop,
        gives: impl Display + Drop,
    ) -> io::Result<()> {
        let says = says.to_string(self.rt.alloc())?;
        let gives = gives.to_string(self.rt.alloc())?;
        self.tally.checked = self.tally.checked.wrapping_add(1);
        if says.as_str() == gives.as_str() {
            return println!(self.rt; "  {asked}: says {says}, gives {gives}");
        }
        self.tally.differ = self.tally.differ.wrapping_add(1);
        println!(self.rt; "  {asked}: says {says}, gives {gives}, DIFFERS")
    }

    pub fn end(&self) -> io::Result<()> {
        let Tally { checked, differ } = self.tally;
        println!(self.rt; "{checked} vectors, {differ} differ")
    }
}
