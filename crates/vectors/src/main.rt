// Checks the library against the Slippy map page's examples and the limits of lists in document 01: a line for each says what the source
// says and what the library gives. The last line counts them, and those that differ. `vectors_keys` has what is about keys.
#![tactic(auto)]

mod area_limits;
mod limits;
mod slippy;

use std::io;
use vectors_lines::tally::Lines;

fn main(rt: HostRuntime) -> io::Result<()> {
    let mut lines = Lines::new(&rt);
    slippy::zoom_levels(&mut lines)?;
    slippy::edges(&mut lines)?;
    slippy::corner(&mut lines)?;
    slippy::subtiles(&mut lines)?;
    slippy::from_the_bottom(&mut lines)?;
    limits::lists(&mut lines)?;
    area_limits::lists(&mut lines, rt.alloc())?;
    lines.end()
}
