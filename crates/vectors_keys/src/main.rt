// Checks the library against the Bing Maps page's examples and what the papers say of keys, of zoom 30 and of steps up: a line for each
// says what the source says and what the library gives. The last line counts them, and those that differ.
#![tactic(auto)]

mod bing;
mod deepest;
mod keys;
mod pictures;
mod steps;

use std::io;
use vectors_lines::tally::Lines;

fn main(rt: HostRuntime) -> io::Result<()> {
    let mut lines = Lines::new(&rt);
    bing::levels(&mut lines)?;
    bing::tile_3_5(&mut lines)?;
    bing::families(&mut lines)?;
    bing::leading_parts(&mut lines)?;
    pictures::levels(&mut lines, rt.alloc())?;
    keys::ancestors(&mut lines)?;
    keys::shared(&mut lines)?;
    keys::digits(&mut lines)?;
    deepest::keys(&mut lines)?;
    deepest::numbers(&mut lines)?;
    steps::of_the_page(&mut lines)?;
    steps::of_the_longest(&mut lines)?;
    lines.end()
}
