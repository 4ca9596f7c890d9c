// The pictures of the page "Bing Maps Tile System" that show the quadkeys of levels 1, 2 and 3, row by row: from tile to key, and from key
// to tile.
use std::alloc::{AllocError, Global};
use std::fmt::Display;
use std::io;
use tile::Tile;
use vectors_lines::shown::{Answer, Key, Place};
use vectors_lines::tally::Lines;

pub fn levels<R: Print + Alloc>(lines: &mut Lines<'_, R>, alloc: Global) -> io::Result<()> {
    for (level, y, shown) in [
        (1, 0, "0 1"),
        (1, 1, "2 3"),
        (2, 0, "00 01 10 11"),
        (2, 1, "02 03 12 13"),
        (2, 2, "20 21 30 31"),
        (2, 3, "22 23 32 33"),
        (3, 0, "000 001 010 011 100 101 110 111"),
        (3, 1, "002 003 012 013 102 103 112 113"),
        (3, 2, "020 021 030 031 120 121 130 131"),
        (3, 3, "022 023 032 033 122 123 132 133"),
        (3, 4, "200 201 210 211 300 301 310 311"),
        (3, 5, "202 203 212 213 302 303 312 313"),
        (3, 6, "220 221 230 231 320 321 330 331"),
        (3, 7, "222 223 232 233 322 323 332 333"),
    ] {
        row(lines, alloc, level, y, shown)?;
    }
    Ok(())
}

// A row from the left on: the library's keys of its tiles, where the picture shows them, and the library's tiles of the picture's keys.
fn row<R: Print + Alloc>(
    lines: &mut Lines<'_, R>,
    alloc: Global,
    level: u8,
    y: u32,
    shown: &str,
) -> io::Result<()> {
    let mut keys = String::new(alloc);
    let mut places = String::new(alloc);
    let mut tiles = String::new(alloc);
    let mut words = shown.split(' ');
    for x in 0..bits::pow2(level) {
        let t = Tile { x, y, z: level };
        let read = key_reader::quadkey2xyz(words.next().unwrap_or("").as_bytes());
        add(&mut keys, Key(t))?;
        add(&mut places, Place(t))?;
        add(&mut tiles, Answer(read.map(Place)))?;
    }
    let asked = format_args!("quadkeys of level {level}, row {y}");
    lines.told(asked, shown, keys)?;
    lines.told("tiles of these", places, tiles)
}

// Adds to a text, with a space after what stands there.
fn add(text: &mut String, more: impl Display + Drop) -> Result<(), AllocError> {
    if !text.is_empty() {
        text.push(' ')?;
    }
    write!(text, "{more}")
}
