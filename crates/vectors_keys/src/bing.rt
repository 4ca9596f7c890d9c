// The page "Bing Maps Tile System": levels of detail, tile coordinates and quadkeys.
use constants::MAX_DIGITS;
use errors::Refusal;
use fns::Limits;
use std::fmt::{self, Display};
use std::io;
use tile::Tile;
use vectors_lines::shown::{Answer, Digits, Key, KeyOf, Place};
use vectors_lines::tally::Lines;

// A tile is 256 pixels wide.
const PIXELS: u64 = 256;

// The first and the last tile of a level, by column and row.
#[derive(Clone, Copy)]
struct Corners(Limits);

impl Display for Corners {
    fn fmt<W: fmt::Write>(&self, f: &mut fmt::Formatter<W>) -> fmt::Result {
        let Limits { min, max } = self.0;
        write!(f, "({min},{min}) to ({max},{max})")
    }
}

pub fn levels<R: Print + Alloc>(lines: &mut Lines<'_, R>) -> io::Result<()> {
    lines.source("Bing Maps Tile System, Ground Resolution and Map Scale: 256 * 2^level pixels")?;
    for (level, says) in [(1, "512"), (2, "1024"), (3, "2048"), (4, "4096")] {
        let width = zoom::zoom_max_xy(level).map(|last| PIXELS * (u64::from(last) + 1));
        let asked = format_args!("map width at level {level}");
        lines.told(asked, says, Answer(width))?;
    }
    lines.source("Bing Maps Tile System, Tile Coordinates and Quadkeys")?;
    let corners = Answer(fns::minmax(3).map(Corners));
    lines.told("tile coordinates at level 3", "(0,0) to (7,7)", corners)
}

// The digits of a key of three, each as two bits.
#[derive(Clone, Copy)]
struct Bits([u8; 3]);

impl Display for Bits {
    fn fmt<W: fmt::Write>(&self, f: &mut fmt::Formatter<W>) -> fmt::Result {
        let [a, b, c] = self.0;
        write!(f, "{a:02b}{b:02b}{c:02b}")
    }
}

// "given tile XY coordinates of (3, 5) at level 3"
pub fn tile_3_5<R: Print + Alloc>(lines: &mut Lines<'_, R>) -> io::Result<()> {
    let mut digits = [0; 3];
    let answer = quadkey::xyz2quadkey_vec(3, 5, 3, &mut digits);
    let bits = Answer(answer.map(|_| Bits(digits)));
    lines.told("quadkey of (3,5) at level 3 in base 2", "100111", bits)?;
    let key = Key(Tile { x: 3, y: 5, z: 3 });
    lines.told("quadkey of (3,5) at level 3", "213", key)?;
    let place = Answer(key_reader::quadkey2xyz(b"213").map(Place));
    lines.told("tile of quadkey 213", "(3,5,3)", place)?;
    let mut room = [0; MAX_DIGITS];
    let count = Answer(quadkey::xyz2quadkey(3, 5, 3, &mut room));
    lines.told("digits of that quadkey, as many as its level", "3", count)
}

// "tile 2 is the parent of tiles 20 through 23, and tile 13 is the parent of tiles 130 through 133"
pub fn families<R: Print + Alloc>(lines: &mut Lines<'_, R>) -> io::Result<()> {
    family(lines, "2", ["20", "21", "22", "23"])?;
    family(lines, "13", ["130", "131", "132", "133"])
}

fn family<R: Print + Alloc>(
    lines: &mut Lines<'_, R>,
    parent: &str,
    children: [&str; 4],
) -> io::Result<()> {
    let [a, b, c, d] = children;
    let says = format_args!("{a} {b} {c} {d}");
    let gives = key_reader::quadkey2xyz(parent.as_bytes()).and_then(children_of);
    lines.told(format_args!("children of {parent}"), says, Answer(gives))?;
    for child in children {
        let gives = key_reader::quadkey2xyz(child.as_bytes()).and_then(parent_of);
        lines.told(format_args!("parent of {child}"), parent, Answer(gives))?;
    }
    Ok(())
}

// The children of a tile, printed as keys.
#[derive(Clone, Copy)]
struct Four([u64; 4]);

impl Display for Four {
    fn fmt<W: fmt::Write>(&self, f: &mut fmt::Formatter<W>) -> fmt::Result {
        let [a, b, c, d] = self.0.map(KeyOf);
        write!(f, "{a} {b} {c} {d}")
    }
}

fn children_of(t: Tile) -> Result<Four, Refusal> {
    let mut list = [0; 4];
    children::children1_zorder(t.x, t.y, t.z, &mut list)?;
    Ok(Four(list))
}

fn parent_of(t: Tile) -> Result<Key, Refusal> {
    let up = fns::parent(t.x, t.y, t.z, None)?;
    Ok(Key(up.tile))
}

// "the quadkey of any tile starts with the quadkey of its parent tile": as parts of the key itself.
pub fn leading_parts<R: Print + Alloc>(lines: &mut Lines<'_, R>) -> io::Result<()> {
    let part = key_parts::ancestor_key(b"130", 2);
    lines.told(
        "first 2 digits of 130, the key of its parent",
        "13",
        Digits(part),
    )?;
    let shared = key_parts::shared_key(b"130", b"133");
    lines.told(
        "what 130 and 133 share, the key of their parent",
        "13",
        Digits(shared),
    )?;
    let shared = key_parts::shared_key(b"20", b"21");
    lines.told(
        "what 20 and 21 share, the key of their parent",
        "2",
        Digits(shared),
    )
}
