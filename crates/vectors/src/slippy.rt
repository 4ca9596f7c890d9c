// The OpenStreetMap wiki's page "Slippy map tilenames", as far as it needs no sine: how many tiles a zoom has, the edges of the map, tiles
// under and above a tile, and rows counted from the bottom as TMS does.
use errors::Refusal;
use std::fmt::{self, Display};
use std::io;
use tile::Tile;
use tile_zbox::TileZBox;
use vectors_lines::shown::{Answer, Place, PlaceOf};
use vectors_lines::tally::Lines;

// How many tiles a zoom has: from west to east, from north to south, and in all.
#[derive(Clone, Copy)]
struct Size {
    across: u32,
    down: u32,
    tiles: u64,
}

impl Display for Size {
    fn fmt<W: fmt::Write>(&self, f: &mut fmt::Formatter<W>) -> fmt::Result {
        let Size {
            across,
            down,
            tiles,
        } = *self;
        write!(f, "{across} x {down}, {tiles} in all")
    }
}

pub fn zoom_levels<R: Print + Alloc>(lines: &mut Lines<'_, R>) -> io::Result<()> {
    lines.source(
        "OpenStreetMap wiki, Slippy map tilenames, Zoom levels: 2^n x 2^n tiles, 2^2n in all",
    )?;
    for (z, says) in [
        (0, "1 x 1, 1 in all"),
        (1, "2 x 2, 4 in all"),
        (2, "4 x 4, 16 in all"),
        (12, "4096 x 4096, 16777216 in all"),
        (16, "65536 x 65536, 4294967296 in all"),
        (17, "131072 x 131072, 17179869184 in all"),
        (18, "262144 x 262144, 68719476736 in all"),
        (19, "524288 x 524288, 274877906944 in all"),
    ] {
        lines.told(
            format_args!("tiles of zoom {z}"),
            says,
            Answer(size_of_zoom(z)),
        )?;
    }
    Ok(())
}

fn size_of_zoom(z: u8) -> Result<Size, Refusal> {
    let all = TileZBox::from_tile(0, 0, 0)?.zoom_depth(z)?;
    let sides = all.dimensions()?;
    Ok(Size {
        across: sides.across,
        down: sides.down,
        tiles: all.length()?,
    })
}

// The first and the last column, and row.
#[derive(Clone, Copy)]
struct Span {
    first: u32,
    last: u32,
}

impl Display for Span {
    fn fmt<W: fmt::Write>(&self, f: &mut fmt::Formatter<W>) -> fmt::Result {
        let Span { first, last } = *self;
        write!(f, "{first} to {last}")
    }
}

pub fn edges<R: Print + Alloc>(lines: &mut Lines<'_, R>) -> io::Result<()> {
    lines.source("OpenStreetMap wiki, Slippy map tilenames, X and Y: from 0 to 2^zoom - 1")?;
    for (z, says) in [
        (0, "0 to 0"),
        (1, "0 to 1"),
        (2, "0 to 3"),
        (18, "0 to 262143"),
    ] {
        let edges = fns::minmax(z).map(|side| Span {
            first: side.min,
            last: side.max,
        });
        lines.told(format_args!("x and y at zoom {z}"), says, Answer(edges))?;
    }
    Ok(())
}

// Whether zoom 2 has a tile there.
pub fn corner<R: Print + Alloc>(lines: &mut Lines<'_, R>) -> io::Result<()> {
    for (x, y, says) in [
        (0, 0, "tile"),
        (3, 3, "tile"),
        (4, 0, "no tile"),
        (0, 4, "no tile"),
    ] {
        let gives = if fns::valid(x, y, 2) {
            "tile"
        } else {
            "no tile"
        };
        lines.told(format_args!("x {x}, y {y} at zoom 2"), says, gives)?;
    }
    Ok(())
}

pub fn subtiles<R: Print + Alloc>(lines: &mut Lines<'_, R>) -> io::Result<()> {
    lines.source(
        "OpenStreetMap wiki, Slippy map tilenames, Subtiles: 2x, 2y; 2x + 1, 2y; 2x, 2y + 1; 2x + 1, 2y + 1; zoom out by halving x and y",
    )?;
    for (x, y, z, says) in [
        (0, 0, 0, "(0,0,1) (1,0,1) (0,1,1) (1,1,1)"),
        (3, 5, 3, "(6,10,4) (7,10,4) (6,11,4) (7,11,4)"),
    ] {
        let asked = Place(Tile { x, y, z });
        lines.told(
            format_args!("subtiles of {asked}"),
            says,
            Answer(children_of(x, y, z)),
        )?;
    }
    for (x, y, z, says) in [(7, 11, 4, "(3,5,3)"), (3, 5, 3, "(1,2,2)")] {
        let asked = Place(Tile { x, y, z });
        let above = fns::parent(x, y, z, None).map(|up| Place(up.tile));
        lines.told(format_args!("zoomed out from {asked}"), says, Answer(above))?;
    }
    Ok(())
}

// The children of a tile.
#[derive(Clone, Copy)]
struct Family([u64; 4]);

impl Display for Family {
    fn fmt<W: fmt::Write>(&self, f: &mut fmt::Formatter<W>) -> fmt::Result {
        let [a, b, c, d] = self.0.map(PlaceOf);
        write!(f, "{a} {b} {c} {d}")
    }
}

fn children_of(x: u32, y: u32, z: u8) -> Result<Family, Refusal> {
    let mut list = [0; 4];
    children::children1_zorder(x, y, z, &mut list)?;
    Ok(Family(list))
}

pub fn from_the_bottom<R: Print + Alloc>(lines: &mut Lines<'_, R>) -> io::Result<()> {
    lines.source("OpenStreetMap wiki, TMS: y from the bottom is 2^zoom - 1 - y")?;
    for (y, z, says) in [(0, 0, "0"), (5, 3, "2"), (2, 3, "5"), (0, 18, "262143")] {
        lines.told(
            format_args!("y {y} at zoom {z}"),
            says,
            Answer(fns::flipy(y, z)),
        )?;
    }
    Ok(())
}
